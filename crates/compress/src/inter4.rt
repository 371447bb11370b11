// compress_inter4 with inter4_reassign_defaults.
ghost use Rattle.std.specs.Prelude.{◌≡◌, ◌<◌};
ghost use Rattle.compress.specs.Inter4.{far as far_of, upward as upward_of, candidate as candidate_of, walked as walked_of, reassigned, first_ends, compress_inter4};

use crate::sorted::Sorted;
use coding::Coded;
use end_points::EndPoints;
use floats::Pair;
use options::Options;
use palette::inter4::Inter4Palette;
use refine::rounds::Held;

const BC4_MIN_VALUE: f32 = 1.0 / (255.0 * 7.0);

const MAX_DISTANCE: f32 = 0.125;

const FROM_ONE: f32 = 1.0 - MAX_DISTANCE;

fn far(p: Pair) -> bool
    ensures { result ≡ far_of p }
{
    (MAX_DISTANCE < p.0) & (p.1 < FROM_ONE)
}

fn upward(h: Held) -> bool
    ensures { result ≡ upward_of h }
{
    h.min < 1.0 - h.max
}

impl Sorted<'_> {
    #[tactic(auto, unfolding(crate::specs::Inter4::candidate))]
    fn candidate(&self, h: Held, low: u32, high: u32) -> Held
        requires { (low < high) × (high < 16) }
        ensures { result ≡ candidate_of self.now.block.now h low high }
    {
        if upward(h) {
            return refine::rounds::hold::<Inter4Palette>(self.block, self.placed(low + 1), h.max);
        }
        refine::rounds::hold::<Inter4Palette>(self.block, h.min, self.placed(high - 1))
    }

    // The Rust remembers the side of a move that failed and stops when that side is next again. It always is: nothing has changed by then.
    fn walked(&self, start: Held, from: u32, to: u32) -> Held
        requires { to < 16 }
        ensures { result ≡ walked_of self.now.block.now 4 start from to }
    {
        let mut h = start;
        let mut low = from;
        let mut high = to;
        for _ in 0..4u8 {
            if high <= low {
                return h;
            }
            let t = self.candidate(h, low, high);
            if !(t.error < h.error) {
                return h;
            }
            let up = floats::one_if(upward(h));
            low += up;
            high -= 1 - up;
            h = t;
        }
        h
    }
}

#[tactic(auto, using(crate::proofs::Counting::count_le), unfolding(crate::specs::Inter4::reassigned))]
fn inter4_reassign_defaults(b: &[f32; 16], p: Pair) -> Pair
    ensures { result ≡ reassigned b.now p }
{
    if far(p) {
        return p;
    }
    let start = refine::rounds::hold::<Inter4Palette>(b, p.0, p.1);
    let from = crate::sorted::place_of(b, p.0);
    let to = crate::sorted::place_of(b, p.1);
    let sorted = Sorted {
        block: b,
        samples: &crate::network::sorted(b),
    };
    let h = sorted.walked(start, from, to);
    Pair(h.min, h.max)
}

fn first_ends(b: &[f32; 16], reassign: bool, p: Pair) -> Pair
    ensures { result ≡ first_ends b.now reassign p }
{
    if reassign {
        return inter4_reassign_defaults(b, p);
    }
    p
}

#[tactic(auto, unfolding(crate::specs::Inter4::compress_inter4))]
pub fn compress_inter4(b: &[f32; 16], o: Options) -> Coded
    ensures { result ≡ compress_inter4 b.now o }
{
    let p = block::min_max_with_threshold(b, BC4_MIN_VALUE);
    let first = first_ends(b, o.iter_initial_inter4, p);
    let ends = refine::refine_endpoints::<Inter4Palette>(b, first.0, first.1, o);
    coding::ended::<Inter4Palette>(b, o.dither, EndPoints::new_inter4(ends.0, ends.1, o.snorm))
}
