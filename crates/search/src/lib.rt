// reference_brute_force. Pairs that cannot be below what is held are passed over, by floors of their errors: the answer is that of all pairs tried.
#![tactic(auto)]

ghost use Rattle.std.specs.Prelude.{◌≡◌, ◌⊎◌, true, false, ◌<◌, ◌≤◌, ◌+◌, ◌-◌, length};
ghost use Rattle.std.specs.Float.{inf};
ghost use Rattle.std.specs.Float.Ieee.{lt};
ghost use Rattle.palette.specs.declared.Kind.{Kind as KindOf};
ghost use Rattle.palette.specs.declared.Kind.TheVariants.{Six};
ghost use Rattle.search.specs.Covered.{pair_error};
ghost use Rattle.search.specs.Floor.{FloorsFrom};
ghost use Rattle.search.specs.Search.{mode_tried, pair_tried, maxes_tried, mins_tried, first_max, searched};

mod floor;

use coding::Coded;
use end_points::EndPoints;
use floats::Pair;
use floor::{MaxFloors, PART};
use palette::Palette;
use palette::inter4::Inter4Palette;
use palette::inter6::Inter6Palette;

#[tactic(auto, unfolding(crate::specs::Search::mode_tried))]
fn mode_tried<P: Palette>(b: &[f32; 16], best: Coded, e: EndPoints) -> Coded
    ensures { result ≡ mode_tried P.kind b.now best e }
{
    let error = palette::palette_error::<P>(b, e.c0_f, e.c1_f);
    if error < best.error {
        let found = coding::ended::<P>(b, false, e);
        return Coded {
            bytes: found.bytes,
            error,
        };
    }
    best
}

// Neither error of the pair is below the floor, so where what is held is not above it, nothing has to be tried.
#[tactic(auto, using(crate::proofs::PassedOver::pair_passed), unfolding(crate::specs::Search::pair_tried))]
fn pair_tried(b: &[f32; 16], floor: f32, best: Coded, min: u8, max: u8) -> Coded
    requires { (kind : KindOf) → lt (pair_error kind b.now min max) floor ≡ false }
    ensures { result ≡ pair_tried b.now best min max }
{
    if floor >= best.error {
        return best;
    }
    let e = EndPoints::new_inter6_unorm(max, min);
    let six = mode_tried::<Inter6Palette>(b, best, e);
    mode_tried::<Inter4Palette>(b, six, e.inter6_to_inter4())
}

#[tactic(auto, using(crate::proofs::Steps::maxes_more), unfolding(crate::specs::Search::maxes_tried))]
fn maxes_tried(b: &[f32; 16], floors: &[f32], start: Coded, min: u8, at: usize) -> Coded
    requires { FloorsFrom b.now min at floors.now × (at + length floors.now ≤ 256) }
    ensures { result ≡ maxes_tried b.now start min at (length floors.now) }
{
    let mut best = start;
    for (i, floor) in floors.iter().enumerate() {
        best = pair_tried(b, *floor, best, min, (at + i) as u8);
    }
    best
}

fn first_max(least: u8, min: u8) -> usize
    requires { min < 255 }
    ensures { (result ≡ first_max least min) × (min < result) × (result ≤ 256) }
{
    (least as usize).max(min as usize + 1)
}

impl MaxFloors<'_> {
    fn min_tried(&self, best: Coded, min: u8, first: usize) -> Coded
        requires { (min < first) × (first ≤ 256) }
        ensures { result ≡ maxes_tried self.now.block.now best min first (256 - first) }
    {
        if floor::min_floor(self.block, min) >= best.error {
            return best;
        }
        let mut held = best;
        // By `step_by` or `chunks` the search takes 2 % more instructions.
        let mut at = first;
        while at < 256 {
            let n = PART.min(256 - at);
            let raised = self.raised(held.error, min, at, n);
            held = maxes_tried(self.block, &raised[..n], held, min, at);
            at += n;
        }
        held
    }

    #[tactic(auto, using(crate::proofs::Steps::mins_more), unfolding(crate::specs::Search::mins_tried))]
    fn mins_tried(&self, least: u8, start: Coded, limit: u8) -> Coded
        ensures { result ≡ mins_tried self.now.block.now least start limit }
    {
        let mut best = start;
        for min in 0..limit {
            best = self.min_tried(best, min, first_max(least, min));
        }
        best
    }
}

// What the search starts from: just above the error of one pair that it tries, about as wide as the samples. A start at infinity leads to the same
// answer, and holds for long what passes little over. The test alone makes sure that it is above; how far is only a matter of time.
fn start_error(b: &[f32; 16], min: u8, max: u8) -> f32
    ensures { (result ≡ inf false) ⊎ ((min < max) × (lt (pair_error Six b.now min max) result ≡ true)) }
{
    let e = EndPoints::new_inter6_unorm(max, min);
    let error = palette::palette_error::<Inter6Palette>(b, e.c0_f, e.c1_f);
    let above = error * 1.0001 + 0.0000000001;
    if min < max && error < above {
        return above;
    }
    f32::INFINITY
}

#[tactic(auto, using(crate::proofs::Start::started), unfolding(crate::specs::Search::searched))]
pub fn reference_brute_force(b: &[f32; 16], p: Pair) -> u64
    ensures { result ≡ searched b.now p }
{
    let limit = floats::byte_of(p.1 * 255.0 + 2.0);
    let least = floats::byte_of(p.0 * 255.0 - 1.0);
    let start = Coded {
        bytes: 0,
        error: start_error(b, least, limit),
    };
    let mut floors = [0.0f32; 256];
    floor::max_floors(b, &mut floors);
    let all = MaxFloors {
        block: b,
        floors: &floors,
    };
    all.mins_tried(least, start, limit).bytes
}
