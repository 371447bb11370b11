// The samples by place: how many are not above a float, and a sample looked up in the sorted sixteen.
ghost use Rattle.std.specs.Prelude.{◌≡◌, ◌<◌};
ghost use Rattle.compress.specs.Sorted.{not_above, placed as placed_of, place_of};
ghost use Rattle.compress.specs.Network.{InOrder, first_zero};

#[tactic(auto, using(crate::proofs::Places::count_more), unfolding(crate::specs::Sorted::count_to))]
fn not_above(b: &[f32; 16], x: f32) -> u32
    ensures { result ≡ not_above b.now x }
{
    // By `filter` and `count`, and `first_zero` by `fold`, a block whose four-value walk sorts takes some 0.3 % more instructions.
    let mut n = 0u32;
    for sample in b {
        n += floats::one_if(*sample <= x);
    }
    n
}

// Zeros of both signs are equal, and the sort may exchange them: the first of the block stands for all. After entry there is one zero only.
#[tactic(auto, using(crate::proofs::Places::first_zero_more), unfolding(crate::specs::Network::first_zero_to))]
fn first_zero(b: &[f32; 16]) -> f32
    ensures { result ≡ first_zero b.now }
{
    let mut z = 1.0f32;
    for sample in b {
        z = floats::pick(z == 0.0, z, *sample);
    }
    z
}

// A block with its sorted sixteen.
#[derive(Drop)]
pub struct Sorted<'a> {
    pub block: &'a [f32; 16],
    pub samples: &'a [f32; 16],
    ghost in_order: { InOrder block.now samples.now },
}

impl Sorted<'_> {
    pub fn placed(&self, k: u32) -> f32
        requires { k < 16 }
        ensures { result ≡ placed_of self.now.block.now k }
    {
        let x = floats::lane_min(self.samples[k as usize], 1.0);
        if x == 0.0 {
            return first_zero(self.block);
        }
        x
    }
}

// For a caller that holds the two apart.
pub fn placed(b: &[f32; 16], s: &[f32; 16], k: u32) -> f32
    requires { InOrder b.now s.now × (k < 16) }
    ensures { result ≡ placed_of b.now k }
{
    let sorted = Sorted {
        block: b,
        samples: s,
    };
    sorted.placed(k)
}

pub fn place_of(b: &[f32; 16], x: f32) -> u32
    ensures { result ≡ place_of b.now x }
{
    not_above(b, x).saturating_sub(1)
}
