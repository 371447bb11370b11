// A sort of sixteen floats by 63 steps that are the same for every block. An exchange is two selects and no branch.
ghost use Rattle.std.specs.Prelude.{◌≡◌, ℕ, ◌≤◌, ◌<◌, T};
ghost use Rattle.std.specs.Float.{binary32};
ghost use Rattle.std.specs.Float.Ieee.{fits};
ghost use Rattle.floats.specs.Arithmetic.{f2};
ghost use Rattle.floats.specs.Helpers.{lane_min as lane_min_of};
ghost use Rattle.block.specs.Samples.{pixel_at};
ghost use Rattle.compress.specs.Network.{smaller_first, stepped, run, pass as pass_of, capped as capped_of, InOrder};

// With no test for a NaN: `capped` leaves none.
#[tactic(auto, unfolding(crate::specs::Network::stepped))]
fn exchange(s: &mut [f32; 16], i: usize, j: usize)
    requires { (i < 16) × (j < 16) }
    ensures { s.new ≡ stepped smaller_first s.old (record { i = i; j = j }) }
{
    let a = s[i];
    let b = s[j];
    let later = b < a;
    s[i] = floats::pick(later, b, a);
    s[j] = floats::pick(later, a, b);
}

// The test is on places alone: with p, r and d given, the compiler lays the steps out one after the other.
fn pass(s: &mut [f32; 16], p: usize, r: usize, d: usize)
    requires { (0 < p) × (d ≤ 16) }
    ensures { s.new ≡ run smaller_first (pass_of p r d) s.old }
{
    for i in 0..16 - d {
        if i / p % 2 == r {
            exchange(s, i, i + d);
        }
    }
}

// At 2, and not at the 1 that a place is held to: the entry's own cap at 1 makes a second one nothing to the compiler, which then lays some exchanges out
// as branches (docs/SPEED.md).
fn capped(b: &[f32; 16]) -> [f32; 16]
    ensures value { result ≡ capped_of b.now }
    ensures fit { (i : ℕ) → i < 16 → T (fits binary32 (pixel_at result i)) }
{
    std::array::from_fn(
        |i| -> f32
            requires { i < 16 }
            ensures { (result ≡ lane_min_of (pixel_at b.entry.now i) f2) × T (fits binary32 result) }
        { floats::lane_min(b[i], 2.0) },
    )
}

pub fn sorted(b: &[f32; 16]) -> [f32; 16]
    ensures { InOrder b.now result }
{
    let mut s = capped(b);
    // A `for` over a table of these is not laid out: with it the four-value walk takes 2 % more instructions.
    pass(&mut s, 8, 0, 8);
    pass(&mut s, 4, 0, 4);
    pass(&mut s, 4, 1, 4);
    pass(&mut s, 2, 0, 2);
    pass(&mut s, 2, 1, 6);
    pass(&mut s, 2, 1, 2);
    pass(&mut s, 1, 0, 1);
    pass(&mut s, 1, 1, 7);
    pass(&mut s, 1, 1, 3);
    pass(&mut s, 1, 1, 1);
    s
}
