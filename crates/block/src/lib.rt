// bc4.rs: Block. The Rust's four Vec4 are sixteen floats here, pixel i in lane i % 4: a loop over them vectorises.
#![tactic(auto)]

ghost use Rattle.std.specs.Prelude.{◌≡◌, ◌<◌, Float};
ghost use Rattle.floats.specs.declared.Pair.{Pair};
ghost use Rattle.floats.specs.Arithmetic.{◌⊕◌, squared, f0, f1};
ghost use Rattle.block.specs.Samples.{pixel_at};
ghost use Rattle.block.specs.Orders.{down_lane, down_from, below_first, lane_sum, sum_in_order, sum_in_pairs, row_dot, sum_of_squares};
ghost use Rattle.block.specs.Block.{entered, min_max, min_max_with_threshold, mean as mean_of, spanned as spanned_of, alone as alone_of, counted as counted_of};

use floats::Pair;

pub fn from_raw(samples: &[f32; 16]) -> [f32; 16]
    ensures { result ≡ entered samples.now }
{
    std::array::from_fn(|i| floats::entry_clamp(samples[i]))
}

// ---- smallest and largest, as a pair; two pairs are spanned by one

// The largest first: in the other order the compiler takes the two for a vector, and the scan with a threshold gets longer.
fn spanned(a: Pair, b: Pair) -> Pair
    ensures { result ≡ spanned_of a b }
{
    let largest = floats::lane_max(a.1, b.1);
    Pair(floats::lane_min(a.0, b.0), largest)
}

fn alone(x: f32) -> Pair
    ensures { result ≡ alone_of x }
{
    Pair(x, x)
}

fn across(x: Pair, y: Pair, z: Pair, w: Pair) -> Pair
    ensures { result ≡ spanned_of x (spanned_of y (spanned_of z w)) }
{
    spanned(x, spanned(y, spanned(z, w)))
}

// From what stands in lane j's first row down its three others, each sample taken for what it counts as.
fn down<F: Fn(f32) -> Pair>(first: Pair, b: &[f32; 16], j: usize, counts: F) -> Pair
    requires inside { j < 4 }
    requires callable { F.IsAlwaysCallable counts }
    ensures { (g : Float → Pair) → ((x : Float) (r : Pair) → F.post counts x r → r ≡ g x) → result ≡ below_first spanned_of first (λ i. g (pixel_at b.now i)) j }
{
    spanned(
        spanned(spanned(first, counts(b[j + 4])), counts(b[j + 8])),
        counts(b[j + 12]),
    )
}

fn lane(b: &[f32; 16], j: usize) -> Pair
    requires { j < 4 }
    ensures { result ≡ down_lane spanned_of (λ i. alone_of (pixel_at b.now i)) j }
{
    down(alone(b[j]), b, j, |x| alone(x))
}

pub fn min_max(b: &[f32; 16]) -> Pair
    ensures { result ≡ min_max b.now }
{
    across(lane(b, 0), lane(b, 1), lane(b, 2), lane(b, 3))
}

// ---- with a threshold

fn counted(threshold: f32, x: f32) -> Pair
    ensures { result ≡ counted_of threshold x }
{
    Pair(
        floats::pick(x >= threshold, x, 1.0),
        floats::pick(x <= 1.0 - threshold, x, 0.0),
    )
}

fn lane_within(b: &[f32; 16], threshold: f32, j: usize) -> Pair
    requires { j < 4 }
    ensures { result ≡ down_from spanned_of (record { 0 = f1; 1 = f0 }) (λ i. counted_of threshold (pixel_at b.now i)) j }
{
    let first = spanned(Pair(1.0, 0.0), counted(threshold, b[j]));
    down(first, b, j, |x| counted(threshold, x))
}

// Of the values in [threshold, 1 - threshold].
pub fn min_max_with_threshold(b: &[f32; 16], threshold: f32) -> Pair
    ensures { result ≡ min_max_with_threshold b.now threshold }
{
    across(
        lane_within(b, threshold, 0),
        lane_within(b, threshold, 1),
        lane_within(b, threshold, 2),
        lane_within(b, threshold, 3),
    )
}

// ---- sums

fn lane_sum(e: &[f32; 16], j: usize) -> f32
    requires { j < 4 }
    ensures { result ≡ lane_sum e.now j }
{
    e[j] + e[j + 4] + e[j + 8] + e[j + 12]
}

pub fn sum_in_order(e: &[f32; 16]) -> f32
    ensures { result ≡ sum_in_order e.now }
{
    lane_sum(e, 0) + lane_sum(e, 1) + lane_sum(e, 2) + lane_sum(e, 3)
}

pub fn sum_in_pairs(e: &[f32; 16]) -> f32
    ensures { result ≡ sum_in_pairs e.now }
{
    (lane_sum(e, 0) + lane_sum(e, 1)) + (lane_sum(e, 2) + lane_sum(e, 3))
}

fn four_squares(x: f32, y: f32, z: f32, w: f32) -> f32
    ensures { result ≡ squared x ⊕ squared y ⊕ squared z ⊕ squared w }
{
    x * x + y * y + z * z + w * w
}

fn row_dot(e: &[f32; 16], i: usize) -> f32
    requires { i < 4 }
    ensures { result ≡ row_dot e.now i }
{
    four_squares(e[4 * i], e[4 * i + 1], e[4 * i + 2], e[4 * i + 3])
}

pub fn sum_of_squares(e: &[f32; 16]) -> f32
    ensures { result ≡ sum_of_squares e.now }
{
    0.0 + row_dot(e, 0) + row_dot(e, 1) + row_dot(e, 2) + row_dot(e, 3)
}

pub fn mean(b: &[f32; 16]) -> f32
    ensures { result ≡ mean_of b.now }
{
    sum_in_pairs(b) * 0.0625
}
