// What the Rust does by methods of f32 and of glam's Vec4, one lane at a time.
#![tactic(auto)]

ghost use Rattle.std.specs.Prelude.{◌≡◌, ◌≤◌, true, if◌then◌else◌};
ghost use Rattle.std.specs.Float.Ieee.{le, lt, to_unsigned};
ghost use Rattle.floats.specs.Arithmetic.{f0, f2^23, whole};
ghost use Rattle.floats.specs.Helpers.{abs_of, min_of, max_of, lane_min, lane_max, clamp_of, entry_clamp, trunc_of, byte_of, byte_up_to7};

// The Rust's (f32, f32).
#[derive(Clone, Copy)]
pub struct Pair(pub f32, pub f32);

// a where t holds, and b elsewhere: the one branch between two values, which compiles to a select.
pub fn pick<T: Copy>(t: bool, a: T, b: T) -> T
    ensures { result ≡ (if t then a else b) }
{
    if t { a } else { b }
}

// The larger of x and 0 - x, which is +0 for both zeros. std's `abs` branches, where four of these are one vector: measured, sixteen take 31 jumps.
#[tactic(auto, using(crate::proofs::Distances::abs_is))]
pub fn abs(x: f32) -> f32
    ensures { result ≡ abs_of x }
{
    lane_max(x, 0.0 - x)
}

// std's `min` and `max` leave open which of two zeros of different sign is the answer.
pub fn min(a: f32, b: f32) -> f32
    ensures { result ≡ min_of a b }
{
    pick((b < a) | (a != a), b, a)
}

pub fn max(a: f32, b: f32) -> f32
    ensures { result ≡ max_of a b }
{
    pick((a < b) | (a != a), b, a)
}

pub fn lane_min(a: f32, b: f32) -> f32
    ensures { result ≡ lane_min a b }
{
    pick(a < b, a, b)
}

pub fn lane_max(a: f32, b: f32) -> f32
    ensures { result ≡ lane_max a b }
{
    pick(a > b, a, b)
}

// f32::clamp(0.0, 1.0).
pub fn clamp(x: f32) -> f32
    ensures { result ≡ clamp_of x }
{
    x.clamp(0.0, 1.0)
}

pub fn entry_clamp(x: f32) -> f32
    ensures { result ≡ entry_clamp x }
{
    lane_min(lane_max(x, 0.0), 1.0)
}

// The whole part of a y from 0 up to 2^23, with no cast: a sum with 2^23 has no place left for a fraction, so what is then taken away leaves
// the whole number below y or the one above.
#[tactic(auto, using(crate::proofs::NearWhole::whole_part_is))]
fn whole_part(y: f32) -> f32
    ensures { le f0 y ≡ true → lt y f2^23 ≡ true → result ≡ whole (to_unsigned 64 y) }
{
    let near = (y + 8388608.0) - 8388608.0;
    near - pick(y < near, 1.0, 0.0)
}

// From 2^23 on every f32 is whole, and so is a zero, which keeps its sign. std's `trunc` branches on its bits: measured, the six-value weights take four
// times as long (docs/SPEED.md).
#[tactic(auto, using(crate::proofs::WholePart::trunc_is))]
pub fn trunc(x: f32) -> f32
    ensures { result ≡ trunc_of x }
{
    let cut = pick(x < 0.0, -whole_part(-x), whole_part(x));
    pick((x != 0.0) & (-8388608.0 < x) & (x < 8388608.0), cut, x)
}

// Rust's `x as u8`. What is out of range is told by a test: std's cast goes its whole way for it too.
#[tactic(auto, using(crate::proofs::Casts::byte_full, crate::proofs::Casts::byte_empty))]
pub fn byte_of(x: f32) -> u8
    ensures { result ≡ byte_of x }
{
    if x >= 255.0 {
        return 255;
    }
    if x >= 1.0 {
        return std::num::saturating_f32_to_u8(x);
    }
    0
}

// A count of one, for a sum of tests.
pub fn one_if(t: bool) -> u32
    ensures { (result ≡ (if t then 1 else 0)) × (result ≤ 1) }
{
    u32::from(t)
}

// `(x as u8).min(7)` as an f32.
#[tactic(auto, using(crate::proofs::Casts::kept_is))]
pub fn up_to_7(x: f32) -> f32
    ensures { result ≡ whole (byte_up_to7 x) }
{
    whole_part(lane_min(lane_max(x, 0.0), 7.0))
}

// By way of i32: x86-64 casts four floats to signed integers at once, to unsigned ones not.
#[tactic(auto, using(crate::proofs::Casts::up_to_7_le, crate::proofs::Casts::up_to_7_back, crate::proofs::Casts::up_to_7_read))]
pub fn byte_up_to_7(x: f32) -> u32
    ensures { result ≡ byte_up_to7 x }
{
    let k = up_to_7(x) as i32;
    k as u32
}
