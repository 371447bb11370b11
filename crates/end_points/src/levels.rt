// What the Rust has three times over, in quantize and in both halves of new_inter6: two floats to two different levels.
ghost use Rattle.std.specs.Prelude.{◌≡◌, ◌≤◌};
ghost use Rattle.values.specs.Values.{steps};
ghost use Rattle.end_points.specs.Levels as L;

#[derive(Clone, Copy)]
pub struct Levels {
    pub low: u8,
    pub high: u8,
}

fn scale(snorm: bool) -> f32
    ensures { result ≡ L.scale snorm }
{
    floats::pick(snorm, 254.0, 255.0)
}

pub fn nearest_level(x: f32, snorm: bool) -> u8
    ensures { result ≡ L.nearest_level x snorm }
{
    floats::byte_of(scale(snorm) * x + 0.5)
}

fn rounded_down(x: f32, snorm: bool) -> u8
    ensures { result ≡ L.rounded_down x snorm }
{
    floats::byte_of(scale(snorm) * x)
}

// Signed values come clamped, so that the distance from the top is 254 at most.
fn rounded_up(x: f32, snorm: bool) -> u8
    requires { L.down_from_top snorm x ≤ steps snorm }
    ensures { result ≡ L.rounded_up x snorm }
{
    values::steps(snorm) - floats::byte_of(scale(snorm) * (1.0 - x))
}

#[tactic(auto, unfolding(crate::specs::Levels::apart))]
fn apart(low: u8, high: u8) -> Levels
    ensures { result ≡ L.apart low high }
{
    if low == high {
        if low == 0 {
            return Levels { low, high: 1 };
        }
        return Levels { low: low - 1, high };
    }
    Levels { low, high }
}

// The caller's signed ends are clamped, or a NaN.
#[tactic(auto, using(crate::proofs::Ordered::between_same, crate::proofs::Ordered::between_other))]
fn between(min: f32, max: f32, snorm: bool) -> Levels
    requires { L.down_from_top snorm max ≤ steps snorm }
    ensures { result ≡ L.levels_between min max snorm }
{
    let low = nearest_level(min, snorm);
    let high = nearest_level(max, snorm);
    if low == high {
        return apart(rounded_down(min, snorm), rounded_up(max, snorm));
    }
    Levels { low, high }
}

fn in_format(x: f32, snorm: bool) -> f32
    ensures { result ≡ L.in_format x snorm }
{
    floats::pick(snorm, floats::clamp(x), x)
}

pub fn of_ends(e0: f32, e1: f32, snorm: bool) -> Levels
    ensures { result ≡ L.levels_of e0 e1 snorm }
{
    let min = in_format(floats::min(e0, e1), snorm);
    let max = in_format(floats::max(e0, e1), snorm);
    between(min, max, snorm)
}
