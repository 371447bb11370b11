// single_color.
#![tactic(auto)]

ghost use Rattle.std.specs.Prelude.{◌≡◌, true, ◌<◌};
ghost use Rattle.std.specs.Float.Ieee.{le};
ghost use Rattle.floats.specs.Arithmetic.{f0, f1};
ghost use Rattle.coding.specs.Coding.{rule_of};
ghost use Rattle.single.specs.Single.{uniform as uniform_of, nearer_palette, single_color};

use coding::Coded;
use end_points::EndPoints;
use index_list::IndexList;
use palette::Palette;
use palette::inter4::Inter4Palette;
use palette::inter6::Inter6Palette;

pub const BC4_EPSILON: f32 = 1.0 / 65536.0;

// Callers hand on 0 or an index that a palette's `closest` answered.
fn uniform(e: EndPoints, k: u8) -> u64
    requires { k < 8 }
    ensures { result ≡ uniform_of e k }
{
    e.with_indexes(IndexList::new_all(k))
}

// The index of the palette's value that is nearest, and how far that is.
fn around<P: Palette>(value: f32, e: EndPoints) -> Coded
    ensures { result ≡ record { bytes = uniform_of e (rule_of P.kind e value).index; error = (rule_of P.kind e value).error } }
{
    let nearest = P::from_ends(e.c0_f, e.c1_f).closest(value);
    Coded {
        bytes: uniform(e, nearest.index),
        error: nearest.error,
    }
}

// The more exact of the two palettes.
#[tactic(auto, unfolding(crate::specs::Single::around))]
fn nearer_palette(value: f32, snorm: bool) -> u64
    ensures { result ≡ nearer_palette value snorm }
{
    let six = around::<Inter6Palette>(value, EndPoints::new_inter6(value, value, snorm));
    let four = around::<Inter4Palette>(value, EndPoints::new_inter4(value, value, snorm));
    coding::smaller(six, four).bytes
}

// The value is the middle of two samples, which entry clamped.
#[tactic(auto, unfolding(crate::specs::Single::single_color, block::specs::Samples::tabulate))]
pub fn single_color(value: f32, snorm: bool, dither: bool) -> u64
    requires { (le f0 value ≡ true) × (le value f1 ≡ true) }
    ensures { result ≡ single_color value snorm dither }
{
    let closest = EndPoints::new_closest(value, snorm);
    if floats::abs(closest.c0_f - value) < BC4_EPSILON {
        return uniform(closest, 0);
    }
    if dither {
        let e = EndPoints::new_inter6(value, value, snorm);
        return coding::ended::<Inter6Palette>(&[value; 16], true, e).bytes;
    }
    nearer_palette(value, snorm)
}
