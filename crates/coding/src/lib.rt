// What both compressions end with: palette, indexes, bytes.
#![tactic(auto)]

ghost use Rattle.std.specs.Prelude.{◌≡◌};
ghost use Rattle.coding.specs.Coding.{smaller as smaller_of, laid_out, ended as ended_of};

use end_points::EndPoints;
use palette::{Indexed, Palette};

// The eight bytes as one number, byte 0 lowest, and the total error.
#[derive(Clone, Copy)]
pub struct Coded {
    pub bytes: u64,
    pub error: f32,
}

pub fn smaller(best: Coded, next: Coded) -> Coded
    ensures { result ≡ smaller_of best next }
{
    floats::pick(next.error < best.error, next, best)
}

fn laid_out(e: EndPoints, x: Indexed) -> Coded
    ensures { result ≡ laid_out e x }
{
    let list = x.indexes;
    Coded {
        bytes: e.with_indexes(list),
        error: x.error,
    }
}

#[tactic(auto, unfolding(crate::specs::Coding::ended))]
pub fn ended<P: Palette>(b: &[f32; 16], dither: bool, e: EndPoints) -> Coded
    ensures { result ≡ ended_of P.kind b.now dither e }
{
    if dither {
        return laid_out(e, bcn_util::dither::dither::<P>(b, e.c0_f, e.c1_f));
    }
    laid_out(e, P::from_ends(e.c0_f, e.c1_f).block_closest(b))
}
