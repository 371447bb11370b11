// block_dither.
ghost use Rattle.std.specs.Prelude.{◌≡◌, true, ◌+◌, ◌*◌, ◌<◌, get_or};
ghost use Rattle.std.specs.Float.{nan};
ghost use Rattle.floats.specs.Arithmetic.{◌⊕◌, ◌⊗◌};
ghost use Rattle.block.specs.Samples.{pixel_at};
ghost use Rattle.palette.specs.Closest.{closest_of};
ghost use Rattle.bcn_util.specs.Diffusion.{weights, given, diffused};
ghost use Rattle.bcn_util.specs.Dither.{block_dither};

use index_list::IndexList;
use palette::{Indexed, Palette};

// In sixteenths, a row for each column and one for the last row: right, next left, next middle, next right.
pub const WEIGHTS: [f32; 20] = [
    7.0 / 16.0,
    0.0,
    6.0 / 16.0,
    2.0 / 16.0,
    7.0 / 16.0,
    3.0 / 16.0,
    5.0 / 16.0,
    1.0 / 16.0,
    7.0 / 16.0,
    3.0 / 16.0,
    5.0 / 16.0,
    1.0 / 16.0,
    0.0,
    5.0 / 16.0,
    7.0 / 16.0,
    0.0,
    8.0 / 16.0,
    0.0,
    0.0,
    0.0,
];

// The same for loops: a constant array that is read in one is built anew at each turn.
static TABLE: [f32; 20] = WEIGHTS;

// Where the block has no pixel i + n nothing is given.
fn give(there: bool, m: &mut [f32; 16], i: usize, n: usize, v: f32)
    requires { there ≡ true → i + n < 16 }
    ensures { m.new ≡ given there m.old (i + n) v }
{
    if there {
        let j = i + n;
        m[j] = m[j] + v;
    }
}

// The part of an error by row and column of the table.
#[tactic(auto, unfolding(crate::specs::Diffusion::weights))]
fn part(row: usize, k: usize, error: f32) -> f32
    requires { (row < 5) × (k < 4) }
    ensures { result ≡ error ⊗ get_or weights (4 * row + k) nan }
{
    error * TABLE[4 * row + k]
}

// The error map after pixel i was off by `error`.
pub fn diffuse(m: &mut [f32; 16], i: usize, error: f32)
    requires { i < 16 }
    ensures { m.new ≡ diffused m.old i error }
{
    let x = i % 4;
    if i < 12 {
        give(x < 3, m, i, 1, part(x, 0, error));
        give(0 < x, m, i, 3, part(x, 1, error));
        give(true, m, i, 4, part(x, 2, error));
        give(x < 3, m, i, 5, part(x, 3, error));
        return;
    }
    give(x < 3, m, i, 1, part(4, 0, error));
}

// The sample that a palette is asked about for pixel i.
fn asked(b: &[f32; 16], map: &[f32; 16], i: usize) -> f32
    requires { i < 16 }
    ensures { result ≡ pixel_at b.now i ⊕ pixel_at map.now i }
{
    b[i] + map[i]
}

pub fn dither<P: Palette>(b: &[f32; 16], c0: f32, c1: f32) -> Indexed
    ensures { result ≡ block_dither (closest_of P.kind c0 c1) b.now }
{
    let palette = P::from_ends(c0, c1);
    let mut map = [0.0f32; 16];
    let mut indexes = IndexList::new_empty();
    let mut error = 0.0f32;
    // By place: what is left of an error goes to the places after it.
    for i in 0..16usize {
        let pixel = asked(b, &map, i);
        let c = palette.closest(pixel);
        indexes = indexes.set(i, c.index);
        let off = pixel - c.value;
        // The answer's error but for its sign, which a square does not show.
        error = error + off * off;
        diffuse(&mut map, i, off);
    }
    Indexed { indexes, error }
}
