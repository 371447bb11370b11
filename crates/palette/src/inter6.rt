// Inter6Palette.
ghost use Rattle.std.specs.Prelude.{◌≡◌, ◌≤◌, ◌<◌, get_or};
ghost use Rattle.palette.specs.declared.Kind.TheVariants.{Six};
ghost use Rattle.palette.specs.Palettes.{inter6_palette, index_map, blended as blended_of};
ghost use Rattle.palette.specs.Closest.{blend as blend_of, blend7 as blend7_of, closest6, weight, weights};
ghost use Rattle.palette.specs.Rows.{index6, off6, row_code, row_sum, of_row, cut_weight};

use crate::{Closest, Indexed, Palette};

// FACTORS
const F1: f32 = 1.0 / 7.0;

const F2: f32 = 2.0 / 7.0;

const F3: f32 = 3.0 / 7.0;

const F4: f32 = 4.0 / 7.0;

const F5: f32 = 5.0 / 7.0;

const F6: f32 = 6.0 / 7.0;

// INDEX_MAP for loops: a constant array that is read in one is built anew at each turn.
static MAP: [u8; 8] = Inter6Palette::INDEX_MAP;

// The weight of a blend above -1, by the cut of `closest`.
pub fn cut_weight(blend: f32) -> f32
    ensures { result ≡ cut_weight blend }
{
    1.0 - floats::up_to_7(blend) * F1
}

// INDEX_MAP by arithmetic, which a loop does for four pixels at once.
fn index_of(k: u32) -> u32
    requires { k ≤ 7 }
    ensures { result ≡ get_or index_map k 0 }
{
    let m = (8 - k) % 8;
    m + floats::one_if(m == 0) - floats::one_if(m == 1)
}

// The index of a pixel, and its error with the sign: it is only squared.
#[derive(Clone, Copy)]
pub struct Match {
    pub index: u32,
    pub off: f32,
}

// Four indexes, and the sum of four squares.
#[derive(Clone, Copy)]
pub struct Row {
    pub code: u32,
    pub sum: f32,
}

#[derive(Clone, Copy)]
pub struct Inter6Palette {
    pub c0: f32,
    pub c1: f32,
    pub factor1: f32,
    pub factor2: f32,
    pub add1: f32,
}

impl Inter6Palette {
    pub const INDEX_MAP: [u8; 8] = [1, 7, 6, 5, 4, 3, 2, 0];

    #[tactic(auto, unfolding(crate::specs::Palettes::inter6_palette))]
    pub fn new(c0: f32, c1: f32) -> Self
        ensures { result ≡ inter6_palette c0 c1 }
    {
        let factor1 = 7.0 / (c0 - c1);
        let factor2 = F1 * (c0 - c1);
        let add1 = 0.5 - c1 * factor1;
        Self {
            c0,
            c1,
            factor1,
            factor2,
            add1,
        }
    }

    // How many sevenths towards c0, before it is cut to a whole number.
    pub fn blend(self, pixel: f32) -> f32
        ensures { result ≡ blend_of self pixel }
    {
        pixel * self.factor1 + self.add1
    }

    fn blend7(self, pixel: f32) -> u32
        ensures { (result ≡ blend7_of self pixel) × (result ≤ 7) }
    {
        floats::byte_up_to_7(self.blend(pixel))
    }

    // k counts sevenths: 8 less the index that a decoder reads.
    #[tactic(auto, unfolding(crate::specs::Palettes::blended))]
    pub fn blended(self, k: u32) -> f32
        requires { k ≤ 7 }
        ensures { result ≡ blended_of self k }
    {
        (k as f32) * self.factor2 + self.c1
    }

    // The value of a blend7, with no way over the integer.
    #[tactic(auto, unfolding(crate::specs::Palettes::blended))]
    fn value(self, pixel: f32) -> f32
        ensures { result ≡ blended_of self (blend7_of self pixel) }
    {
        floats::up_to_7(self.blend(pixel)) * self.factor2 + self.c1
    }

    #[tactic(auto, unfolding(crate::specs::Closest::weight))]
    pub fn closest_weight(self, pixel: f32) -> f32
        ensures { result ≡ weight self pixel }
    {
        let blend = floats::lane_min(self.blend(pixel), 7.0);
        1.0 - floats::trunc(blend) * F1
    }

    pub fn block_closest_weights(self, b: &[f32; 16]) -> [f32; 16]
        ensures { result ≡ weights self b.now }
    {
        std::array::from_fn(|i| self.closest_weight(b[i]))
    }

    fn matched(self, pixel: f32) -> Match
        ensures { (result.index ≡ index6 self pixel) × (result.index < 8) × (result.off ≡ off6 self pixel) }
    {
        Match {
            index: index_of(self.blend7(pixel)),
            off: pixel - self.value(pixel),
        }
    }

    #[tactic(auto, unfolding(crate::specs::Rows::row_code, crate::specs::Rows::row_sum))]
    fn four(self, x: f32, y: f32, z: f32, w: f32) -> Row
        ensures { (result.code ≡ row_code self x y z w) × (result.code < 4096) × (result.sum ≡ row_sum self x y z w) }
    {
        let mx = self.matched(x);
        let my = self.matched(y);
        let mz = self.matched(z);
        let mw = self.matched(w);
        Row {
            code: crate::four(mx.index, my.index, mz.index, mw.index),
            sum: mx.off * mx.off + my.off * my.off + mz.off * mz.off + mw.off * mw.off,
        }
    }

    fn row(self, b: &[f32; 16], i: usize) -> Row
        requires { i < 4 }
        ensures { (result.code ≡ of_row (row_code self) b.now i) × (result.code < 4096) × (result.sum ≡ of_row (row_sum self) b.now i) }
    {
        self.four(b[4 * i], b[4 * i + 1], b[4 * i + 2], b[4 * i + 3])
    }
}

impl Palette for Inter6Palette {
    ghost kind = { Six };

    ghost rule = { closest6 };

    fn from_ends(c0: f32, c1: f32) -> Self {
        Self::new(c0, c1)
    }

    #[tactic(auto, unfolding(crate::specs::Closest::closest6))]
    fn closest(self, pixel: f32) -> Closest {
        let k = self.blend7(pixel);
        let value = self.value(pixel);
        Closest {
            index: MAP[k as usize],
            value,
            error: floats::abs(pixel - value),
        }
    }

    // Row by row, as the squares are summed: four rows at once need no exchange of lanes. Two arrays: with one of rows, made by `from_fn`, a block takes 86 instructions
    // more, 3 %.
    fn block_closest(self, b: &[f32; 16]) -> Indexed {
        let mut codes = [0u32; 4];
        let mut sums = [0.0f32; 4];
        for i in 0..4usize {
            let r = self.row(b, i);
            codes[i] = r.code;
            sums[i] = r.sum;
        }
        Indexed {
            indexes: crate::of_rows(codes[0], codes[1], codes[2], codes[3]),
            error: 0.0 + sums[0] + sums[1] + sums[2] + sums[3],
        }
    }

    // From c0 to c1.
    #[tactic(auto, unfolding(crate::specs::Palettes::values_of, crate::specs::Palettes::values6))]
    fn values(c0: f32, c1: f32) -> [f32; 8] {
        let cd = c1 - c0;
        [
            c0,
            c0 + cd * F1,
            c0 + cd * F2,
            c0 + cd * F3,
            c0 + cd * F4,
            c0 + cd * F5,
            c0 + cd * F6,
            c0 + cd * 1.0,
        ]
    }
}
