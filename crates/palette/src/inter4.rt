// Inter4Palette.
ghost use Rattle.std.specs.Prelude.{◌≡◌, ◌<◌};
ghost use Rattle.palette.specs.declared.Kind.TheVariants.{Four};
ghost use Rattle.palette.specs.Palettes.{entry, colors as colors_of};
ghost use Rattle.palette.specs.Closest.{default_of, nearer_of, nearest_to, closest4};

use crate::{Closest, Indexed, Palette};

#[derive(Clone, Copy)]
pub struct Inter4Palette {
    pub colors: [f32; 8],
}

// The nearest so far.
#[derive(Clone, Copy)]
pub struct Nearest {
    pub index: u32,
    pub error: f32,
}

impl Nearest {
    // This handles the case where pixel is 0 or 1.
    #[tactic(auto, unfolding(crate::specs::Closest::default_of))]
    fn default(pixel: f32) -> Self
        ensures { result ≡ default_of pixel }
    {
        Self {
            index: floats::pick(pixel >= 0.5, 7, 6),
            error: floats::pick(pixel >= 0.5, 1.0 - pixel, pixel),
        }
    }

    #[tactic(auto, unfolding(crate::specs::Closest::nearer_of), using(crate::proofs::ClosestLaws::nearest_fields))]
    fn or(self, k: u32, color: f32, pixel: f32) -> Self
        ensures { result ≡ nearer_of self k color pixel }
    {
        let error = floats::abs(pixel - color);
        let nearer = error < self.error;
        Self {
            index: floats::pick(nearer, k, self.index),
            error: floats::pick(nearer, error, self.error),
        }
    }
}

impl Inter4Palette {
    #[tactic(auto, unfolding(crate::specs::Palettes::colors))]
    pub fn new(c0: f32, c1: f32) -> Self
        ensures { result.colors ≡ colors_of c0 c1 }
    {
        Self {
            colors: [
                c0,
                c1,
                c0 * 0.8 + c1 * 0.2,
                c0 * 0.6 + c1 * 0.4,
                c0 * 0.4 + c1 * 0.6,
                c0 * 0.2 + c1 * 0.8,
                0.0,
                1.0,
            ],
        }
    }

    #[tactic(auto, unfolding(crate::specs::Closest::nearest_to))]
    fn nearest(self, pixel: f32) -> Nearest
        ensures { result ≡ nearest_to self.colors pixel 6 }
    {
        let c = self.colors;
        Nearest::default(pixel)
            .or(0, c[0], pixel)
            .or(1, c[1], pixel)
            .or(2, c[2], pixel)
            .or(3, c[3], pixel)
            .or(4, c[4], pixel)
            .or(5, c[5], pixel)
    }
}

impl Palette for Inter4Palette {
    ghost kind = { Four };

    ghost rule = { λ p. closest4 p.colors };

    fn from_ends(c0: f32, c1: f32) -> Self {
        Self::new(c0, c1)
    }

    #[tactic(auto, unfolding(crate::specs::Closest::closest4), using(crate::proofs::ClosestLaws::nearest6_lt))]
    fn closest(self, pixel: f32) -> Closest {
        let n = self.nearest(pixel);
        let c = self.colors;
        let index = n.index;
        let at = index as usize;
        Closest {
            index: index as u8,
            value: c[at],
            error: n.error,
        }
    }

    // Two arrays: one of `Nearest` was tried, and takes 10 instructions more a block, and 6 % more by `map`.
    fn block_closest(self, b: &[f32; 16]) -> Indexed {
        let mut chosen = [0u32; 16];
        let mut errors = [0.0f32; 16];
        for i in 0..16usize {
            let n = self.nearest(b[i]);
            chosen[i] = n.index;
            errors[i] = n.error;
        }
        Indexed {
            indexes: crate::indexes(&chosen),
            error: block::sum_of_squares(&errors),
        }
    }

    // 0 and 1 first.
    #[tactic(auto, unfolding(crate::specs::Palettes::values_of, crate::specs::Palettes::values4, crate::specs::Palettes::colors))]
    fn values(c0: f32, c1: f32) -> [f32; 8] {
        let c = Self::new(c0, c1).colors;
        [0.0, 1.0, c[0], c[1], c[2], c[3], c[4], c[5]]
    }
}
