// bc4.rs: EndPoints.
#![tactic(auto)]

ghost use Rattle.std.specs.Prelude.{◌≡◌, true, false};
ghost use Rattle.std.specs.Float.Ieee.{le};
ghost use Rattle.floats.specs.Arithmetic.{f0, f1};
ghost use Rattle.index_list.specs.Layout.{packed};
ghost use Rattle.end_points.specs.EndPoints.{of_bytes, closest, quantized, swapped as swapped_of, inter6, exchanged, inter4};

pub mod levels;

use floats::Pair;
use index_list::IndexList;

#[derive(Clone, Copy)]
pub struct EndPoints {
    pub c0: u8,
    pub c1: u8,
    pub c0_f: f32,
    pub c1_f: f32,
}

impl EndPoints {
    // Two bytes, with the floats of the bytes.
    #[tactic(auto, unfolding(crate::specs::EndPoints::of_bytes))]
    fn of_bytes(c0: u8, c1: u8, snorm: bool) -> Self
        ensures { result ≡ of_bytes c0 c1 snorm }
    {
        Self {
            c0,
            c1,
            c0_f: values::value(c0, snorm),
            c1_f: values::value(c1, snorm),
        }
    }

    // c0 is the byte closest to the value, and c1 means 0. NOT guaranteed to be in six-value mode.
    // The value is the middle of a block's smallest and largest sample, which entry clamped to 0..1; the Rust leaves it unclamped
    // here, and above 1 its signed level would run past 254.
    pub fn new_closest(value: f32, snorm: bool) -> Self
        requires { (le f0 value ≡ true) × (le value f1 ≡ true) }
        ensures { result ≡ closest value snorm }
    {
        let level = levels::nearest_level(value, snorm);
        Self::of_bytes(
            values::level_byte(level, snorm),
            values::level_byte(0, snorm),
            snorm,
        )
    }

    // The larger first.
    #[tactic(auto, unfolding(crate::specs::EndPoints::quantized))]
    pub fn quantize(e0: f32, e1: f32, snorm: bool) -> Pair
        ensures { result ≡ quantized e0 e1 snorm }
    {
        let l = levels::of_ends(e0, e1, snorm);
        Pair(
            values::level_value(l.high, snorm),
            values::level_value(l.low, snorm),
        )
    }

    // The Rust's `swap` where the signed bytes are not in order.
    #[tactic(auto, unfolding(crate::specs::EndPoints::swapped))]
    fn swapped(c0: u8, c1: u8, snorm: bool) -> Self
        ensures { result ≡ swapped_of c0 c1 snorm }
    {
        if snorm & !values::byte_below(c1, c0, snorm) {
            return Self::of_bytes(c1, c0, snorm);
        }
        Self::of_bytes(c0, c1, snorm)
    }

    // For the six-value mode, c0 above c1.
    #[tactic(auto, using(crate::proofs::Ordered::levels_distinct, crate::proofs::Ordered::low_le), unfolding(crate::specs::EndPoints::inter6))]
    pub fn new_inter6(e0: f32, e1: f32, snorm: bool) -> Self
        ensures { result ≡ inter6 e0 e1 snorm }
    {
        let l = levels::of_ends(e0, e1, snorm);
        Self::swapped(
            values::level_byte(l.high, snorm),
            values::level_byte(l.low, snorm),
            snorm,
        )
    }

    #[tactic(auto, unfolding(crate::specs::EndPoints::inter4))]
    pub fn new_inter4(e0: f32, e1: f32, snorm: bool) -> Self
        ensures { result ≡ inter4 e0 e1 snorm }
    {
        Self::new_inter6(e0, e1, snorm).inter6_to_inter4()
    }

    pub fn new_inter6_unorm(c0: u8, c1: u8) -> Self
        ensures { result ≡ of_bytes c0 c1 false }
    {
        Self::of_bytes(c0, c1, false)
    }

    #[tactic(auto, unfolding(crate::specs::EndPoints::exchanged))]
    pub fn inter6_to_inter4(self) -> Self
        ensures { result ≡ exchanged self }
    {
        Self {
            c0: self.c1,
            c1: self.c0,
            c0_f: self.c1_f,
            c1_f: self.c0_f,
        }
    }

    // The block's eight bytes as one number, byte 0 lowest.
    pub fn with_indexes(self, indexes: IndexList) -> u64
        ensures { result ≡ packed self.c0 self.c1 indexes.data }
    {
        index_list::packed(self.c0, self.c1, indexes)
    }
}
