ghost use Rattle.std.specs.Prelude.{◌≡◌, false};
ghost use Rattle.values.specs.Values.{value_of};

const K0: f32 = 3.0;

const K1: f32 = 1.0 / (255.0 * K0);

// x / 255 by two products: the Rust cites fgiesen.wordpress.com/2024/11/06/exact-unorm8-to-float.
pub fn f32(x: u8) -> f32
    ensures { result ≡ value_of x false }
{
    (x as f32 * K0) * K1
}
