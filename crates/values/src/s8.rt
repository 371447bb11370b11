ghost use Rattle.std.specs.Prelude.{◌≡◌, ◌≤◌, true};
ghost use Rattle.values.specs.Values.{norm_of, from_norm, level_value, value_of, signed_of};

const K0: f32 = 31.0;

const K1: f32 = 1.0 / (254.0 * K0);

// Brings it in the range 0 to 254.
pub fn norm(x: u8) -> u8
    ensures { result ≡ norm_of x }
{
    x.wrapping_add(128).saturating_sub(1)
}

// The end of uf32, which has a level already.
pub fn norm_f32(n: u8) -> f32
    ensures { result ≡ level_value n true }
{
    (n as f32 * K0) * K1
}

// Unsigned f32.
pub fn uf32(x: u8) -> f32
    ensures { result ≡ value_of x true }
{
    norm_f32(norm(x))
}

// From 0 to 254, which is what every caller has: a level of the signed format.
pub fn from_norm(x: u8) -> u8
    requires { x ≤ 254 }
    ensures { result ≡ from_norm x }
{
    (x + 1).wrapping_sub(128)
}

// Rust's `x as i8`.
pub fn as_i8(x: u8) -> i8
    ensures { result ≡ signed_of x }
{
    x.cast_signed()
}
