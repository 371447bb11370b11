// formats.rs: the one-byte value functions, and what both formats share.
#![tactic(auto)]

ghost use Rattle.std.specs.Prelude.{◌≡◌, ◌≤◌};
ghost use Rattle.values.specs.Values.{steps as steps_of, level_byte, level_value, value_of, byte_below};

pub mod n8;
pub mod s8;

// The level that means 1.
pub fn steps(snorm: bool) -> u8
    ensures { result ≡ steps_of snorm }
{
    if snorm { 254 } else { 255 }
}

// The byte of a level. Callers have the level from a rounding into the format, or it is 0.
pub fn level_byte(level: u8, snorm: bool) -> u8
    requires { level ≤ steps_of snorm }
    ensures { result ≡ level_byte level snorm }
{
    if snorm { s8::from_norm(level) } else { level }
}

pub fn level_value(level: u8, snorm: bool) -> f32
    ensures { result ≡ level_value level snorm }
{
    if snorm {
        s8::norm_f32(level)
    } else {
        n8::f32(level)
    }
}

// The float of a byte.
pub fn value(b: u8, snorm: bool) -> f32
    ensures { result ≡ value_of b snorm }
{
    if snorm { s8::uf32(b) } else { n8::f32(b) }
}

// Order is compared on the bytes as written, signed for snorm: whether a is below b.
pub fn byte_below(a: u8, b: u8, snorm: bool) -> bool
    ensures { result ≡ byte_below a b snorm }
{
    if snorm {
        return s8::as_i8(a) < s8::as_i8(b);
    }
    a < b
}
