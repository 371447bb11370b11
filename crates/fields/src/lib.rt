// Little-endian fields of four bytes.
#![tactic(auto)]

ghost use Rattle.std.specs.Prelude.{◌≡◌, ◌+◌, ◌<◌, ◌≤◌, length};
ghost use Rattle.fields.specs.Fields.{field_at, field_of};

// The number in the four bytes from `at` on.
pub fn read_u32(bytes: &[u8], at: usize) -> u32
    requires { at + 4 ≤ length bytes.now }
    ensures { result ≡ field_at 4 bytes.now at }
{
    u32::from_le_bytes(*bytes[at..].first_chunk().unwrap())
}

// The four bytes of a number.
pub fn bytes_u32(x: u32) -> [u8; 4]
    ensures { result ≡ field_of 4 x }
{
    x.to_le_bytes()
}
