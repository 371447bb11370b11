// The header of a DDS file: what it holds, and how it is written.
ghost use Rattle.std.specs.Prelude.{◌≡◌, cond, ◌++◌, ◌≤◌, length, drop};
ghost use Rattle.dds.specs.Layout.{header_length, bc4u, bc4s, header_fields, header_of};

use place::Size;

pub const LENGTH: usize = 128;

// With the extension of the four characters `DX10`.
pub const EXTENDED_LENGTH: usize = 148;

// All of it but the magic.
pub const SIZE: u32 = 124;

// Four characters, the first lowest.
pub const DDS: u32 = 0x20534444;

pub const BC4U: u32 = 0x55344342;

pub const BC4S: u32 = 0x53344342;

pub const DX10: u32 = 0x30315844;

// Formats of the extension.
pub const UNSIGNED: u32 = 80;

pub const SIGNED: u32 = 81;

fn four_characters(snorm: bool) -> u32
    ensures { result ≡ cond snorm bc4s bc4u }
{
    if snorm { BC4S } else { BC4U }
}

// The 32 fields: field k stands at byte 4k.
fn fields_of(size: Size, snorm: bool) -> [u32; 32]
    ensures { result ≡ header_fields size.width size.height snorm }
{
    let mut all = [0u32; 32];
    all[0] = DDS;
    all[1] = SIZE;
    all[2] = 0x81007;
    all[3] = size.height as u32;
    all[4] = size.width as u32;
    all[5] = size.encoded_length(place::BC4_SIZE) as u32;
    all[7] = 1;
    all[19] = 32;
    all[20] = 4;
    all[21] = four_characters(snorm);
    all[27] = 0x1000;
    all
}

// The 128 bytes, at the start of `out`. Later bytes stay.
pub fn put(size: Size, snorm: bool, out: &mut [u8])
    requires { header_length ≤ length out.old }
    ensures { out.new ≡ header_of size.width size.height snorm ++ drop header_length out.old }
{
    // By `map` and `as_flattened` the header takes four times as many instructions: the elements wait in an `IntoIter`.
    let all = fields_of(size, snorm);
    for (k, field) in all.iter().enumerate() {
        out[4 * k..4 * k + 4].copy_from_slice(&fields::bytes_u32(*field));
    }
}
