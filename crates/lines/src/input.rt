// Document 01, "The program": what stands in a record of 68 bytes.
ghost use Rattle.std.specs.Prelude.{◌≡◌};
ghost use Rattle.std.specs.Float.{binary32};
ghost use Rattle.std.specs.Float.Ieee.{of_bits};
ghost use Rattle.lines.specs.Input.{record_word, samples_of};

use bc4::word::Word;

// The first four bytes.
pub fn read_word(record: &[u8; 68]) -> Word
    ensures { result ≡ record_word record.now }
{
    bc4::word::read(record[0], record[1], record[2], record[3])
}

// A NaN is made by a division: `from_bits` is not defined at its bits.
fn float_of(n: u32) -> f32
    ensures { result ≡ of_bits binary32 n }
{
    if n % 0x8000_0000 > 0x7f80_0000 {
        return 0.0 / 0.0;
    }
    f32::from_bits(n)
}

// The bits of sample i are the four bytes from 4 + 4 * i on.
pub fn samples(record: &[u8; 68]) -> [f32; 16]
    ensures { result ≡ samples_of record.now }
{
    std::array::from_fn(|i| float_of(fields::read_u32(record, 4 + 4 * i)))
}
