// Decode: refusal 3. A line shows what the lent array holds after the call: what it held before, where the call refuses.
use cases::given;
use cases::show::{Floats, Hex, IfRefused, format};
use given::Sixteen;
use std::io;

fn answer(rt: &impl Print, encoded: &[u8], snorm: bool) -> io::Result<()> {
    let mut samples = given::block(Sixteen::Slopes);
    let told = bc4::decode_block(encoded, snorm, &mut samples);
    println!(rt; ":{}{}", IfRefused(told), Floats(&samples))
}

fn long(rt: &impl Print, length: usize, snorm: bool) -> io::Result<()> {
    let b: [u8; 17] = given::bytes();
    print!(rt; "decode {length} bytes, {}", format(snorm))?;
    answer(rt, given::first(&b, length), snorm)
}

fn valued(rt: &impl Print, encoded: [u8; 8], snorm: bool) -> io::Result<()> {
    print!(rt; "decode {}, {}", Hex(&encoded), format(snorm))?;
    answer(rt, &encoded, snorm)
}

// c0 and c1 with the indexes 0 to 7, twice.
fn every_index(rt: &impl Print, c0: u8, c1: u8, snorm: bool) -> io::Result<()> {
    valued(rt, [c0, c1, 0x88, 0xc6, 0xfa, 0x88, 0xc6, 0xfa], snorm)
}

fn lengths(rt: &impl Print) -> io::Result<()> {
    for length in [0, 7, 8, 9, 15, 16, 17] {
        long(rt, length, false)?;
    }
    for length in [7, 8, 9] {
        long(rt, length, true)?;
    }
    Ok(())
}

// In the last two the bytes are in the other order as signed.
const MODES: [(u8, u8); 7] = [
    (0xff, 0x00),
    (0x00, 0xff),
    (0x80, 0x7f),
    (0x7f, 0x80),
    (0x55, 0x55),
    (0x01, 0xff),
    (0xff, 0x01),
];

// Behind the modes the run values: -127 is above -128, so six values, though both mean 0.
const SIGNED_MODES: [(u8, u8); 9] = [
    (0x7f, 0x81),
    (0x81, 0x7f),
    (0x7f, 0x80),
    (0x80, 0x7f),
    (0x01, 0xff),
    (0xff, 0x01),
    (0x55, 0x55),
    (0x81, 0x80),
    (0x80, 0x81),
];

// The last is a run value too: 1/5.
fn modes(rt: &impl Print) -> io::Result<()> {
    for (c0, c1) in MODES {
        every_index(rt, c0, c1, false)?;
    }
    for (c0, c1) in SIGNED_MODES {
        every_index(rt, c0, c1, true)?;
    }
    valued(rt, [0x00, 0xff, 0x92, 0x24, 0x49, 0x92, 0x24, 0x49], false)
}

pub fn cases(rt: &impl Print) -> io::Result<()> {
    lengths(rt)?;
    modes(rt)
}
