// Decode: refusal 3. A line shows what both lent arrays hold after the call: what they held before, where the call refuses.
use cases::given;
use cases::show::{Floats, IfRefused, format};
use given::Sixteen;
use std::io;

pub fn answer(rt: &impl Print, encoded: &[u8], snorm: bool) -> io::Result<()> {
    let mut first = given::block(Sixteen::Slopes);
    let mut second = given::block(Sixteen::LaterSlopes);
    let told = bc5::decode_block(encoded, snorm, &mut first, &mut second);
    print!(rt;
        ": decode{}{} |{}",
        IfRefused(told),
        Floats(&first),
        Floats(&second)
    )
}

pub fn cases(rt: &impl Print) -> io::Result<()> {
    let b: [u8; 17] = given::bytes();
    for (length, snorm) in [
        (0, false),
        (8, false),
        (15, false),
        (16, false),
        (17, false),
        (15, true),
        (16, true),
        (17, true),
    ] {
        print!(rt; "{length} bytes, {}", format(snorm))?;
        answer(rt, given::first(&b, length), snorm)?;
        println!(rt)?;
    }
    Ok(())
}
