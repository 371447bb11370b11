// Resend: refusals 2, 3, 5 and 7.
use bc4::{Kept, Options};
use cases::given;
use cases::show::{Answer, Block, Hex, Nans, format, if_set};
use given::{OPTIONS, Sixteen};
use refusal::Channel;
use std::{fmt, io};

// The bytes to hold, after a word for the flag.
#[derive(Clone, Copy)]
struct Held(Kept);

impl fmt::Display for Held {
    fn fmt<W: fmt::Write>(&self, f: &mut fmt::Formatter<W>) -> fmt::Result {
        let word = if self.0.fresh { "fresh" } else { "held" };
        write!(f, "{word} {}", Block(self.0.block))
    }
}

fn answer(rt: &impl Print, samples: &[f32], held: &[u8], o: Options) -> io::Result<()> {
    let told = bc4::resend(samples, held, o);
    println!(rt; ": {}", Answer(told.map(Held)))
}

fn counted(
    rt: &impl Print,
    count: usize,
    length: usize,
    dither: bool,
    nans: &[usize],
) -> io::Result<()> {
    let s: [f32; 17] = given::samples(Channel::First, nans);
    let b: [u8; 17] = given::bytes();
    let said = if_set(dither, ", dither");
    print!(rt;
        "resend {count} samples over {length} bytes{said}{}",
        Nans(nans)
    )?;
    answer(
        rt,
        given::first(&s, count),
        given::first(&b, length),
        Options { dither, ..OPTIONS },
    )
}

fn valued(rt: &impl Print, what: Sixteen, held: [u8; 8], snorm: bool) -> io::Result<()> {
    print!(rt; "resend {what} over {}, {}", Hex(&held), format(snorm))?;
    answer(rt, &given::block(what), &held, Options { snorm, ..OPTIONS })
}

fn counts(rt: &impl Print) -> io::Result<()> {
    for count in [0, 7, 8, 9, 15, 16, 17] {
        counted(rt, count, 8, false, &[])?;
    }
    for length in [0, 7, 9, 15, 16, 17] {
        counted(rt, 16, length, false, &[])?;
    }
    Ok(())
}

fn dither_and_nan(rt: &impl Print) -> io::Result<()> {
    counted(rt, 16, 8, true, &[])?;
    for nan in [0, 15, 16] {
        counted(rt, 16, 8, false, &[nan])?;
    }
    Ok(())
}

fn two_together(rt: &impl Print) -> io::Result<()> {
    counted(rt, 15, 7, false, &[])?;
    counted(rt, 15, 8, true, &[])?;
    counted(rt, 15, 8, false, &[3])?;
    counted(rt, 16, 7, true, &[])?;
    counted(rt, 16, 7, false, &[3])?;
    counted(rt, 16, 8, true, &[3])
}

fn more_together(rt: &impl Print) -> io::Result<()> {
    counted(rt, 17, 9, true, &[])?;
    counted(rt, 17, 9, false, &[3])?;
    counted(rt, 17, 8, true, &[3])?;
    counted(rt, 16, 9, true, &[3])?;
    counted(rt, 17, 9, true, &[3])
}

// An equal error keeps the held bytes: index 6 of the four-value mode is 0, as is each endpoint here.
const TIES: [([u8; 8], bool); 4] = [
    ([0x00, 0x00, 0xb6, 0x6d, 0xdb, 0xb6, 0x6d, 0xdb], false),
    ([0x00, 0x00, 0x00, 0x00, 0x00, 0x00, 0x00, 0x00], false),
    ([0x80, 0x80, 0xb6, 0x6d, 0xdb, 0xb6, 0x6d, 0xdb], true),
    ([0x81, 0x81, 0x00, 0x00, 0x00, 0x00, 0x00, 0x00], true),
];

// The fresh bytes themselves; better ones, which the search found; and worse ones, which are replaced.
const SLOPES: [([u8; 8], bool); 8] = [
    ([0x56, 0x00, 0xb9, 0x5d, 0xce, 0xe5, 0x24, 0x4c], false),
    ([0x51, 0x07, 0xc9, 0x5d, 0xce, 0xe5, 0x04, 0x4c], false),
    ([0x00, 0x00, 0x00, 0x00, 0x00, 0x00, 0x00, 0x00], false),
    ([0x56, 0x00, 0xb9, 0x5d, 0xce, 0xe5, 0x24, 0x00], false),
    ([0xd7, 0x81, 0xb9, 0x5d, 0xce, 0xe5, 0x24, 0x6c], true),
    ([0xd3, 0x83, 0xb9, 0x5d, 0xce, 0xe5, 0x04, 0x4c], true),
    ([0x81, 0x81, 0x00, 0x00, 0x00, 0x00, 0x00, 0x00], true),
    ([0xd7, 0x81, 0xb9, 0x5d, 0xce, 0xe5, 0x24, 0x00], true),
];

// Infinite samples are as 0 and 1: the fresh bytes have no error, so only held ones with an error give way.
const INFINITE: [([u8; 8], bool); 3] = [
    ([0x00, 0x00, 0x00, 0x00, 0x00, 0x00, 0x00, 0x00], false),
    ([0x00, 0xff, 0xb6, 0x6d, 0xdb, 0xff, 0xff, 0xff], false),
    ([0x80, 0x7f, 0xb6, 0x6d, 0xdb, 0xff, 0xff, 0xff], true),
];

fn values(rt: &impl Print) -> io::Result<()> {
    for (held, snorm) in TIES {
        valued(rt, Sixteen::Zeros, held, snorm)?;
    }
    for (held, snorm) in SLOPES {
        valued(rt, Sixteen::Slopes, held, snorm)?;
    }
    for (held, snorm) in INFINITE {
        valued(rt, Sixteen::BothInfinite, held, snorm)?;
    }
    Ok(())
}

pub fn cases(rt: &impl Print) -> io::Result<()> {
    counts(rt)?;
    dither_and_nan(rt)?;
    two_together(rt)?;
    more_together(rt)?;
    values(rt)
}
