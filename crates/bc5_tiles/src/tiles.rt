// Encode tile: refusals 1, 9, 10, 2, 4 and 7. A line shows the answer by options and by a malformed word, for which 8 comes last, and after each all of the
// lent output by its checksum, the bytes past what is written included.
use bc4::word::Word;
use bc5::Options;
use cases::given;
use cases::show::{Answer, Nans, Written, checksum, format};
use given::{FAR, Lent, OPTIONS};
use refusal::Channel;
use std::io;

// A tile of two channels, into the first `room` bytes.
#[derive(Clone, Copy)]
pub struct Tile<'a> {
    pub width: usize,
    pub height: usize,
    pub first: Lent<'a>,
    pub second: Lent<'a>,
    pub room: usize,
    pub snorm: bool,
}

impl<'a> Tile<'a> {
    // As many bytes as samples of a channel.
    fn new(width: usize, height: usize, count: usize) -> Self {
        Self {
            width,
            height,
            first: Lent::new(count, &[]),
            second: Lent::new(count, &[]),
            room: count,
            snorm: false,
        }
    }

    // A size that is no square, and right.
    fn right() -> Self {
        Self::new(12, 8, 96)
    }

    fn lending(first: Lent<'a>, second: Lent<'a>) -> Self {
        Self {
            first,
            second,
            ..Self::right()
        }
    }
}

fn named(rt: &impl Print, t: Tile<'_>) -> io::Result<()> {
    print!(rt;
        "tile {} by {}, {} beside {} samples into {} bytes{}, {}",
        t.width,
        t.height,
        t.first,
        t.second.count,
        t.room,
        Nans(t.second.nans),
        format(t.snorm),
    )
}

pub fn tiled(rt: &impl Print, t: Tile<'_>) -> io::Result<()> {
    named(rt, t)?;
    let a: [f32; 4112] = given::samples(Channel::First, t.first.nans);
    let b: [f32; 4112] = given::samples(Channel::Second, t.second.nans);
    let first = given::first(&a, t.first.count);
    let second = given::first(&b, t.second.count);
    let options = Options {
        snorm: t.snorm,
        ..OPTIONS
    };
    let word = Word {
        options,
        malformed: true,
    };
    let mut out = [0xa5u8; 4128];
    let part = given::first_mut(&mut out, t.room);
    let told = bc5::encode_tile(first, second, t.width, t.height, options, part);
    print!(rt;
        ": {}, out {:08x}",
        Answer(told.map(Written)),
        checksum(&out)
    )?;
    out.fill(0xa5);
    let part = given::first_mut(&mut out, t.room);
    let told = bc5::word::encode_tile(first, second, t.width, t.height, word, part);
    println!(rt;
        ", by word {}, out {:08x}",
        Answer(told.map(Written)),
        checksum(&out)
    )
}

// Each count with each.
pub fn each_count(rt: &impl Print) -> io::Result<()> {
    for second in [95, 96, 97] {
        for first in [95, 96, 97] {
            let first = Lent::new(first, &[]);
            let second = Lent::new(second, &[]);
            tiled(rt, Tile::lending(first, second))?;
        }
    }
    Ok(())
}

// Each place of a NaN with each: 96 is past the end of what is lent.
pub fn each_nan(rt: &impl Print) -> io::Result<()> {
    let places: [&[usize]; 4] = [&[], &[0], &[95], &[96]];
    for second in places {
        for first in places {
            let first = Lent::new(96, first);
            let second = Lent::new(96, second);
            tiled(rt, Tile::lending(first, second))?;
        }
    }
    Ok(())
}

// Every set of faults but NaN.
fn each_fault(rt: &impl Print, first_nans: &[usize], second_nans: &[usize]) -> io::Result<()> {
    for room in [96, 95] {
        for second in [96, 97] {
            for first in [96, 95] {
                let first = Lent::new(first, first_nans);
                let second = Lent::new(second, second_nans);
                let lent = Tile::lending(first, second);
                tiled(rt, Tile { room, ..lent })?;
            }
        }
    }
    Ok(())
}

pub fn each_set(rt: &impl Print) -> io::Result<()> {
    each_fault(rt, &[], &[])?;
    each_fault(rt, &[94], &[])?;
    each_fault(rt, &[], &[37])?;
    each_fault(rt, &[94], &[37])
}

fn sizes(rt: &impl Print) -> io::Result<()> {
    for (width, height, count) in [
        (4, 4, 16),
        (0, 4, 0),
        (4, 0, 0),
        (6, 4, 24),
        (4, 6, 24),
        (1024, 4, 4096),
        (4, 1024, 4096),
        (1028, 4, 4112),
        (4, 1028, 4112),
        (FAR, 4, 16),
        (4, FAR, 16),
    ] {
        tiled(rt, Tile::new(width, height, count))?;
    }
    Ok(())
}

pub fn cases(rt: &impl Print) -> io::Result<()> {
    sizes(rt)?;
    let right = Tile::right();
    for room in [0, 48, 97, 4128] {
        tiled(rt, Tile { room, ..right })?;
    }
    let snorm = true;
    tiled(rt, Tile { snorm, ..right })?;
    let tall = Tile::new(8, 12, 96);
    let second = Lent::new(96, &[37]);
    tiled(rt, Tile { second, ..tall })?;
    let tallest = Tile::new(4, 1024, 4096);
    let second = Lent::new(4096, &[4095]);
    tiled(rt, Tile { second, ..tallest })
}
