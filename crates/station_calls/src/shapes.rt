// Refusals 1, 9, 10, 3 and 6. The tile has 2 by 3 blocks, with edition 5 at every place.
use crate::line::{Entries, Handed};
use cases::given;
use cases::show::Hex;
use given::FARTHEST;
use std::io;

// Nothing is wrong. A case says what it has otherwise.
pub const RIGHT: Handed = Handed {
    width: 8,
    height: 12,
    bytes: 48,
    entries: 6,
    column: 1,
    row: 2,
    edition: 6,
    block: 8,
};

// All that is looked at after the size is wrong.
const WRONG: Handed = Handed {
    width: 8,
    height: 12,
    bytes: 47,
    entries: 5,
    column: FARTHEST,
    row: FARTHEST,
    edition: 5,
    block: 7,
};

// Of bytes and entries there is one more than is right.
pub fn shaped(rt: &impl Print, handed: Handed) -> io::Result<()> {
    let mut tile: [u8; 49] = given::bytes();
    let mut record = [6u32; 7];
    let answer = handed.receive(&mut tile, &mut record);
    println!(rt; "{handed}: {answer}, {}{}", Hex(&tile), Entries(&record))
}

fn sizes(rt: &impl Print) -> io::Result<()> {
    for (width, height) in [
        (0, 0),
        (6, 0),
        (0, 2000),
        (2000, 0),
        (2000, 6),
        (6, 2000),
        (1026, 4),
        (6, 6),
        (1024, 1024),
        (1028, 1028),
        (FARTHEST, 4),
        (4, FARTHEST),
        (FARTHEST, FARTHEST),
    ] {
        shaped(
            rt,
            Handed {
                width,
                height,
                ..WRONG
            },
        )?;
    }
    Ok(())
}

// Nothing else is wrong: the lengths are those of the size.
fn sizes_alone(rt: &impl Print) -> io::Result<()> {
    for (width, height, bytes, entries, column, row) in [
        (0, 12, 0, 0, 0, 0),
        (8, 0, 0, 0, 0, 0),
        (6, 12, 36, 4, 0, 0),
        (8, 6, 24, 3, 0, 0),
        (8, 12, 48, 6, 0, 0),
        (12, 8, 48, 6, 2, 1),
    ] {
        shaped(
            rt,
            Handed {
                width,
                height,
                bytes,
                entries,
                column,
                row,
                ..RIGHT
            },
        )?;
    }
    Ok(())
}

fn lengths(rt: &impl Print) -> io::Result<()> {
    for (bytes, entries, block) in [
        (0, 6, 8),
        (6, 6, 8),
        (47, 6, 8),
        (48, 6, 8),
        (49, 6, 8),
        (48, 0, 8),
        (48, 5, 8),
        (48, 7, 8),
        (48, 6, 0),
        (48, 6, 7),
        (48, 6, 9),
    ] {
        shaped(
            rt,
            Handed {
                bytes,
                entries,
                block,
                ..RIGHT
            },
        )?;
    }
    Ok(())
}

// The last two would be the first place where products and sums wrap.
fn places(rt: &impl Print) -> io::Result<()> {
    for (column, row) in [
        (0, 0),
        (1, 0),
        (0, 2),
        (1, 2),
        (2, 0),
        (0, 3),
        (2, 2),
        (1, 3),
        (FARTHEST, 0),
        (0, FARTHEST),
        (FARTHEST, FARTHEST),
        (0, 0x8000_0000_0000_0000),
        (0xffff_ffff_ffff_fffe, 1),
    ] {
        shaped(
            rt,
            Handed {
                column,
                row,
                ..RIGHT
            },
        )?;
    }
    Ok(())
}

pub fn cases(rt: &impl Print) -> io::Result<()> {
    sizes(rt)?;
    sizes_alone(rt)?;
    lengths(rt)?;
    places(rt)
}
