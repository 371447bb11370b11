// Sides of 1,024 and more, at places in the corners. A line shows tile and record by their checksums.
use crate::line::Handed;
use crate::shapes::RIGHT;
use cases::{given, show};
use std::io;

fn received(
    rt: &impl Print,
    handed: Handed,
    tile: &mut [u8],
    record: &mut [u32],
) -> io::Result<()> {
    let answer = handed.receive(tile, record);
    println!(rt;
        "{handed}: {answer}, tile {:08x}, record {}",
        show::checksum(tile),
        show::checksum(record),
    )
}

// A row or a column of 256 blocks or 257.
fn lanes(rt: &impl Print) -> io::Result<()> {
    for (width, height, bytes, entries, column, row) in [
        (1024, 4, 2048, 256, 0, 0),
        (1024, 4, 2048, 256, 255, 0),
        (1024, 4, 2048, 256, 256, 0),
        (1024, 4, 2048, 256, 0, 1),
        (1028, 4, 2056, 257, 0, 0),
        (4, 1024, 2048, 256, 0, 0),
        (4, 1024, 2048, 256, 0, 255),
        (4, 1024, 2048, 256, 0, 256),
        (4, 1024, 2048, 256, 1, 0),
        (4, 1028, 2056, 257, 0, 0),
    ] {
        let mut tile: [u8; 2056] = given::bytes();
        let mut record = [6; 257];
        let handed = Handed {
            width,
            height,
            bytes,
            entries,
            column,
            row,
            ..RIGHT
        };
        received(rt, handed, &mut tile, &mut record)?;
    }
    Ok(())
}

// Of 1,024 by 1,024.
fn corners(rt: &(impl Print + AllocGlobal)) -> io::Result<()> {
    let mut tile = vec![in rt.alloc(); 0u8; 524288]?;
    given::fill_bytes(tile.as_mut_slice());
    let mut record = vec![in rt.alloc(); 0u32; 65536]?;
    for (entries, column, row) in [
        (65535, 0, 0),
        (65536, 255, 255),
        (65536, 255, 0),
        (65536, 0, 255),
        (65536, 255, 255),
        (65536, 256, 255),
        (65536, 255, 256),
    ] {
        let handed = Handed {
            width: 1024,
            height: 1024,
            bytes: 524288,
            entries,
            column,
            row,
            ..RIGHT
        };
        received(rt, handed, tile.as_mut_slice(), record.as_mut_slice())?;
    }
    Ok(())
}

pub fn cases(rt: &(impl Print + AllocGlobal)) -> io::Result<()> {
    lanes(rt)?;
    corners(rt)
}
