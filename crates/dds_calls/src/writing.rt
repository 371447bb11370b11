// Write: refusals 1, 9, 10, 3 and 4. A line shows all of the lent output by its checksum, the bytes past what is written included.
use cases::show::{Answer, Hex, Written};
use cases::{given, show};
use given::FAR;
use std::io;

// But for what the output holds after it.
pub fn write(
    rt: &impl Print,
    tile: &[u8],
    width: usize,
    height: usize,
    snorm: bool,
    out: &mut [u8],
) -> io::Result<()> {
    let room = out.len();
    let answer = dds::write(tile, width, height, snorm, out);
    print!(rt;
        "write {width} by {height}, {}, {} bytes into {room}: {}",
        show::format(snorm),
        tile.len(),
        Answer(answer.map(Written)),
    )
}

// Every byte of a file of 8 by 4, and one that stays.
fn whole(rt: &impl Print, snorm: bool) -> io::Result<()> {
    let tile: [u8; 16] = given::bytes();
    let mut out = [0xa5; 145];
    write(rt, &tile, 8, 4, snorm, &mut out)?;
    println!(rt; " {}", Hex(&out))
}

// Sides, the length of the tile, and the room for the file.
const CASES: [(usize, usize, usize, usize); 24] = [
    // widths
    (0, 4, 0, 128),
    (4, 4, 8, 136),
    (6, 4, 12, 140),
    (1024, 4, 2048, 2176),
    (1028, 4, 2056, 2184),
    (FAR, 4, 8, 136),
    // heights
    (4, 0, 0, 128),
    (4, 6, 12, 140),
    (4, 1024, 2048, 2176),
    (4, 1028, 2056, 2184),
    (4, FAR, 8, 136),
    (FAR, FAR, 8, 136),
    // lengths
    (8, 4, 0, 144),
    (8, 4, 15, 144),
    (8, 4, 16, 144),
    (8, 4, 17, 144),
    (8, 4, 16, 0),
    (8, 4, 16, 16),
    (8, 4, 16, 143),
    (8, 4, 16, 145),
    // together
    (6, 4, 16, 144),
    (6, 4, 12, 139),
    (8, 4, 15, 143),
    (8, 6, 15, 143),
];

pub fn cases(rt: &impl Print) -> io::Result<()> {
    whole(rt, false)?;
    whole(rt, true)?;
    for (width, height, length, room) in CASES {
        let all: [u8; 2056] = given::bytes();
        let mut out = [0xa5; 2184];
        let tile = given::first(&all, length);
        let lent = given::first_mut(&mut out, room);
        write(rt, tile, width, height, false, lent)?;
        println!(rt; ", out {:08x}", show::checksum(&out))?;
    }
    Ok(())
}
