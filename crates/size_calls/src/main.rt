// Hands sizes to every call that takes one, and prints a line for each size: what each call says of it. What a call refuses later is wrong as well, so that
// of a good size the next number is told. The file stdout beside src/ was worked out by compare/size_calls.py, not by this program.
#![tactic(auto)]

use bc4::word;
use cases::given;
use cases::show::{Answer, Hex};
use given::{FARTHEST, OPTIONS};
use refusal::Channel;
use std::io;

// Width and height: each fault together with one that is looked for later, a size without a fault, and the farthest sides.
const SIZES: [(usize, usize); 13] = [
    (0, 0),
    (6, 0),
    (0, 2000),
    (2000, 0),
    (2000, 6),
    (6, 2000),
    (1026, 4),
    (6, 6),
    (1024, 1024),
    (1028, 1028),
    (FARTHEST, 4),
    (4, FARTHEST),
    (FARTHEST, FARTHEST),
];

// What four bytes hold of a side: of the farthest their own farthest.
fn field(side: usize) -> [u8; 4] {
    ((side % 4294967296) as u32).to_le_bytes()
}

// A file of 8 by 4 with another size, and a byte too many.
fn file(width: usize, height: usize) -> [u8; 145] {
    let mut file = [0u8; 145];
    let _ = dds::write(&[0; 16], 8, 4, false, &mut file);
    file[12..16].copy_from_slice(&field(height));
    file[16..20].copy_from_slice(&field(width));
    file
}

// 17 samples, one of them NaN, into four bytes, by options and by a malformed word; a block that no tile has, of 17 bytes; 17 bytes into four.
fn sized(rt: &impl Print, width: usize, height: usize) -> io::Result<()> {
    let samples: [f32; 17] = given::samples(Channel::First, &[3]);
    let malformed = word::read(0, 0, 3, 0);
    let bytes: [u8; 17] = given::bytes();
    let mut out = [0u8; 4];
    let tile = bc4::encode_tile(&samples, width, height, OPTIONS, &mut out);
    let by_word = word::encode_tile(&samples, width, height, malformed, &mut out);
    let no_view = bc4::view_refusal(&bytes, width, height, FARTHEST, FARTHEST);
    let view = bc4::block_view(&bytes, width, height, FARTHEST, FARTHEST);
    let written = dds::write(&bytes, width, height, false, &mut out);
    let read = dds::read_refusal(&file(width, height));
    println!(rt;
        "{width} by {height}: tile {}, by word {}, view {} [{}], write {}, read {}",
        Answer(tile),
        Answer(by_word),
        Answer(no_view.map(|()| "passed")),
        Hex(view),
        Answer(written),
        Answer(read.map(|()| "passed")),
    )
}

fn main(rt: HostRuntime) -> io::Result<()> {
    for (width, height) in SIZES {
        sized(&rt, width, height)?;
    }
    Ok(())
}
