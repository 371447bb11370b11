// Block view: refusals 1, 9, 10, 3 and 6. A line shows the part that is handed back and, where that is empty, what `view_refusal` says.
use cases::given;
use cases::show::{Hex, IfRefused};
use given::{FAR, FARTHEST};
use std::io;

pub fn viewed(
    rt: &impl Print,
    width: usize,
    height: usize,
    length: usize,
    column: usize,
    row: usize,
) -> io::Result<()> {
    let t: [u8; 4112] = given::bytes();
    let tile = given::first(&t, length);
    let told = bc5::view_refusal(tile, width, height, column, row);
    let view = bc5::block_view(tile, width, height, column, row);
    println!(rt;
        "view column {column} row {row} of {width} by {height}, {length} bytes:{} [{}]",
        IfRefused(told),
        Hex(view),
    )
}

// Each place, with a column and a row past the last: no block of the next row, and none after the tile.
pub fn each_place(rt: &impl Print) -> io::Result<()> {
    for row in [0, 1, 2] {
        for column in [0, 1, 2, 3] {
            viewed(rt, 12, 8, 96, column, row)?;
        }
    }
    Ok(())
}

// Width, height, length, column and row.
const SIZES: [(usize, usize, usize, usize, usize); 11] = [
    (4, 4, 16, 0, 0),
    (0, 4, 0, 0, 0),
    (4, 0, 0, 0, 0),
    (6, 4, 24, 0, 0),
    (4, 6, 24, 0, 0),
    (1024, 4, 4096, 255, 0),
    (4, 1024, 4096, 0, 255),
    (1028, 4, 4112, 256, 0),
    (4, 1028, 4112, 0, 256),
    (FAR, 4, 16, 0, 0),
    (4, FAR, 16, 0, 0),
];

// 10 with 3, 10 with 6, 3 with 6, and all of them; then places past the end.
const TOGETHER: [(usize, usize, usize, usize, usize); 9] = [
    (6, 8, 95, 0, 0),
    (6, 8, 48, 3, 0),
    (12, 8, 95, 3, 0),
    (12, 6, 95, 3, 2),
    (1024, 4, 4096, 256, 0),
    (4, 1024, 4096, 0, 256),
    (12, 8, 96, FARTHEST, 0),
    (12, 8, 96, 0, FARTHEST),
    (12, 8, 96, FARTHEST, FARTHEST),
];

pub fn cases(rt: &impl Print) -> io::Result<()> {
    for (width, height, length, column, row) in SIZES {
        viewed(rt, width, height, length, column, row)?;
    }
    for length in [0, 48, 95, 97] {
        viewed(rt, 12, 8, length, 0, 0)?;
    }
    for (width, height, length, column, row) in TOGETHER {
        viewed(rt, width, height, length, column, row)?;
    }
    Ok(())
}
