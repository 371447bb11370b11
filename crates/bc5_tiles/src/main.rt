// Runs the tile call and the block view on two channels at the edges of every refusal and with every set of faults at once, and prints a line for each case:
// what is given, and the answer with what lent memory holds after it. The file stdout beside src/ was worked out by compare/bc5_calls.py, not by this program.
#![tactic(auto)]

mod tiles;
mod views;

use cases::given;
use given::{FARTHEST, Lent};
use std::io;
use tiles::Tile;

// 0, no multiple of 4, right, too large and no multiple of 4, too large.
const SIDES: [usize; 6] = [0, 6, 1024, 1026, 1028, FARTHEST];

// Each side with each. All that is looked at after the size is wrong too.
fn sizes(rt: &impl Print) -> io::Result<()> {
    for height in SIDES {
        for width in SIDES {
            let tile = Tile {
                width,
                height,
                first: Lent::new(17, &[3]),
                second: Lent::new(17, &[3]),
                room: 4,
                snorm: false,
            };
            tiles::tiled(rt, tile)?;
            views::viewed(rt, width, height, 17, FARTHEST, FARTHEST)?;
        }
    }
    Ok(())
}

fn main(rt: HostRuntime) -> io::Result<()> {
    tiles::cases(&rt)?;
    views::cases(&rt)?;
    tiles::each_count(&rt)?;
    tiles::each_nan(&rt)?;
    tiles::each_set(&rt)?;
    views::each_place(&rt)?;
    sizes(&rt)
}
