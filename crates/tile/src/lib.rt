// A tile of samples, encoded block by block into the bytes that the caller lends, and a block's part of such bytes. A block has one channel in eight bytes
// or two in sixteen. Refusals are the caller's: what it checks is asked for here.
#![tactic(auto)]

ghost use Rattle.std.specs.Prelude.{◌≡◌, ◌++◌, ◌+◌, ◌*◌, ◌<◌, ◌≤◌, length, take, drop};
ghost use Rattle.place.specs.Place.{longest_side, along, bc4_size, bc5_size, encoded_length, block_at, all_bytes};
ghost use Rattle.tile.specs.Tile.{pair_bytes, tile_bytes};

mod channel;

use channel::Channel;
use options::Options;
use place::Size;

// Blocks of one channel.
pub fn encode_rows(samples: &[f32], size: Size, options: Options, out: &mut [u8])
    requires { (length samples.now ≡ size.width * size.height) × (encoded_length bc4_size size.width size.height ≤ length out.old) }
    ensures { out.new ≡ tile_bytes samples.now size.width size.height options ++ drop (encoded_length bc4_size size.width size.height) out.old }
{
    let only = Channel {
        samples,
        size,
        options,
        block: place::BC4_SIZE,
        start: 0,
    };
    only.encode(out);
}

// Blocks of two channels, one pass for each: a test per block would cost blocks of one channel as well.
pub fn encode_pairs(first: &[f32], second: &[f32], size: Size, options: Options, out: &mut [u8])
    requires { (length first.now ≡ size.width * size.height) × (length second.now ≡ size.width * size.height) × (encoded_length bc5_size size.width size.height ≤ length out.old) }
    ensures { out.new ≡ all_bytes (pair_bytes first.now second.now size.width options) size.width size.height ++ drop (encoded_length bc5_size size.width size.height) out.old }
{
    let before = Channel {
        samples: first,
        size,
        options,
        block: place::BC5_SIZE,
        start: 0,
    };
    let after = Channel {
        samples: second,
        size,
        options,
        block: place::BC5_SIZE,
        start: place::BC4_SIZE,
    };
    before.encode(out);
    after.encode(out);
}

// The bytes of one block, of so many: that part of a tile's.
pub fn block_part(size: usize, tile: &[u8], width: usize, column: usize, row: usize) -> &[u8]
    requires { (row * along width + column ≤ longest_side * longest_side) × (block_at size width column row + size ≤ length tile.now) × (length tile.now ≤ longest_side * longest_side) }
    ensures { result.now ≡ take size (drop (block_at size width column row) tile.now) }
{
    let at = place::block_at(size, width, column, row);
    &tile[at..at + size]
}
