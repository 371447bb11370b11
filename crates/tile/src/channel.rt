// One channel of a tile on its way into the blocks: its samples, and which eight of the `block` bytes of each block are its own.
ghost use Rattle.std.specs.Prelude.{◌≡◌, ◌++◌, ◌+◌, ◌*◌, ◌<◌, ◌≤◌, length, drop};
ghost use Rattle.place.specs.Place.{along, bc4_size, bc5_size, encoded_length, joined, all_bytes};
ghost use Rattle.tile.specs.Tile.{block_bytes, block_in, laid_in, channel_block};

use options::Options;
use place::Size;

#[derive(Clone, Copy)]
pub struct Channel<'a> {
    pub samples: &'a [f32],
    pub size: Size,
    pub options: Options,
    pub block: usize,
    pub start: usize,
    pub ghost count: { length samples.now ≡ size.width * size.height },
    pub ghost within: { start + bc4_size ≤ block },
    pub ghost short: { block ≤ bc5_size },
}

impl Channel<'_> {
    // All blocks; the other bytes stay.
    pub fn encode(&self, out: &mut [u8])
        requires { encoded_length self.now.block self.now.size.width self.now.size.height ≤ length out.old }
        ensures { let a = self.now in out.new ≡ all_bytes (channel_block a.samples.now a.block a.start a.size.width a.options out.old) a.size.width a.size.height ++ drop (encoded_length a.block a.size.width a.size.height) out.old }
    {
        for row in 0..self.size.height / 4 {
            let at = place::block_at(self.block, self.size.width, 0, row);
            let end = place::block_at(self.block, self.size.width, 0, row + 1);
            self.encode_stretch(row, &mut out[at..end]);
        }
    }

    // A row of blocks, in the row's own stretch of the output.
    fn encode_stretch(&self, row: usize, out: &mut [u8])
        requires { (row < along self.now.size.height) × (length out.old ≡ along self.now.size.width * self.now.block) }
        ensures { let a = self.now in out.new ≡ joined (λ column. laid_in (block_in out.old a.block (column * a.block)) a.start (block_bytes a.samples.now a.size.width a.options column row)) (along a.size.width) }
    {
        for column in 0..self.size.width / 4 {
            let at = place::block_at(self.block, self.size.width, column, 0);
            self.encode_half(column, row, &mut out[at..at + self.block]);
        }
    }

    // A block, into its own eight of the block's bytes.
    fn encode_half(&self, column: usize, row: usize, block: &mut [u8])
        requires { (column < along self.now.size.width) × (row < along self.now.size.height) × (length block.old ≡ self.now.block) }
        ensures { let a = self.now in block.new ≡ laid_in block.old a.start (block_bytes a.samples.now a.size.width a.options column row) }
    {
        let b = place::gather(self.samples, self.size.width, column, row);
        let e = index_list::bytes(encode::compress_bc4_block(&b, self.options));
        block[self.start..self.start + place::BC4_SIZE].copy_from_slice(&e);
    }
}
