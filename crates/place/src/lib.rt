// Document 01, "Calls and numbers": the sizes that a tile may have, and where a block's bytes and samples are in it.
#![tactic(auto)]

ghost use Rattle.std.specs.Prelude.{◌≡◌, ◌+◌, ◌*◌, ◌<◌, ◌≤◌, length};
ghost use Rattle.place.specs.Place.{longest_side, bad_side, bad_size, along, encoded_length, block_at, block_of};

mod size;

pub use size::Size;

pub const LONGEST_SIDE: usize = 1024;

// The bytes of a BC4 block.
pub const BC4_SIZE: usize = 8;

// The bytes of a BC5 block: two of BC4.
pub const BC5_SIZE: usize = 16;

#[tactic(auto, unfolding(crate::specs::Place::bad_side))]
fn bad_side(n: usize) -> bool
    ensures { result ≡ bad_side n }
{
    (n == 0) | (LONGEST_SIDE < n) | (n % 4 != 0)
}

#[tactic(auto, unfolding(crate::specs::Place::bad_size))]
pub fn bad_size(width: usize, height: usize) -> bool
    ensures { result ≡ bad_size width height }
{
    bad_side(width) | bad_side(height)
}

// The bytes of all blocks. `size` is the bytes of one, here and below.
pub fn encoded_length(size: usize, width: usize, height: usize) -> usize
    requires { (width * height ≤ longest_side * longest_side) × (width * height * size ≤ 16 * longest_side * longest_side) }
    ensures { result ≡ encoded_length size width height }
{
    width * height * size / 16
}

// Where a block's bytes start.
pub fn block_at(size: usize, width: usize, column: usize, row: usize) -> usize
    requires { (row * along width + column ≤ longest_side * longest_side) × (block_at size width column row ≤ 16 * longest_side * longest_side) }
    ensures { result ≡ block_at size width column row }
{
    size * (row * (width / 4) + column)
}

// A block's own sixteen samples.
pub fn gather(samples: &[f32], width: usize, column: usize, row: usize) -> [f32; 16]
    requires { (column < along width) × (4 * (row + 1) * width ≤ length samples.now) }
    ensures { result ≡ block_of samples.now width column row }
{
    std::array::from_fn(|i| { samples[(4 * row + i / 4) * width + (4 * column + i % 4)] })
}
