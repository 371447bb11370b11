// bc4.rs: IndexList, and how a block's eight bytes hold it.
#![tactic(auto)]

ghost use Rattle.std.specs.Prelude.{◌≡◌, ◌<◌, length};
ghost use Rattle.index_list.specs.Indexes.{index_at, set_at, filled_to};
ghost use Rattle.index_list.specs.Layout.{packed as packed_of, bytes_of, from_bytes};

// Sixteen 3-bit indexes, pixel i at bit 3i.
#[derive(Clone, Copy)]
pub struct IndexList {
    pub data: u64,
}

impl IndexList {
    // 1 at each of the sixteen places: the Rust's MASK.
    pub const ONES: u64 = 0x2492_4924_9249;

    pub fn new_empty() -> Self
        ensures { result.data ≡ 0 }
    {
        Self { data: 0 }
    }

    // Callers hand on an index that a palette's `closest` answered, and those are below 8.
    #[tactic(auto, unfolding(crate::specs::Indexes::filled_to))]
    pub fn new_all(value: u8) -> Self
        requires { value < 8 }
        ensures { result.data ≡ filled_to (λ i. value) 16 }
    {
        Self {
            data: (value as u64) * Self::ONES,
        }
    }

    // Callers count pixels up to 16.
    pub fn get(self, index: usize) -> u8
        requires { index < 16 }
        ensures { result ≡ index_at self.data index }
    {
        ((self.data >> (3 * index)) % 8) as u8
    }

    // The Rust's `|=`: the three bits are 0 before, so a sum is the same. Setting twice is not offered; callers go through the
    // pixels once, from `new_empty`, with an index that `closest` answered.
    pub fn set(self, index: usize, value: u8) -> Self
        requires { (index < 16) × (value < 8) × (index_at self.data index ≡ 0) }
        ensures { result.data ≡ set_at self.data index value }
    {
        Self {
            data: self.data + ((value as u64) << (3 * index)),
        }
    }
}

// The eight bytes of a block as one number, byte 0 lowest. Bits of the list from 48 up are dropped, as by the Rust, which
// takes six of its eight bytes.
pub fn packed(c0: u8, c1: u8, indexes: IndexList) -> u64
    ensures { result ≡ packed_of c0 c1 indexes.data }
{
    (c0 as u64) + ((c1 as u64) << 8) + ((indexes.data % 0x1_0000_0000_0000) << 16)
}

// The eight bytes in order.
pub fn bytes(block: u64) -> [u8; 8]
    ensures { result ≡ bytes_of block }
{
    block.to_le_bytes()
}

// The number of eight bytes in order.
#[tactic(auto, using(crate::proofs::Laws::eight_read))]
pub fn from_bytes(b: &[u8]) -> u64
    requires { length b.now ≡ 8 }
    ensures { result ≡ from_bytes b.now }
{
    u64::from_le_bytes(*b.first_chunk().unwrap())
}
