// Document 02, 5/12: the receiving side. A message is a block's place, an edition and eight bytes; a station holds a tile and, beside it, a record of the
// editions that stand in it: one entry for each block, 0 where the place is empty, else the edition and one more. Both are the caller's memory.
#![tactic(auto)]

ghost use Rattle.std.specs.Prelude.{◌≡◌, ◌+◌, ◌*◌, ◌<◌, ◌≤◌, length, set};
ghost use Rattle.place.specs.Place.{longest_side, bc4_size};
ghost use Rattle.station.specs.Editions.{message, holding, entry_of};
ghost use Rattle.station.specs.Receiving.{receive_answer, changes, bytes_put, tile_after, editions_after, cleared};

mod editions;
mod shape;

use refusal::Refusal;

// What became of a message.
#[derive(Clone, Copy)]
pub enum Received {
    // Its place was empty, and holds it now.
    Taken,
    // Its place holds that edition, with the same bytes. Nothing changed.
    Repeated,
    // It is newer than what its place held, and stands there now.
    Replaced,
    // Its place holds a newer one. Nothing changed.
    Old,
}

impl Received {
    // Whether what is held changes by it.
    fn changes(self) -> bool
        ensures { result ≡ changes (Ok self) }
    {
        match self {
            Received::Taken | Received::Replaced => true,
            Received::Repeated | Received::Old => false,
        }
    }
}

pub fn receive(
    tile: &mut [u8],
    editions: &mut [u32],
    width: usize,
    height: usize,
    column: usize,
    row: usize,
    edition: u16,
    block: &[u8],
) -> Result<Received, Refusal>
    ensures answer { result ≡ receive_answer (holding tile.old editions.old) width height (message column row edition block.now) }
    ensures tile { tile.new ≡ tile_after result tile.old width (message column row edition block.now) }
    ensures editions { editions.new ≡ editions_after result editions.old width (message column row edition block.now) }
{
    shape::message(
        tile.len(),
        editions.len(),
        block.len(),
        width,
        height,
        column,
        row,
    )?;
    let at = place::block_at(place::BC4_SIZE, width, column, row);
    let entry = place::block_at(editions::ENTRY_SIZE, width, column, row);
    let received = editions::received(
        editions[entry],
        edition,
        &tile[at..at + place::BC4_SIZE],
        block,
    )?;
    if received.changes() {
        put(tile, editions, at, entry, edition, block);
    }
    Ok(received)
}

// A message's bytes and its edition, where its place has them.
fn put(tile: &mut [u8], editions: &mut [u32], at: usize, entry: usize, edition: u16, block: &[u8])
    requires { (length block.now ≡ bc4_size) × (at + bc4_size ≤ length tile.old) × (length tile.old ≤ longest_side * longest_side) × (entry < length editions.old) }
    ensures tile { tile.new ≡ bytes_put tile.old at block.now }
    ensures editions { editions.new ≡ set editions.old entry (entry_of edition) }
{
    tile[at..at + place::BC4_SIZE].copy_from_slice(block);
    editions[entry] = editions::entry_of(edition);
}

// Empties the record: a new history starts. The tile's bytes stay until messages replace them.
pub fn clear(editions: &mut [u32])
    ensures { editions.new ≡ cleared editions.old }
{
    editions.fill(0);
}
