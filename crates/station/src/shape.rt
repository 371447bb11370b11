// Whether a message, a tile and a record go together.
ghost use Rattle.std.specs.Prelude.{◌≡◌};
ghost use Rattle.refusal.specs.Refusals.{first_of};
ghost use Rattle.station.specs.Receiving.{shape_checks};

use crate::editions;
use refusal::Refusal;

// `long`, `entries` and `count` are the lengths of the tile, of the record and of the message's bytes.
#[tactic(auto, using(refusal::proofs::Firsts::passed_first), unfolding(refusal::specs::Refusals::first_of))]
pub fn message(
    long: usize,
    entries: usize,
    count: usize,
    width: usize,
    height: usize,
    column: usize,
    row: usize,
) -> Result<(), Refusal>
    ensures { result ≡ first_of (shape_checks long entries count width height column row) }
{
    let size = refusal::tile_bytes(long, width, height)?;
    if entries != size.encoded_length(editions::ENTRY_SIZE) {
        return Err(Refusal::EncodedLength);
    }
    if count != place::BC4_SIZE {
        return Err(Refusal::EncodedLength);
    }
    if size.lacks(column, row) {
        return Err(Refusal::NoSuchBlock);
    }
    Ok(())
}
