// What a message's edition says at its place.
ghost use Rattle.std.specs.Prelude.{◌≡◌, ◌<◌, length};
ghost use Rattle.place.specs.Place.{bc4_size};
ghost use Rattle.refusal.specs.Refusals.{first_of, answered};
ghost use Rattle.station.specs.Editions.{edition_in, entry_of, ahead as ahead_of};
ghost use Rattle.station.specs.Receiving.{edition_checks, becomes};

use crate::Received;
use refusal::Refusal;

// The places of the record that an entry takes.
pub const ENTRY_SIZE: usize = 1;

const WRAP: u32 = 65536;

const HALFWAY: u32 = 32768;

pub fn entry_of(edition: u16) -> u32
    ensures { result ≡ entry_of edition }
{
    edition as u32 + 1
}

// How far the edition is ahead of the one that an entry holds.
fn ahead(edition: u16, entry: u32) -> u32
    requires { 0 < entry }
    ensures { result ≡ ahead_of edition (edition_in entry) }
{
    (edition as u32 + WRAP - (entry - 1) % WRAP) % WRAP
}

// Of a message whose place has this entry and these bytes.
#[tactic(auto, unfolding(refusal::specs::Refusals::first_of))]
pub fn received(entry: u32, edition: u16, held: &[u8], block: &[u8]) -> Result<Received, Refusal>
    requires { (length held.now ≡ bc4_size) × (length block.now ≡ bc4_size) }
    ensures { result ≡ answered Err (Ok (becomes entry edition)) (first_of (edition_checks entry edition held.now block.now)) }
{
    if entry == 0 {
        return Ok(Received::Taken);
    }
    let steps = ahead(edition, entry);
    if steps == 0 {
        if held == block {
            return Ok(Received::Repeated);
        }
        return Err(Refusal::EditionReused);
    }
    if steps < HALFWAY {
        return Ok(Received::Replaced);
    }
    if steps == HALFWAY {
        return Err(Refusal::EditionOpposite);
    }
    Ok(Received::Old)
}
