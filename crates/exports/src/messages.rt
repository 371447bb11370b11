// The calls of `station` for C: include/station.h says what each does.
ghost use Rattle.std.specs.Prelude.{◌≡◌};
ghost use Rattle.station.specs.Editions.{message, holding};
ghost use Rattle.station.specs.Receiving.{receive_answer, tile_after, editions_after, cleared};
ghost use Rattle.refusal.specs.Refusals.{refusal_in};
ghost use Rattle.exports.specs.Border.{number_in, detail_after};
ghost use Rattle.exports.specs.StationBorder.{outcome_number, outcome_after};

use crate::refused;
use station::Received;

#[unsafe(no_mangle)]
pub extern "C" fn bc4_receive(
    tile: &mut [u8],
    editions: &mut [u32],
    width: usize,
    height: usize,
    column: usize,
    row: usize,
    edition: u16,
    block: &[u8],
    outcome: &mut u8,
    detail: &mut [usize; 4],
) -> u32
    ensures number { result ≡ number_in (refusal_in (receive_answer (holding tile.old editions.old) width height (message column row edition block.now))) }
    ensures tile { tile.new ≡ tile_after (receive_answer (holding tile.old editions.old) width height (message column row edition block.now)) tile.old width (message column row edition block.now) }
    ensures editions { editions.new ≡ editions_after (receive_answer (holding tile.old editions.old) width height (message column row edition block.now)) editions.old width (message column row edition block.now) }
    ensures outcome { outcome.new ≡ outcome_after (receive_answer (holding tile.old editions.old) width height (message column row edition block.now)) outcome.old }
    ensures detail { detail.new ≡ detail_after (refusal_in (receive_answer (holding tile.old editions.old) width height (message column row edition block.now))) detail.old }
{
    match station::receive(tile, editions, width, height, column, row, edition, block) {
        Ok(received) => {
            *outcome = number_of(received);
            0
        }
        Err(q) => refused(q, detail),
    }
}

// What became of a message, as C gets it: a number.
fn number_of(received: Received) -> u8
    ensures { result ≡ outcome_number received }
{
    match received {
        Received::Taken => 1,
        Received::Repeated => 2,
        Received::Replaced => 3,
        Received::Old => 4,
    }
}

#[unsafe(no_mangle)]
pub extern "C" fn bc4_clear(editions: &mut [u32])
    ensures { editions.new ≡ cleared editions.old }
{
    station::clear(editions);
}
