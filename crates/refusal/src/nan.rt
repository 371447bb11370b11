// The first sample that is NaN.
ghost use Rattle.std.specs.Prelude.{◌≡◌, [], ◌∷◌, ◌<◌, ltb, length, if◌then◌else◌};
ghost use Rattle.std.specs.declared.option.Option.TheVariants.{Some, None};
ghost use Rattle.refusal.specs.Refusals.{first_of, first_nan, nan_check, nan_in, spot_of, tile_nan_check, tile_nan_in};

use crate::{Channel, Fault, Refusal, Spot};
use place::Size;

// Looks at all of them: without a way out of its loop it takes four at a time.
fn any_nan(samples: &[f32]) -> bool
    ensures { result ≡ ltb (first_nan samples.now) (length samples.now) }
{
    let mut found = false;
    for x in samples {
        found = found | (*x != *x);
    }
    found
}

fn first_nan(samples: &[f32]) -> Option<usize>
    ensures { result ≡ (if ltb (first_nan samples.now) (length samples.now) then Some (first_nan samples.now) else None) }
{
    if any_nan(samples) {
        for (index, x) in samples.iter().enumerate() {
            if *x != *x {
                return Some(index);
            }
        }
    }
    None
}

// Where it stands in a tile.
fn first_spot(samples: &[f32], width: usize) -> Option<Spot>
    requires { 0 < width }
    ensures { result ≡ (if ltb (first_nan samples.now) (length samples.now) then Some (spot_of width (first_nan samples.now)) else None) }
{
    let index = first_nan(samples)?;
    Some(Spot {
        index,
        row: index / width,
        column: index % width,
    })
}

// Four checks, of a block and a tile, alone or of a channel: what they share is above, and each makes a refusal of its own of it.
#[tactic(auto, unfolding(crate::specs::Refusals::first_of))]
pub fn no_nan(samples: &[f32]) -> Result<(), Refusal>
    ensures { result ≡ first_of (nan_check samples.now ∷ []) }
{
    match first_nan(samples) {
        Some(index) => Err(Refusal::SampleIsNan(index)),
        None => Ok(()),
    }
}

#[tactic(auto, using(place::proofs::Places::size_good), unfolding(crate::specs::Refusals::first_of))]
pub fn no_tile_nan(samples: &[f32], size: Size) -> Result<(), Refusal>
    ensures { result ≡ first_of (tile_nan_check samples.now size.width ∷ []) }
{
    match first_spot(samples, size.width) {
        Some(spot) => Err(Refusal::TileSampleIsNan(spot)),
        None => Ok(()),
    }
}

// The same of one of two channels, which the refusal says.
#[tactic(auto, unfolding(crate::specs::Refusals::first_of))]
pub fn no_nan_in(channel: Channel, samples: &[f32]) -> Result<(), Refusal>
    ensures { result ≡ first_of (nan_in channel samples.now ∷ []) }
{
    match first_nan(samples) {
        Some(index) => Err(Refusal::InChannel(Fault::Nan(channel, index))),
        None => Ok(()),
    }
}

#[tactic(auto, unfolding(crate::specs::Refusals::first_of))]
pub fn no_tile_nan_in(channel: Channel, samples: &[f32], width: usize) -> Result<(), Refusal>
    requires { 0 < width }
    ensures { result ≡ first_of (tile_nan_in channel samples.now width ∷ []) }
{
    match first_spot(samples, width) {
        Some(spot) => Err(Refusal::InChannel(Fault::TileNan(channel, spot))),
        None => Ok(()),
    }
}
