// What each call on two channels refuses, in its order. Each check is BC4's own, of the first channel and then of the second.
ghost use Rattle.std.specs.Prelude.{◌≡◌, IfOk};
ghost use Rattle.refusal.specs.Refusals.{refusal_in, first_of};
ghost use Rattle.bc5.specs.Checks.{nan_checks, tile_nan_checks, encode_checks, decode_checks, error_checks, resend_checks, tile_checks};

use bc4::Options;
use place::Size;
use refusal::{Channel, Fault, Refusal};

fn no_nans(first: &[f32], second: &[f32]) -> Result<(), Refusal>
    ensures { result ≡ first_of (nan_checks first.now second.now) }
{
    refusal::no_nan_in(Channel::First, first)?;
    refusal::no_nan_in(Channel::Second, second)
}

#[tactic(auto, using(place::proofs::Places::size_good))]
fn no_tile_nans(first: &[f32], second: &[f32], size: Size) -> Result<(), Refusal>
    ensures { result ≡ first_of (tile_nan_checks first.now second.now size.width) }
{
    refusal::no_tile_nan_in(Channel::First, first, size.width)?;
    refusal::no_tile_nan_in(Channel::Second, second, size.width)
}

#[tactic(auto, unfolding(refusal::specs::Refusals::first_of))]
pub fn encode(first: &[f32], second: &[f32]) -> Result<(), Refusal>
    ensures { result ≡ first_of (encode_checks first.now second.now) }
{
    if first.len() != 16 {
        return Err(Refusal::InChannel(Fault::Count(Channel::First)));
    }
    if second.len() != 16 {
        return Err(Refusal::InChannel(Fault::Count(Channel::Second)));
    }
    no_nans(first, second)
}

// As `refusal::decode`, for twice the bytes. One function for both would be handed no more than the length that it compares with.
#[tactic(auto, unfolding(refusal::specs::Refusals::first_of))]
pub fn decode(encoded: &[u8]) -> Result<(), Refusal>
    ensures { result ≡ first_of (decode_checks encoded.now) }
{
    if encoded.len() != place::BC5_SIZE {
        return Err(Refusal::EncodedLength);
    }
    Ok(())
}

#[tactic(auto, unfolding(refusal::specs::Refusals::first_of))]
pub fn error(first: &[f32], second: &[f32], encoded: &[u8]) -> Result<(), Refusal>
    ensures { result ≡ first_of (error_checks first.now second.now encoded.now) }
{
    if first.len() != 16 {
        return Err(Refusal::InChannel(Fault::Count(Channel::First)));
    }
    if second.len() != 16 {
        return Err(Refusal::InChannel(Fault::Count(Channel::Second)));
    }
    if encoded.len() != place::BC5_SIZE {
        return Err(Refusal::EncodedLength);
    }
    no_nans(first, second)
}

#[tactic(auto, unfolding(refusal::specs::Refusals::first_of))]
pub fn resend(first: &[f32], second: &[f32], held: &[u8], o: Options) -> Result<(), Refusal>
    ensures { result ≡ first_of (resend_checks first.now second.now held.now o) }
{
    if first.len() != 16 {
        return Err(Refusal::InChannel(Fault::Count(Channel::First)));
    }
    if second.len() != 16 {
        return Err(Refusal::InChannel(Fault::Count(Channel::Second)));
    }
    if held.len() != place::BC5_SIZE {
        return Err(Refusal::EncodedLength);
    }
    if o.dither {
        return Err(Refusal::DitheredResend);
    }
    no_nans(first, second)
}

// `room` is the length of the output.
#[tactic(auto, using(refusal::proofs::Firsts::passed_first, refusal::proofs::Firsts::passes), unfolding(refusal::specs::Refusals::first_of))]
pub fn tile(
    first: &[f32],
    second: &[f32],
    width: usize,
    height: usize,
    room: usize,
) -> Result<Size, Refusal>
    ensures refusal { refusal_in result ≡ first_of (tile_checks first.now second.now width height room) }
    ensures size { IfOk result (λ size. (size.width ≡ width) × (size.height ≡ height)) }
{
    let size = refusal::size(width, height)?;
    let area = size.area();
    if first.len() != area {
        return Err(Refusal::InChannel(Fault::Count(Channel::First)));
    }
    if second.len() != area {
        return Err(Refusal::InChannel(Fault::Count(Channel::Second)));
    }
    if room < size.encoded_length(place::BC5_SIZE) {
        return Err(Refusal::OutputLength);
    }
    no_tile_nans(first, second, size)?;
    Ok(size)
}
