// Document 01, "Calls and numbers", and document 02: every refusal, its number, what it brings with it, and the checks of each call in their order.
#![tactic(auto)]

ghost use Rattle.std.specs.Prelude.{◌≡◌, length, IfOk};
ghost use Rattle.refusal.specs.Refusals.{refusal_in, first_of, or_malformed, encode_checks, decode_checks, error_checks, resend_checks, tile_checks, view_checks};

mod nan;
mod shape;
mod shown;
mod told;

pub use nan::{no_nan_in, no_tile_nan_in};
use options::Options;
use place::Size;
pub use shape::{size, tile_bytes, view_of};
pub use told::{detail, number};

#[derive(Clone, Copy)]
pub enum Refusal {
    // A side of the tile is 0.
    SideIsZero(Side),
    // The sample count is not 16, or not width * height.
    SampleCount,
    // The encoded length is not that of a block, or not that of the tile's blocks; or a record of editions has not one entry for each block.
    EncodedLength,
    // The output is shorter than the tile's blocks, or than a file of them.
    OutputLength,
    // A resend with dither.
    DitheredResend,
    // The column or the row of blocks is none of the tile's.
    NoSuchBlock,
    // A sample of a block is NaN: the lowest index.
    SampleIsNan(usize),
    // The options word of a record is malformed.
    WordMalformed,
    // A side of the tile is over 1,024.
    SideTooLarge(Side),
    // A side of the tile is no multiple of 4.
    SideNotMultipleOf4(Side),
    // A sample of a tile is NaN, number 7 too: where the one with the lowest index stands.
    TileSampleIsNan(Spot),
    // A field of a DDS file's headers is wrong.
    DdsHeader(Field),
    // What follows the headers of a DDS file is not width * height / 2 bytes.
    DdsBody,
    // The samples of one of two channels are refused, by the number that this has where there is one: the first channel that is wrong, and what is.
    InChannel(Fault),
    // The place holds a message's edition with other bytes.
    EditionReused,
    // A message's edition is 32,768 from the one that the place holds: as far ahead as behind.
    EditionOpposite,
}

// The channels of a block or a tile that has two.
#[derive(Clone, Copy)]
pub enum Channel {
    First,
    Second,
}

// What the samples of a channel are refused for.
#[derive(Clone, Copy)]
pub enum Fault {
    // Number 2.
    Count(Channel),
    // Number 7: the lowest index in that channel.
    Nan(Channel, usize),
    // Number 7 of a tile: where the one with the lowest index stands in that channel.
    TileNan(Channel, Spot),
}

// The sides of a tile.
#[derive(Clone, Copy)]
pub enum Side {
    Width,
    Height,
}

// Where a sample of a tile stands.
#[derive(Clone, Copy)]
pub struct Spot {
    pub index: usize,
    pub row: usize,
    pub column: usize,
}

// The fields of a DDS file that a refusal can name, but for its sides.
#[derive(Clone, Copy)]
pub enum Field {
    // The first 128 bytes: the file is shorter.
    Header,
    // The 20 bytes that DX10 asks for after them: the file is shorter.
    Extension,
    Magic,
    HeaderSize,
    FourCharacters,
    ExtensionFormat,
    MipCount,
    Depth,
    CubeFaces,
    ArraySize,
}

#[tactic(auto, unfolding(crate::specs::Refusals::first_of))]
pub fn encode(samples: &[f32]) -> Result<(), Refusal>
    ensures { result ≡ first_of (encode_checks samples.now) }
{
    if samples.len() != 16 {
        return Err(Refusal::SampleCount);
    }
    nan::no_nan(samples)
}

#[tactic(auto, unfolding(crate::specs::Refusals::first_of))]
pub fn decode(encoded: &[u8]) -> Result<(), Refusal>
    ensures { result ≡ first_of (decode_checks encoded.now) }
{
    if encoded.len() != place::BC4_SIZE {
        return Err(Refusal::EncodedLength);
    }
    Ok(())
}

#[tactic(auto, unfolding(crate::specs::Refusals::first_of))]
pub fn error(samples: &[f32], encoded: &[u8]) -> Result<(), Refusal>
    ensures { result ≡ first_of (error_checks samples.now encoded.now) }
{
    if samples.len() != 16 {
        return Err(Refusal::SampleCount);
    }
    if encoded.len() != place::BC4_SIZE {
        return Err(Refusal::EncodedLength);
    }
    nan::no_nan(samples)
}

#[tactic(auto, unfolding(crate::specs::Refusals::first_of))]
pub fn resend(samples: &[f32], held: &[u8], o: Options) -> Result<(), Refusal>
    ensures { result ≡ first_of (resend_checks samples.now held.now o) }
{
    if samples.len() != 16 {
        return Err(Refusal::SampleCount);
    }
    if held.len() != place::BC4_SIZE {
        return Err(Refusal::EncodedLength);
    }
    if o.dither {
        return Err(Refusal::DitheredResend);
    }
    nan::no_nan(samples)
}

// `room` is the length of the output.
#[tactic(auto, using(crate::proofs::Firsts::passed_first, crate::proofs::Firsts::passes), unfolding(crate::specs::Refusals::first_of))]
pub fn tile(samples: &[f32], width: usize, height: usize, room: usize) -> Result<Size, Refusal>
    ensures refusal { refusal_in result ≡ first_of (tile_checks samples.now width height room) }
    ensures size { IfOk result (λ size. (size.width ≡ width) × (size.height ≡ height)) }
{
    let size = size(width, height)?;
    if samples.len() != size.area() {
        return Err(Refusal::SampleCount);
    }
    if room < size.encoded_length(place::BC4_SIZE) {
        return Err(Refusal::OutputLength);
    }
    nan::no_tile_nan(samples, size)?;
    Ok(size)
}

pub fn view(
    tile: &[u8],
    width: usize,
    height: usize,
    column: usize,
    row: usize,
) -> Result<(), Refusal>
    ensures { result ≡ first_of (view_checks (length tile.now) width height column row) }
{
    view_of(place::BC4_SIZE, tile.len(), width, height, column, row)
}

// Of a call whose options word is malformed: what the call refuses for another reason comes first.
pub fn or_malformed<T: Copy>(checked: Result<T, Refusal>) -> Refusal
    ensures { result ≡ or_malformed (refusal_in checked) }
{
    checked.err().unwrap_or(Refusal::WordMalformed)
}
