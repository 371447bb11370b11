// Two channels, as a current map has them: document 02, 3/12. A block is sixteen bytes, the first channel's BC4 block and then the second's. A call looks at
// both channels before it makes either half; each half is made by the function that makes it for `bc4`.
#![tactic(auto)]

ghost use Rattle.std.specs.Prelude.{◌≡◌, length};
ghost use Rattle.refusal.specs.Refusals.{first_of};
ghost use Rattle.bc4.specs.Calls.{samples_after};
ghost use Rattle.bc5.specs.Checks.{decode_checks, view_checks};
ghost use Rattle.bc5.specs.Calls.{first_half, second_half, halves_bytes, encode_answer, error_answer, resend_answer, tile_answer, out_after, view_of};

mod checks;
pub mod word;

pub use bc4::{Options, Quantization, Refusal};
pub use refusal::{Channel, Fault};

// A block: its two halves, each as `bc4` hands it back.
#[derive(Clone, Copy)]
pub struct Halves {
    pub first: u64,
    pub second: u64,
}

// The block error of each channel.
#[derive(Clone, Copy)]
pub struct Errors {
    pub first: f32,
    pub second: f32,
}

// The halves to hold from now on, and of each whether it is the fresh one.
#[derive(Clone, Copy)]
pub struct Kept {
    pub first: bc4::Kept,
    pub second: bc4::Kept,
}

// The sixteen bytes of a block, in order.
pub fn bytes(block: Halves) -> [u8; 16]
    ensures { result ≡ halves_bytes block }
{
    let a = bc4::bytes(block.first);
    let b = bc4::bytes(block.second);
    [
        a[0], a[1], a[2], a[3], a[4], a[5], a[6], a[7], b[0], b[1], b[2], b[3], b[4], b[5], b[6],
        b[7],
    ]
}

pub fn encode_block(first: &[f32], second: &[f32], o: Options) -> Result<Halves, Refusal>
    ensures { result ≡ encode_answer first.now second.now o }
{
    checks::encode(first, second)?;
    let a = place::gather(first, 4, 0, 0);
    let b = place::gather(second, 4, 0, 0);
    Ok(Halves {
        first: encode::compress_bc4_block(&a, o),
        second: encode::compress_bc4_block(&b, o),
    })
}

// Sixteen samples of each channel into the caller's arrays, which stay as they were on a refusal.
pub fn decode_block(
    encoded: &[u8],
    snorm: bool,
    first: &mut [f32; 16],
    second: &mut [f32; 16],
) -> Result<(), Refusal>
    ensures answer { result ≡ first_of (decode_checks encoded.now) }
    ensures first { first.new ≡ samples_after result (first_half encoded.now) snorm first.old }
    ensures second { second.new ≡ samples_after result (second_half encoded.now) snorm second.old }
{
    checks::decode(encoded)?;
    decode::decode_into(index_list::from_bytes(&encoded[0..8]), snorm, first);
    decode::decode_into(index_list::from_bytes(&encoded[8..16]), snorm, second);
    Ok(())
}

pub fn block_error(
    first: &[f32],
    second: &[f32],
    encoded: &[u8],
    snorm: bool,
) -> Result<Errors, Refusal>
    ensures { result ≡ error_answer first.now second.now encoded.now snorm }
{
    checks::error(first, second, encoded)?;
    let a = place::gather(first, 4, 0, 0);
    let b = place::gather(second, 4, 0, 0);
    Ok(Errors {
        first: decode::block_error(&a, index_list::from_bytes(&encoded[0..8]), snorm),
        second: decode::block_error(&b, index_list::from_bytes(&encoded[8..16]), snorm),
    })
}

// Each half by itself: the fresh one exactly when its block error is strictly below that of the held one.
pub fn resend(first: &[f32], second: &[f32], held: &[u8], o: Options) -> Result<Kept, Refusal>
    ensures { result ≡ resend_answer first.now second.now held.now o }
{
    checks::resend(first, second, held, o)?;
    let a = place::gather(first, 4, 0, 0);
    let b = place::gather(second, 4, 0, 0);
    Ok(Kept {
        first: bc4::better(&a, index_list::from_bytes(&held[0..8]), o),
        second: bc4::better(&b, index_list::from_bytes(&held[8..16]), o),
    })
}

// The blocks of a tile, row by row from the top left, into the first width * height bytes of `out`: how many were written. Later bytes stay.
pub fn encode_tile(
    first: &[f32],
    second: &[f32],
    width: usize,
    height: usize,
    o: Options,
    out: &mut [u8],
) -> Result<usize, Refusal>
    ensures answer { result ≡ tile_answer first.now second.now width height (length out.old) }
    ensures bytes { out.new ≡ out_after result first.now second.now width height o out.old }
{
    let size = checks::tile(first, second, width, height, out.len())?;
    tile::encode_pairs(first, second, size, o, out);
    Ok(size.encoded_length(place::BC5_SIZE))
}

// The sixteen bytes of one block: that part of the caller's tile, or an empty part where `view_refusal` refuses. This and the next are calls of `bc5` as
// those of `bc4` are its own; what they share is `tile::block_part` and `refusal::view_of`.
pub fn block_view(tile: &[u8], width: usize, height: usize, column: usize, row: usize) -> &[u8]
    ensures { result.now ≡ view_of tile.now width height column row }
{
    match view_refusal(tile, width, height, column, row) {
        Err(_) => &tile[0..0],
        Ok(()) => tile::block_part(place::BC5_SIZE, tile, width, column, row),
    }
}

pub fn view_refusal(
    tile: &[u8],
    width: usize,
    height: usize,
    column: usize,
    row: usize,
) -> Result<(), Refusal>
    ensures { result ≡ first_of (view_checks (length tile.now) width height column row) }
{
    refusal::view_of(place::BC5_SIZE, tile.len(), width, height, column, row)
}
