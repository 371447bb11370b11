// What a board and a station link: document 01, "Calls and numbers". A block's eight bytes are handed back as one number, byte 0 lowest; `bytes`
// lays them out.
#![tactic(auto)]

ghost use Rattle.std.specs.Prelude.{◌≡◌, length};
ghost use Rattle.index_list.specs.Layout.{bytes_of};
ghost use Rattle.refusal.specs.Refusals.{first_of, decode_checks, view_checks};
ghost use Rattle.bc4.specs.Calls.{encode_answer, samples_after, error_answer, better_of, resend_answer, tile_answer, out_after, view_of};

pub mod word;

pub use options::{Options, Quantization};
pub use refusal::{Refusal, Side, Spot, number};

// The bytes to hold from now on, and whether they are the fresh ones. Both are handed on in either case, so that an enum of the two is no plainer.
#[derive(Clone, Copy)]
pub struct Kept {
    pub block: u64,
    pub fresh: bool,
}

// The eight bytes of a block, in order.
pub fn bytes(block: u64) -> [u8; 8]
    ensures { result ≡ bytes_of block }
{
    index_list::bytes(block)
}

// The samples of a block call that is not refused, as an array.
fn sixteen(samples: &[f32]) -> [f32; 16]
    requires { length samples.now ≡ 16 }
    ensures { result ≡ samples.now }
{
    place::gather(samples, 4, 0, 0)
}

pub fn encode_block(samples: &[f32], o: Options) -> Result<u64, Refusal>
    ensures { result ≡ encode_answer samples.now o }
{
    refusal::encode(samples)?;
    let b = sixteen(samples);
    Ok(encode::compress_bc4_block(&b, o))
}

// Sixteen samples into the caller's array, which stays as it was on a refusal.
pub fn decode_block(encoded: &[u8], snorm: bool, samples: &mut [f32; 16]) -> Result<(), Refusal>
    ensures answer { result ≡ first_of (decode_checks encoded.now) }
    ensures samples { samples.new ≡ samples_after result encoded.now snorm samples.old }
{
    refusal::decode(encoded)?;
    decode::decode_into(index_list::from_bytes(encoded), snorm, samples);
    Ok(())
}

pub fn block_error(samples: &[f32], encoded: &[u8], snorm: bool) -> Result<f32, Refusal>
    ensures { result ≡ error_answer samples.now encoded.now snorm }
{
    refusal::error(samples, encoded)?;
    let b = sixteen(samples);
    Ok(decode::block_error(&b, index_list::from_bytes(encoded), snorm))
}

// Encodes afresh, and hands back the fresh bytes exactly when their block error is strictly below that of the held ones.
pub fn resend(samples: &[f32], held: &[u8], o: Options) -> Result<Kept, Refusal>
    ensures { result ≡ resend_answer samples.now held.now o }
{
    refusal::resend(samples, held, o)?;
    let b = sixteen(samples);
    Ok(better(&b, index_list::from_bytes(held), o))
}

// Of samples that were checked: the choice of a resend.
#[tactic(auto, unfolding(crate::specs::Calls::better_of))]
pub fn better(b: &[f32; 16], held: u64, o: Options) -> Kept
    ensures { result ≡ better_of b.now held o }
{
    let fresh = encode::compress_bc4_block(b, o);
    let fresh_error = decode::block_error(b, fresh, o.snorm);
    let held_error = decode::block_error(b, held, o.snorm);
    if fresh_error < held_error {
        return Kept {
            block: fresh,
            fresh: true,
        };
    }
    Kept {
        block: held,
        fresh: false,
    }
}

// The blocks of a tile, row by row from the top left, into the first width * height / 2 bytes of `out`: how many were written. Later bytes stay.
pub fn encode_tile(
    samples: &[f32],
    width: usize,
    height: usize,
    o: Options,
    out: &mut [u8],
) -> Result<usize, Refusal>
    ensures answer { result ≡ tile_answer samples.now width height (length out.old) }
    ensures bytes { out.new ≡ out_after result samples.now width height o out.old }
{
    let size = refusal::tile(samples, width, height, out.len())?;
    tile::encode_rows(samples, size, o, out);
    Ok(size.encoded_length(place::BC4_SIZE))
}

// The eight bytes of one block: that part of the caller's tile, or an empty part where `view_refusal` refuses.
pub fn block_view(tile: &[u8], width: usize, height: usize, column: usize, row: usize) -> &[u8]
    ensures { result.now ≡ view_of tile.now width height column row }
{
    match view_refusal(tile, width, height, column, row) {
        Err(_) => &tile[0..0],
        Ok(()) => tile::block_part(place::BC4_SIZE, tile, width, column, row),
    }
}

pub fn view_refusal(
    tile: &[u8],
    width: usize,
    height: usize,
    column: usize,
    row: usize,
) -> Result<(), Refusal>
    ensures { result ≡ first_of (view_checks (length tile.now) width height column row) }
{
    refusal::view(tile, width, height, column, row)
}
