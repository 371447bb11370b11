// The calls of `bc5` for C: include/bc5.h says what each does.
ghost use Rattle.std.specs.Prelude.{◌≡◌, length};
ghost use Rattle.refusal.specs.Refusals.{refusal_in, first_of};
ghost use Rattle.bc4.specs.Calls.{samples_after};
ghost use Rattle.bc5.specs.Checks.{decode_checks, view_checks};
ghost use Rattle.bc5.specs.Calls.{first_half, second_half, error_answer, out_after};
ghost use Rattle.bc5.specs.Word.{encode_by_word, resend_by_word, tile_by_word};
ghost use Rattle.exports.specs.Border.{word_of_number, number_in, detail_after, written_after};
ghost use Rattle.exports.specs.ChannelsBorder.{pair_after, pair_errors_after, pair_held_after, pair_fresh_after, pair_offset_after};

use crate::{refused, word_in};
use bc5::Halves;

#[unsafe(no_mangle)]
pub extern "C" fn bc5_encode_block(
    first: &[f32],
    second: &[f32],
    options: u32,
    block: &mut [u8; 16],
    detail: &mut [usize; 4],
) -> u32
    ensures number { result ≡ number_in (refusal_in (encode_by_word first.now second.now (word_of_number options))) }
    ensures block { block.new ≡ pair_after (encode_by_word first.now second.now (word_of_number options)) block.old }
    ensures detail { detail.new ≡ detail_after (refusal_in (encode_by_word first.now second.now (word_of_number options))) detail.old }
{
    match bc5::word::encode_block(first, second, word_in(options)) {
        Ok(b) => {
            *block = bc5::bytes(b);
            0
        }
        Err(q) => refused(q, detail),
    }
}

#[unsafe(no_mangle)]
pub extern "C" fn bc5_decode_block(
    encoded: &[u8],
    snorm: bool,
    first: &mut [f32; 16],
    second: &mut [f32; 16],
    detail: &mut [usize; 4],
) -> u32
    ensures number { result ≡ number_in (first_of (decode_checks encoded.now)) }
    ensures first { first.new ≡ samples_after (first_of (decode_checks encoded.now)) (first_half encoded.now) snorm first.old }
    ensures second { second.new ≡ samples_after (first_of (decode_checks encoded.now)) (second_half encoded.now) snorm second.old }
    ensures detail { detail.new ≡ detail_after (first_of (decode_checks encoded.now)) detail.old }
{
    match bc5::decode_block(encoded, snorm, first, second) {
        Err(q) => refused(q, detail),
        Ok(()) => 0,
    }
}

#[unsafe(no_mangle)]
pub extern "C" fn bc5_block_error(
    first: &[f32],
    second: &[f32],
    encoded: &[u8],
    snorm: bool,
    errors: &mut [f32; 2],
    detail: &mut [usize; 4],
) -> u32
    ensures number { result ≡ number_in (refusal_in (error_answer first.now second.now encoded.now snorm)) }
    ensures errors { errors.new ≡ pair_errors_after (error_answer first.now second.now encoded.now snorm) errors.old }
    ensures detail { detail.new ≡ detail_after (refusal_in (error_answer first.now second.now encoded.now snorm)) detail.old }
{
    match bc5::block_error(first, second, encoded, snorm) {
        Ok(e) => {
            *errors = [e.first, e.second];
            0
        }
        Err(q) => refused(q, detail),
    }
}

#[unsafe(no_mangle)]
pub extern "C" fn bc5_resend(
    first: &[f32],
    second: &[f32],
    held: &[u8],
    options: u32,
    block: &mut [u8; 16],
    fresh: &mut [u8; 2],
    detail: &mut [usize; 4],
) -> u32
    ensures number { result ≡ number_in (refusal_in (resend_by_word first.now second.now held.now (word_of_number options))) }
    ensures block { block.new ≡ pair_held_after (resend_by_word first.now second.now held.now (word_of_number options)) block.old }
    ensures fresh { fresh.new ≡ pair_fresh_after (resend_by_word first.now second.now held.now (word_of_number options)) fresh.old }
    ensures detail { detail.new ≡ detail_after (refusal_in (resend_by_word first.now second.now held.now (word_of_number options))) detail.old }
{
    match bc5::word::resend(first, second, held, word_in(options)) {
        Ok(kept) => {
            *block = bc5::bytes(Halves {
                first: kept.first.block,
                second: kept.second.block,
            });
            *fresh = [u8::from(kept.first.fresh), u8::from(kept.second.fresh)];
            0
        }
        Err(q) => refused(q, detail),
    }
}

#[unsafe(no_mangle)]
pub extern "C" fn bc5_encode_tile(
    first: &[f32],
    second: &[f32],
    width: usize,
    height: usize,
    options: u32,
    out: &mut [u8],
    written: &mut usize,
    detail: &mut [usize; 4],
) -> u32
    ensures number { result ≡ number_in (refusal_in (tile_by_word first.now second.now width height (word_of_number options) (length out.old))) }
    ensures bytes { out.new ≡ out_after (tile_by_word first.now second.now width height (word_of_number options) (length out.old)) first.now second.now width height (word_of_number options).options out.old }
    ensures written { written.new ≡ written_after (tile_by_word first.now second.now width height (word_of_number options) (length out.old)) written.old }
    ensures detail { detail.new ≡ detail_after (refusal_in (tile_by_word first.now second.now width height (word_of_number options) (length out.old))) detail.old }
{
    match bc5::word::encode_tile(first, second, width, height, word_in(options), out) {
        Ok(n) => {
            *written = n;
            0
        }
        Err(q) => refused(q, detail),
    }
}

// Where the block's sixteen bytes start in the tile: a part of a slice does not cross to C.
#[unsafe(no_mangle)]
pub extern "C" fn bc5_block_view(
    tile: &[u8],
    width: usize,
    height: usize,
    column: usize,
    row: usize,
    offset: &mut usize,
    detail: &mut [usize; 4],
) -> u32
    ensures number { result ≡ number_in (first_of (view_checks (length tile.now) width height column row)) }
    ensures offset { offset.new ≡ pair_offset_after (first_of (view_checks (length tile.now) width height column row)) width column row offset.old }
    ensures detail { detail.new ≡ detail_after (first_of (view_checks (length tile.now) width height column row)) detail.old }
{
    match bc5::view_refusal(tile, width, height, column, row) {
        Err(q) => refused(q, detail),
        Ok(()) => {
            *offset = place::block_at(place::BC5_SIZE, width, column, row);
            0
        }
    }
}
