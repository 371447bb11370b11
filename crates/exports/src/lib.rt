// The calls of `bc4`, `dds`, `bc5` and `station` for C, and for Rust through bindings/rust: the headers in include/ say what each does. Each that can refuse answers the number of the
// refusal, or 0, and writes its values through references. None asks anything of its arguments: what a pointer and a length must be is the header's to say.
#![tactic(auto)]

ghost use Rattle.std.specs.Prelude.{◌≡◌, cond, length};
ghost use Rattle.refusal.specs.Refusals.{refusal_in, number_of, detail_of, first_of, decode_checks, view_checks};
ghost use Rattle.bc4.specs.Calls.{samples_after, error_answer, out_after};
ghost use Rattle.bc4.specs.Word.{encode_by_word, resend_by_word, tile_by_word};
ghost use Rattle.dds.specs.Calls.{write_answer, file_after, read_answer};
ghost use Rattle.exports.specs.Border.{word_of_number, number_in, detail_after, block_after, error_after, held_after, fresh_after, written_after, offset_after};
ghost use Rattle.exports.specs.DdsBorder.{width_after, height_after, snorm_after, start_after};

mod channels;
mod messages;

use bc4::Refusal;
use bc4::word::Word;

// Major, minor and patch number, a byte each: 3.2.0.
#[unsafe(no_mangle)]
pub extern "C" fn bc4_version() -> u32
    ensures { result ≡ 0x030200 }
{
    0x030200
}

fn word_in(options: u32) -> Word
    ensures { result ≡ word_of_number options }
{
    let [flags, limit, quality, last] = options.to_le_bytes();
    bc4::word::read(flags, limit, quality, last)
}

// A refusal's number, and into `detail` what it brings with it: what, index, row and column.
fn refused(q: Refusal, detail: &mut [usize; 4]) -> u32
    ensures number { result ≡ number_of q }
    ensures detail { detail.new ≡ detail_of q detail.old }
{
    refusal::detail(q, detail);
    bc4::number(q) as u32
}

#[unsafe(no_mangle)]
pub extern "C" fn bc4_encode_block(
    samples: &[f32],
    options: u32,
    block: &mut [u8; 8],
    detail: &mut [usize; 4],
) -> u32
    ensures number { result ≡ number_in (refusal_in (encode_by_word samples.now (word_of_number options))) }
    ensures block { block.new ≡ block_after (encode_by_word samples.now (word_of_number options)) block.old }
    ensures detail { detail.new ≡ detail_after (refusal_in (encode_by_word samples.now (word_of_number options))) detail.old }
{
    match bc4::word::encode_block(samples, word_in(options)) {
        Ok(b) => {
            *block = bc4::bytes(b);
            0
        }
        Err(q) => refused(q, detail),
    }
}

#[unsafe(no_mangle)]
pub extern "C" fn bc4_decode_block(
    encoded: &[u8],
    snorm: bool,
    samples: &mut [f32; 16],
    detail: &mut [usize; 4],
) -> u32
    ensures number { result ≡ number_in (first_of (decode_checks encoded.now)) }
    ensures samples { samples.new ≡ samples_after (first_of (decode_checks encoded.now)) encoded.now snorm samples.old }
    ensures detail { detail.new ≡ detail_after (first_of (decode_checks encoded.now)) detail.old }
{
    match bc4::decode_block(encoded, snorm, samples) {
        Err(q) => refused(q, detail),
        Ok(()) => 0,
    }
}

#[unsafe(no_mangle)]
pub extern "C" fn bc4_block_error(
    samples: &[f32],
    encoded: &[u8],
    snorm: bool,
    error: &mut f32,
    detail: &mut [usize; 4],
) -> u32
    ensures number { result ≡ number_in (refusal_in (error_answer samples.now encoded.now snorm)) }
    ensures error { error.new ≡ error_after (error_answer samples.now encoded.now snorm) error.old }
    ensures detail { detail.new ≡ detail_after (refusal_in (error_answer samples.now encoded.now snorm)) detail.old }
{
    match bc4::block_error(samples, encoded, snorm) {
        Ok(e) => {
            *error = e;
            0
        }
        Err(q) => refused(q, detail),
    }
}

// `fresh` is 1 or 0 and no bool: what C lends may hold any byte.
#[unsafe(no_mangle)]
pub extern "C" fn bc4_resend(
    samples: &[f32],
    held: &[u8],
    options: u32,
    block: &mut [u8; 8],
    fresh: &mut u8,
    detail: &mut [usize; 4],
) -> u32
    ensures number { result ≡ number_in (refusal_in (resend_by_word samples.now held.now (word_of_number options))) }
    ensures block { block.new ≡ held_after (resend_by_word samples.now held.now (word_of_number options)) block.old }
    ensures fresh { fresh.new ≡ fresh_after (resend_by_word samples.now held.now (word_of_number options)) fresh.old }
    ensures detail { detail.new ≡ detail_after (refusal_in (resend_by_word samples.now held.now (word_of_number options))) detail.old }
{
    match bc4::word::resend(samples, held, word_in(options)) {
        Ok(h) => {
            *block = bc4::bytes(h.block);
            *fresh = u8::from(h.fresh);
            0
        }
        Err(q) => refused(q, detail),
    }
}

#[unsafe(no_mangle)]
pub extern "C" fn bc4_encode_tile(
    samples: &[f32],
    width: usize,
    height: usize,
    options: u32,
    out: &mut [u8],
    written: &mut usize,
    detail: &mut [usize; 4],
) -> u32
    ensures number { result ≡ number_in (refusal_in (tile_by_word samples.now width height (word_of_number options) (length out.old))) }
    ensures bytes { out.new ≡ out_after (tile_by_word samples.now width height (word_of_number options) (length out.old)) samples.now width height (word_of_number options).options out.old }
    ensures written { written.new ≡ written_after (tile_by_word samples.now width height (word_of_number options) (length out.old)) written.old }
    ensures detail { detail.new ≡ detail_after (refusal_in (tile_by_word samples.now width height (word_of_number options) (length out.old))) detail.old }
{
    match bc4::word::encode_tile(samples, width, height, word_in(options), out) {
        Ok(n) => {
            *written = n;
            0
        }
        Err(q) => refused(q, detail),
    }
}

// Where the block's eight bytes start in the tile: a part of a slice does not cross to C. This and `bc5_block_view` are two of C's calls, a line each over
// `place::block_at`.
#[unsafe(no_mangle)]
pub extern "C" fn bc4_block_view(
    tile: &[u8],
    width: usize,
    height: usize,
    column: usize,
    row: usize,
    offset: &mut usize,
    detail: &mut [usize; 4],
) -> u32
    ensures number { result ≡ number_in (first_of (view_checks (length tile.now) width height column row)) }
    ensures offset { offset.new ≡ offset_after (first_of (view_checks (length tile.now) width height column row)) width column row offset.old }
    ensures detail { detail.new ≡ detail_after (first_of (view_checks (length tile.now) width height column row)) detail.old }
{
    match bc4::view_refusal(tile, width, height, column, row) {
        Err(q) => refused(q, detail),
        Ok(()) => {
            *offset = place::block_at(place::BC4_SIZE, width, column, row);
            0
        }
    }
}

#[unsafe(no_mangle)]
pub extern "C" fn bc4_write_dds(
    tile: &[u8],
    width: usize,
    height: usize,
    snorm: bool,
    out: &mut [u8],
    written: &mut usize,
    detail: &mut [usize; 4],
) -> u32
    ensures number { result ≡ number_in (refusal_in (write_answer (length tile.now) width height (length out.old))) }
    ensures bytes { out.new ≡ file_after (write_answer (length tile.now) width height (length out.old)) tile.now width height snorm out.old }
    ensures written { written.new ≡ written_after (write_answer (length tile.now) width height (length out.old)) written.old }
    ensures detail { detail.new ≡ detail_after (refusal_in (write_answer (length tile.now) width height (length out.old))) detail.old }
{
    match dds::write(tile, width, height, snorm, out) {
        Ok(n) => {
            *written = n;
            0
        }
        Err(q) => refused(q, detail),
    }
}

// Where the tile's bytes start in the file: a part of a slice does not cross to C.
#[unsafe(no_mangle)]
pub extern "C" fn bc4_read_dds(
    file: &[u8],
    width: &mut usize,
    height: &mut usize,
    snorm: &mut u8,
    offset: &mut usize,
    detail: &mut [usize; 4],
) -> u32
    ensures number { result ≡ number_in (refusal_in (read_answer file.now)) }
    ensures width { width.new ≡ width_after (read_answer file.now) width.old }
    ensures height { height.new ≡ height_after (read_answer file.now) height.old }
    ensures snorm { snorm.new ≡ snorm_after (read_answer file.now) snorm.old }
    ensures offset { offset.new ≡ start_after (read_answer file.now) offset.old }
    ensures detail { detail.new ≡ detail_after (refusal_in (read_answer file.now)) detail.old }
{
    match dds::read(file) {
        Ok(picture) => {
            *width = picture.width;
            *height = picture.height;
            *snorm = u8::from(picture.snorm);
            *offset = picture.start;
            0
        }
        Err(q) => refused(q, detail),
    }
}
