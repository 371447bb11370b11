// The calls that take their options as a word of four bytes, which `bc4::word::read` reads. Refusal 8 comes after all others.
ghost use Rattle.std.specs.Prelude.{◌≡◌, length};
ghost use Rattle.bc5.specs.Calls.{out_after};
ghost use Rattle.bc5.specs.Word.{encode_by_word, resend_by_word, tile_by_word};

use crate::{Halves, Kept, checks};
use bc4::word::Word;
use refusal::Refusal;

pub fn encode_block(first: &[f32], second: &[f32], w: Word) -> Result<Halves, Refusal>
    ensures { result ≡ encode_by_word first.now second.now w }
{
    if w.malformed {
        return Err(refusal::or_malformed(checks::encode(first, second)));
    }
    crate::encode_block(first, second, w.options)
}

pub fn resend(first: &[f32], second: &[f32], held: &[u8], w: Word) -> Result<Kept, Refusal>
    ensures { result ≡ resend_by_word first.now second.now held.now w }
{
    if w.malformed {
        let checked = checks::resend(first, second, held, w.options);
        return Err(refusal::or_malformed(checked));
    }
    crate::resend(first, second, held, w.options)
}

pub fn encode_tile(
    first: &[f32],
    second: &[f32],
    width: usize,
    height: usize,
    w: Word,
    out: &mut [u8],
) -> Result<usize, Refusal>
    ensures answer { result ≡ tile_by_word first.now second.now width height w (length out.old) }
    ensures bytes { out.new ≡ out_after result first.now second.now width height w.options out.old }
{
    if w.malformed {
        let checked = checks::tile(first, second, width, height, out.len());
        return Err(refusal::or_malformed(checked));
    }
    crate::encode_tile(first, second, width, height, w.options, out)
}
