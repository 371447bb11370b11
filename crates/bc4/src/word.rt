// Document 01, "The program": the options as a word of four bytes, and the calls that take one. Refusal 8 comes after all others.
ghost use Rattle.std.specs.Prelude.{◌≡◌, length};
ghost use Rattle.bc4.specs.Calls.{out_after};
ghost use Rattle.bc4.specs.Word.{options_of, quality_of, word_of, encode_by_word, resend_by_word, tile_by_word};

use crate::Kept;
use options::{Options, Quantization};
use refusal::Refusal;

// A flag beside the options, and no Result: a malformed word is refused after all else, and a resend with dither by its options before that.
#[derive(Clone, Copy)]
pub struct Word {
    pub options: Options,
    pub malformed: bool,
}

fn options(flags: u8, limit: u8, quality: Quantization) -> Options
    ensures { result ≡ options_of flags limit quality }
{
    Options {
        dither: flags % 2 == 1,
        snorm: flags / 2 % 2 == 1,
        brute_force: flags / 4 % 2 == 1,
        use_inter4: flags / 8 % 2 == 1,
        use_inter4_heuristic: flags / 16 % 2 == 1,
        quantization: quality,
        fast_iter: flags / 32 % 2 == 1,
        max_refine_iter: limit,
        size_variations: flags / 64 % 2 == 1,
        iter_initial_inter4: flags / 128 % 2 == 1,
    }
}

// Not a TryFrom: a malformed word has options too.
fn quality_of(byte: u8) -> Quantization
    ensures { result ≡ quality_of byte }
{
    if byte == 0 {
        return Quantization::Round;
    }
    if byte == 1 {
        return Quantization::MediumQuality;
    }
    Quantization::HighQuality
}

#[tactic(auto, unfolding(crate::specs::Word::word_of))]
pub fn read(flags: u8, limit: u8, quality: u8, last: u8) -> Word
    ensures { result ≡ word_of flags limit quality last }
{
    Word {
        options: options(flags, limit, quality_of(quality)),
        malformed: (quality > 2) | (last != 0),
    }
}

pub fn encode_block(samples: &[f32], w: Word) -> Result<u64, Refusal>
    ensures { result ≡ encode_by_word samples.now w }
{
    if w.malformed {
        return Err(refusal::or_malformed(refusal::encode(samples)));
    }
    crate::encode_block(samples, w.options)
}

pub fn resend(samples: &[f32], held: &[u8], w: Word) -> Result<Kept, Refusal>
    ensures { result ≡ resend_by_word samples.now held.now w }
{
    if w.malformed {
        return Err(refusal::or_malformed(refusal::resend(samples, held, w.options)));
    }
    crate::resend(samples, held, w.options)
}

pub fn encode_tile(
    samples: &[f32],
    width: usize,
    height: usize,
    w: Word,
    out: &mut [u8],
) -> Result<usize, Refusal>
    ensures answer { result ≡ tile_by_word samples.now width height w (length out.old) }
    ensures bytes { out.new ≡ out_after result samples.now width height w.options out.old }
{
    if w.malformed {
        let checked = refusal::tile(samples, width, height, out.len());
        return Err(refusal::or_malformed(checked));
    }
    crate::encode_tile(samples, width, height, w.options, out)
}
