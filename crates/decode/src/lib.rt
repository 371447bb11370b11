// Document 01, "Eight bytes" and block error. A block is one number, byte 0 lowest.
#![tactic(auto)]

ghost use Rattle.std.specs.Prelude.{◌≡◌, [], ◌∷◌};
ghost use Rattle.values.specs.Values.{level_value};
ghost use Rattle.block.specs.Samples.{per_pixel};
ghost use Rattle.decode.specs.Meaning.{is_six, six_values, eight_of, picked, decoded};
ghost use Rattle.decode.specs.BlockError.{sample_error, error_to, block_error};

use index_list::IndexList;
use palette::inter4::Inter4Palette;
use palette::inter6::Inter6Palette;

// Whether two endpoint bytes mean six values: c0 > c1, signed for snorm.
pub fn is_six(c0: u8, c1: u8, snorm: bool) -> bool
    ensures { result ≡ is_six c0 c1 snorm }
{
    values::byte_below(c1, c0, snorm)
}

#[tactic(auto, unfolding(crate::specs::Meaning::six_values))]
fn six_values(c0: f32, c1: f32) -> [f32; 8]
    ensures { result ≡ six_values c0 c1 }
{
    let p = Inter6Palette::new(c0, c1);
    [
        c0,
        c1,
        p.blended(6),
        p.blended(5),
        p.blended(4),
        p.blended(3),
        p.blended(2),
        p.blended(1),
    ]
}

fn eight_values(c0: f32, c1: f32, six: bool) -> [f32; 8]
    ensures { result ≡ eight_of c0 c1 six }
{
    if six {
        return six_values(c0, c1);
    }
    let p = Inter4Palette::new(c0, c1);
    p.colors
}

// Eight values looked up sixteen times.
fn look_up(list: IndexList, eight: [f32; 8], out: &mut [f32; 16])
    ensures { out.new ≡ per_pixel (picked eight list.data) }
{
    *out = std::array::from_fn(|i| eight[list.get(i) as usize]);
}

// The floats of two levels, both by one conversion: that of a single number keeps the rest of its register, and so waits for what the block before it
// left there.
fn end_values(l0: u8, l1: u8, snorm: bool) -> [f32; 2]
    ensures { result ≡ level_value l0 snorm ∷ level_value l1 snorm ∷ [] }
{
    let levels = [l0, l1];
    std::array::from_fn(|i| values::level_value(levels[i], snorm))
}

// Sixteen samples into the caller's array. The format is told apart here, so that each gets straight code.
pub fn decode_into(block: u64, snorm: bool, out: &mut [f32; 16])
    ensures { out.new ≡ decoded block snorm }
{
    let [c0, c1, ..] = block.to_le_bytes();
    let list = IndexList { data: block >> 16 };
    if snorm {
        let e = end_values(values::s8::norm(c0), values::s8::norm(c1), true);
        look_up(list, eight_values(e[0], e[1], is_six(c0, c1, true)), out);
    } else {
        let e = end_values(c0, c1, false);
        look_up(list, eight_values(e[0], e[1], is_six(c0, c1, false)), out);
    }
}

#[tactic(auto, unfolding(crate::specs::BlockError::sample_error))]
fn sample_error(sample: f32, value: f32) -> f32
    ensures { result ≡ sample_error sample value }
{
    let d = floats::entry_clamp(sample) - value;
    d * d
}

fn error_sum(samples: &[f32; 16], values: &[f32; 16]) -> f32
    ensures { result ≡ error_to samples.now values.now 16 }
{
    let mut sum = 0.0f32;
    for (s, v) in samples.iter().zip(values) {
        sum = sum + sample_error(*s, *v);
    }
    sum
}

#[tactic(auto, unfolding(crate::specs::BlockError::block_error))]
pub fn block_error(samples: &[f32; 16], block: u64, snorm: bool) -> f32
    ensures { result ≡ block_error samples.now block snorm }
{
    let mut values = [0.0f32; 16];
    decode_into(block, snorm, &mut values);
    error_sum(samples, &values)
}
