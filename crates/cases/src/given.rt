// What the cases give to the calls.
use bc4::{Options, Quantization};
use refusal::Channel;

// A multiple of 4 whose products with a side do not fit.
pub const FAR: usize = 0xffff_ffff_ffff_fffc;

pub const FARTHEST: usize = usize::MAX;

// A case says what it has otherwise.
pub const OPTIONS: Options = Options {
    dither: false,
    snorm: false,
    brute_force: false,
    use_inter4: true,
    use_inter4_heuristic: false,
    quantization: Quantization::Round,
    fast_iter: false,
    max_refine_iter: 2,
    size_variations: false,
    iter_initial_inter4: false,
};

// Slopes with a texture, from 0 to just under 1, in whole 65,536ths: no rounding on the way, so that any reader of this line has the same floats.
fn sample(i: usize) -> f32 {
    ((i % 65521 * 1021 + i % 7 * 1500 + i % 251 * 40) % 65521) as u16 as f32 / 65536.0
}

// No conversion: what is left of 256 is a byte.
fn byte(i: usize) -> u8 {
    ((i % 65521 * 37 + i % 65521 / 256 * 3 + 200) % 256) as u8
}

// Of two channels the second is the same from further on, so that a half tells whose it is. `nans` are the indexes of those that are NaN.
fn sample_in(channel: Channel, nans: &[usize], i: usize) -> f32 {
    if nans.contains(&i) {
        return f32::NAN;
    }
    match channel {
        Channel::First => sample(i),
        Channel::Second => sample(i % 65521 + 1000),
    }
}

pub fn samples<const N: usize>(channel: Channel, nans: &[usize]) -> [f32; N] {
    std::array::from_fn(|i| sample_in(channel, nans, i))
}

pub fn bytes<const N: usize>() -> [u8; N] {
    std::array::from_fn(byte)
}

// The same for what is on the heap. One generic function would take what fills as a closure, and ask that it may be called at each index: no plainer.
pub fn fill_samples(samples: &mut [f32], nans: &[usize]) {
    for (i, sample) in samples.iter_mut().enumerate() {
        *sample = sample_in(Channel::First, nans, i);
    }
}

pub fn fill_bytes(bytes: &mut [u8]) {
    for (k, given) in bytes.iter_mut().enumerate() {
        *given = byte(k);
    }
}

// What is lent of a channel: how many samples, and which of them are NaN.
#[derive(Clone, Copy)]
pub struct Lent<'a> {
    pub count: usize,
    pub nans: &'a [usize],
}

impl<'a> Lent<'a> {
    pub fn new(count: usize, nans: &'a [usize]) -> Self {
        Self { count, nans }
    }
}

// The first `count`, or all where there are no more.
pub fn first<T>(s: &[T], count: usize) -> &[T] {
    &s[..count.min(s.len())]
}

pub fn first_mut<T>(s: &mut [T], count: usize) -> &mut [T] {
    let most = count.min(s.len());
    &mut s[..most]
}

// Sixteen samples by what they are.
#[derive(Clone, Copy)]
pub enum Sixteen {
    Slopes,
    LaterSlopes,
    Zeros,
    Ones,
    Infinite,
    MinusInfinite,
    ZeroAndOne,
    BothInfinite,
    BothOutside,
}

// The first eight and the others.
fn halves(a: f32, b: f32) -> [f32; 16] {
    std::array::from_fn(|i| if i < 8 { a } else { b })
}

pub fn block(what: Sixteen) -> [f32; 16] {
    match what {
        Sixteen::Slopes => samples(Channel::First, &[]),
        Sixteen::LaterSlopes => samples(Channel::Second, &[]),
        Sixteen::Zeros => [0.0; 16],
        Sixteen::Ones => [1.0; 16],
        Sixteen::Infinite => [f32::INFINITY; 16],
        Sixteen::MinusInfinite => [f32::NEG_INFINITY; 16],
        Sixteen::ZeroAndOne => halves(0.0, 1.0),
        Sixteen::BothInfinite => halves(f32::NEG_INFINITY, f32::INFINITY),
        Sixteen::BothOutside => halves(-3.5, 2.5),
    }
}
