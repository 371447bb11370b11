// bc4.rs: refine_endpoints, with its three roundings.
#![tactic(auto)]

ghost use Rattle.std.specs.Prelude.{◌≡◌};
ghost use Rattle.refine.specs.Refining.{other_pair, medium as medium_of, high_to, quantizing as quantizing_of, first_step, least_step, refined_ends};

pub mod rounds;

use end_points::EndPoints;
use floats::Pair;
use options::{Options, Quantization};
use palette::Palette;
use rounds::Held;

const QUANT_STEP: f32 = 1.0 / 254.0 + 0.0001;

const FAST_LEAST: f32 = 1.0 / 255.0;

const LEAST: f32 = 1.0 / 255.0 / 2.0;

#[tactic(auto, unfolding(crate::specs::Refining::other_pair))]
fn other(p: Pair, base: Pair) -> Pair
    ensures { result ≡ other_pair p base }
{
    let min_diff = p.0 - base.0;
    let max_diff = p.1 - base.1;
    if floats::abs(min_diff) > floats::abs(max_diff) {
        return Pair(
            p.0 + floats::pick(min_diff > 0.0, QUANT_STEP, -QUANT_STEP),
            p.1,
        );
    }
    Pair(
        p.0,
        p.1 + floats::pick(max_diff > 0.0, QUANT_STEP, -QUANT_STEP),
    )
}

#[tactic(auto, unfolding(crate::specs::Refining::medium))]
fn medium<P: Palette>(b: &[f32; 16], snorm: bool, p: Pair) -> Held
    ensures { result ≡ medium_of P.kind b.now snorm p }
{
    let base = EndPoints::quantize(p.0, p.1, snorm);
    let next = other(p, base);
    let q = EndPoints::quantize(next.0, next.1, snorm);
    let held = rounds::hold::<P>(b, base.0, base.1);
    rounds::better::<P>(b, held, q.0, q.1)
}

fn high<P: Palette>(b: &[f32; 16], snorm: bool, p: Pair) -> Held
    ensures { result ≡ high_to P.kind b.now snorm p 3 }
{
    let base = EndPoints::quantize(p.0, p.1, snorm);
    let mut h = rounds::hold::<P>(b, base.0, base.1);
    let up = p.0 + QUANT_STEP;
    let down = p.1 - QUANT_STEP;
    for next in &[Pair(up, p.1), Pair(p.0, down), Pair(up, down)] {
        let q = EndPoints::quantize(next.0, next.1, snorm);
        h = rounds::better::<P>(b, h, q.0, q.1);
    }
    h
}

#[tactic(auto, unfolding(crate::specs::Refining::quantizing))]
fn quantizing<P: Palette>(quality: Quantization, b: &[f32; 16], snorm: bool, p: Pair) -> Pair
    ensures { result ≡ quantizing_of quality P.kind b.now snorm p }
{
    match quality {
        Quantization::Round => p,
        Quantization::MediumQuality => {
            let h = medium::<P>(b, snorm, p);
            Pair(h.min, h.max)
        }
        Quantization::HighQuality => {
            let h = high::<P>(b, snorm, p);
            Pair(h.min, h.max)
        }
    }
}

fn first_step(fast: bool, min: f32, max: f32) -> f32
    ensures { result ≡ first_step fast min max }
{
    floats::pick(fast, 0.1, 0.15) * (max - min)
}

fn least_step(fast: bool) -> f32
    ensures { result ≡ least_step fast }
{
    floats::pick(fast, FAST_LEAST, LEAST)
}

#[tactic(auto, unfolding(crate::specs::Refining::refined_ends))]
pub fn refine_endpoints<P: Palette>(b: &[f32; 16], min: f32, max: f32, o: Options) -> Pair
    ensures { result ≡ refined_ends P.kind b.now (record { 0 = min; 1 = max }) o }
{
    let least = least_step(o.fast_iter);
    let step = first_step(o.fast_iter, min, max);
    let limit = o.max_refine_iter;
    let p = rounds::refine_endpoints::<P>(b, least, limit, step, min, max);
    let quality = o.quantization;
    quantizing::<P>(quality, b, o.snorm, p)
}
