// compress_inter6.
ghost use Rattle.std.specs.Prelude.{◌≡◌};
ghost use Rattle.compress.specs.Inter6.{compressed_from, nudged as nudged_of, nudged_pair, five as five_of, compress_inter6};

use coding::Coded;
use end_points::EndPoints;
use floats::Pair;
use options::Options;
use palette::inter6::Inter6Palette;

// compress_inter6_impl
#[tactic(auto, unfolding(crate::specs::Inter6::compressed_from))]
fn compressed_from(b: &[f32; 16], p: Pair, o: Options) -> Coded
    ensures { result ≡ compressed_from b.now p o }
{
    let fitted = fit::fitted_twice(b, p);
    let ends = refine::refine_endpoints::<Inter6Palette>(b, fitted.0, fitted.1, o);
    coding::ended::<Inter6Palette>(b, o.dither, EndPoints::new_inter6(ends.0, ends.1, o.snorm))
}

fn nudged(mean: f32, x: f32) -> f32
    ensures { result ≡ nudged_of mean x }
{
    mean + (x - mean) * 0.95
}

#[tactic(auto, unfolding(crate::specs::Inter6::nudged_pair))]
fn nudged_pair(b: &[f32; 16], p: Pair) -> Pair
    ensures { result ≡ nudged_pair b.now p }
{
    let mean = block::mean(b);
    Pair(nudged(mean, p.0), nudged(mean, p.1))
}

#[tactic(auto, unfolding(crate::specs::Inter6::five))]
fn five(p: Pair) -> Pair
    ensures { result ≡ five_of p }
{
    let dist = p.1 - p.0;
    let min5 = p.0 - dist * 0.25;
    let max5 = p.1 + dist * 0.25;
    if min5 > 1.0 - max5 {
        return Pair(floats::max(min5, 0.0), p.1);
    }
    Pair(p.0, floats::min(max5, 1.0))
}

#[tactic(auto, unfolding(crate::specs::Inter6::compress_inter6))]
pub fn compress_inter6(b: &[f32; 16], p: Pair, o: Options) -> Coded
    ensures { result ≡ compress_inter6 b.now p o }
{
    let near = nudged_pair(b, p);
    let best = compressed_from(b, near, o);
    if o.size_variations {
        return coding::smaller(best, compressed_from(b, five(near), o));
    }
    best
}
