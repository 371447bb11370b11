// compress_bc4_block.
#![tactic(auto)]

ghost use Rattle.std.specs.Prelude.{◌≡◌, true};
ghost use Rattle.encode.specs.Encoder.{searches as searches_of, amid as amid_of, six_only, compressed_of, encoded as encoded_of, compressed};
ghost use Rattle.std.specs.Float.Ieee.{le};
ghost use Rattle.floats.specs.Arithmetic.{f0, f1};

use floats::Pair;
use options::Options;

const INTER6_THRESHOLD: f32 = 1.0 / 7.0;

fn searches(o: Options) -> bool
    ensures { result ≡ searches_of o }
{
    o.brute_force & !o.dither & !o.snorm
}

fn amid(p: Pair) -> bool
    ensures { result ≡ amid_of p }
{
    let seventh = (p.1 - p.0) * INTER6_THRESHOLD;
    (0.0 < p.0 - seventh) & (p.1 + seventh < 1.0)
}

fn six_only(o: Options, p: Pair) -> bool
    ensures { result ≡ six_only o p }
{
    !o.use_inter4 | (o.use_inter4_heuristic & amid(p))
}

#[tactic(auto, unfolding(crate::specs::Encoder::compressed_of))]
fn compressed_of(b: &[f32; 16], o: Options, p: Pair) -> u64
    ensures { result ≡ compressed_of b.now o p }
{
    let six = compress::inter6::compress_inter6(b, p, o);
    if six_only(o, p) {
        return six.bytes;
    }
    let four = compress::inter4::compress_inter4(b, o);
    coding::smaller(four, six).bytes
}

// The smallest and the largest of a block that has entered are in 0..1.
#[tactic(auto, using(crate::proofs::Middle::middle_from_0, crate::proofs::Middle::middle_to_1), unfolding(crate::specs::Encoder::encoded))]
fn encoded(b: &[f32; 16], o: Options, p: Pair) -> u64
    requires { (le f0 p.0 ≡ true) × (le p.0 f1 ≡ true) × (le f0 p.1 ≡ true) × (le p.1 f1 ≡ true) }
    ensures { result ≡ encoded_of b.now o p }
{
    if searches(o) {
        return search::reference_brute_force(b, p);
    }
    if p.1 - p.0 < single::BC4_EPSILON {
        return single::single_color(0.5 * (p.0 + p.1), o.snorm, o.dither);
    }
    compressed_of(b, o, p)
}

pub fn compress_bc4_block(samples: &[f32; 16], o: Options) -> u64
    ensures { result ≡ compressed samples.now o }
{
    let b = block::from_raw(samples);
    encoded(&b, o, block::min_max(&b))
}
