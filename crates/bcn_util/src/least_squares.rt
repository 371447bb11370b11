// least_squares_weights_f32_vec4.
ghost use Rattle.std.specs.Prelude.{◌≡◌};
ghost use Rattle.bcn_util.specs.LeastSquares.{dot_in_pairs, complement as complement_of, from_d, or_mean, matrix_of, line as line_of, least_squares};

use floats::Pair;

// f32::EPSILON
const EPSILON: f32 = 1.0 / 8388608.0;

#[derive(Clone, Copy)]
pub struct WeightMatrix {
    pub e01: f32,
    pub e11: f32,
    // e00 - e01
    pub e00_01: f32,
    // e10 - e11
    pub e10_11: f32,
}

// None where the determinant is too small.
pub fn from_d(a: f32, b: f32, c: f32) -> Option<WeightMatrix>
    ensures { result ≡ from_d a b c }
{
    let det = a * c - b * b;
    if floats::abs(det) < EPSILON {
        return None;
    }
    let rep = 1.0 / det;
    let e00 = c * rep;
    let e01 = -b * rep;
    let e11 = a * rep;
    Some(WeightMatrix {
        e01,
        e11,
        e00_01: e00 - e01,
        e10_11: e01 - e11,
    })
}

pub fn or_mean(inverse: Option<WeightMatrix>) -> WeightMatrix
    ensures { result ≡ or_mean inverse }
{
    inverse.unwrap_or(WeightMatrix {
        e01: 0.0625,
        e11: 0.0625,
        e00_01: 0.0,
        e10_11: 0.0,
    })
}

fn dot_in_pairs(u: &[f32; 16], v: &[f32; 16]) -> f32
    ensures { result ≡ dot_in_pairs u.now v.now }
{
    block::sum_in_pairs(&std::array::from_fn(|i| u[i] * v[i]))
}

fn complement(w: &[f32; 16]) -> [f32; 16]
    ensures { result ≡ complement_of w.now }
{
    std::array::from_fn(|i| 1.0 - w[i])
}

fn matrix(w: &[f32; 16]) -> WeightMatrix
    ensures { result ≡ matrix_of w.now }
{
    let v = complement(w);
    or_mean(from_d(
        dot_in_pairs(w, w),
        dot_in_pairs(w, &v),
        dot_in_pairs(&v, &v),
    ))
}

fn line(e: f32, d: f32, w: &[f32; 16]) -> [f32; 16]
    ensures { result ≡ line_of e d w.now }
{
    std::array::from_fn(|i| e + d * w[i])
}

// The end of weight 1 first.
pub fn least_squares(colors: &[f32; 16], w: &[f32; 16]) -> Pair
    ensures { result ≡ least_squares colors.now w.now }
{
    let m = matrix(w);
    let g0 = line(m.e01, m.e00_01, w);
    let g1 = line(m.e11, m.e10_11, w);
    Pair(dot_in_pairs(colors, &g0), dot_in_pairs(colors, &g1))
}
