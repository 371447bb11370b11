// The two fits of compress_inter6_impl, each in one pass down the lanes: weights and sums of a lane together are work enough for a turn that the
// compiler makes one turn of four lanes.
#![tactic(auto)]

ghost use Rattle.std.specs.Prelude.{◌≡◌, ◌<◌};
ghost use Rattle.fit.specs.Fit.{fitted as fitted_of};
ghost use Rattle.fit.specs.Lanes.{lane_of, lane_at, weighed, across as across_of, line_lane as line_lane_of, line_lanes, matrix as matrix_of, all_above, fit_lanes, ends as ends_of};

use bcn_util::least_squares::WeightMatrix;
use floats::Pair;
use palette::inter6;
use palette::inter6::Inter6Palette;

// Four pixels down a lane: their weights w, the sums of w·w, w·v and v·v with v = 1 - w, and whether the blends are all above -1. The
// weights have names and are no array: compiled they are the same, and no weight is looked up by a number that is known.
#[derive(Clone, Copy)]
pub struct Lane {
    pub w0: f32,
    pub w1: f32,
    pub w2: f32,
    pub w3: f32,
    pub ww: f32,
    pub wv: f32,
    pub vv: f32,
    pub above: bool,
}

// What each lane adds to the two ends.
#[derive(Clone, Copy)]
pub struct Lanes {
    pub first: [f32; 4],
    pub second: [f32; 4],
    pub above: bool,
}

#[tactic(auto, unfolding(crate::specs::Lanes::lane_of))]
fn weigh_four(p: Inter6Palette, x0: f32, x1: f32, x2: f32, x3: f32) -> Lane
    ensures { result ≡ lane_of p x0 x1 x2 x3 }
{
    let b0 = p.blend(x0);
    let b1 = p.blend(x1);
    let b2 = p.blend(x2);
    let b3 = p.blend(x3);
    let w0 = inter6::cut_weight(b0);
    let w1 = inter6::cut_weight(b1);
    let w2 = inter6::cut_weight(b2);
    let w3 = inter6::cut_weight(b3);
    let v0 = 1.0 - w0;
    let v1 = 1.0 - w1;
    let v2 = 1.0 - w2;
    let v3 = 1.0 - w3;
    Lane {
        w0,
        w1,
        w2,
        w3,
        ww: w0 * w0 + w1 * w1 + w2 * w2 + w3 * w3,
        wv: w0 * v0 + w1 * v1 + w2 * v2 + w3 * v3,
        vv: v0 * v0 + v1 * v1 + v2 * v2 + v3 * v3,
        above: (b0 > -1.0) & (b1 > -1.0) & (b2 > -1.0) & (b3 > -1.0),
    }
}

fn weigh_lane(p: Inter6Palette, b: &[f32; 16], j: usize) -> Lane
    requires { j < 4 }
    ensures { result ≡ lane_at p b.now j }
{
    weigh_four(p, b[j], b[j + 4], b[j + 8], b[j + 12])
}

fn weigh(p: Inter6Palette, b: &[f32; 16]) -> [Lane; 4]
    ensures { result ≡ weighed p b.now }
{
    std::array::from_fn(|j| weigh_lane(p, b, j))
}

fn across(s: [f32; 4]) -> f32
    ensures { result ≡ across_of s }
{
    (s[0] + s[1]) + (s[2] + s[3])
}

fn line_lane(b: &[f32; 16], l: Lane, e: f32, d: f32, j: usize) -> f32
    requires { j < 4 }
    ensures { result ≡ line_lane_of b.now l e d j }
{
    b[j] * (e + d * l.w0)
        + b[j + 4] * (e + d * l.w1)
        + b[j + 8] * (e + d * l.w2)
        + b[j + 12] * (e + d * l.w3)
}

fn line_lanes(b: &[f32; 16], g: &[Lane; 4], e: f32, d: f32) -> [f32; 4]
    ensures { result ≡ line_lanes b.now g.now e d }
{
    std::array::from_fn(|j| line_lane(b, g[j], e, d, j))
}

#[tactic(auto, unfolding(crate::specs::Lanes::matrix))]
fn matrix(g: &[Lane; 4]) -> WeightMatrix
    ensures { result ≡ matrix_of g.now }
{
    bcn_util::least_squares::or_mean(bcn_util::least_squares::from_d(
        across([g[0].ww, g[1].ww, g[2].ww, g[3].ww]),
        across([g[0].wv, g[1].wv, g[2].wv, g[3].wv]),
        across([g[0].vv, g[1].vv, g[2].vv, g[3].vv]),
    ))
}

fn all_above(g: &[Lane; 4]) -> bool
    ensures { result ≡ all_above g.now }
{
    g[0].above & g[1].above & g[2].above & g[3].above
}

// Called from two places, so that it stays a function of its own, which hands its lanes on in memory: what is written as four neighbours is worked
// out as one vector.
#[tactic(auto, unfolding(crate::specs::Lanes::fit_lanes))]
fn fit_lanes(b: &[f32; 16], p: Pair) -> Lanes
    ensures { result ≡ fit_lanes b.now p }
{
    let g = weigh(Inter6Palette::new(p.0, p.1), b);
    let m = matrix(&g);
    let first = line_lanes(b, &g, m.e01, m.e00_01);
    let second = line_lanes(b, &g, m.e11, m.e10_11);
    Lanes {
        first,
        second,
        above: all_above(&g),
    }
}

fn ends(l: Lanes) -> Pair
    ensures { result ≡ ends_of l }
{
    Pair(
        floats::clamp(across(l.first)),
        floats::clamp(across(l.second)),
    )
}

// A blend of -1 or less is rare, and so is a NaN.
#[tactic(auto, unfolding(crate::specs::Fit::fitted))]
fn fitted_plainly(b: &[f32; 16], p: Pair) -> Pair
    ensures { result ≡ fitted_of b.now p }
{
    let w = Inter6Palette::new(p.0, p.1).block_closest_weights(b);
    let q = bcn_util::least_squares::least_squares(b, &w);
    Pair(floats::clamp(q.0), floats::clamp(q.1))
}

#[tactic(auto, using(crate::proofs::FitLaws::lanes_fitted))]
fn fitted(b: &[f32; 16], p: Pair) -> Pair
    ensures { result ≡ fitted_of b.now p }
{
    let l = fit_lanes(b, p);
    if l.above {
        return ends(l);
    }
    fitted_plainly(b, p)
}

#[tactic(auto, using(crate::proofs::FitLaws::lanes_fitted))]
pub fn fitted_twice(b: &[f32; 16], p: Pair) -> Pair
    ensures { result ≡ fitted_of b.now (fitted_of b.now p) }
{
    let l = fit_lanes(b, p);
    if l.above {
        return fitted(b, ends(l));
    }
    fitted(b, fitted_plainly(b, p))
}
