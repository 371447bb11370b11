// bcn_util.rs: refine_endpoints with RefinementSteps for f32.
ghost use Rattle.std.specs.Prelude.{◌≡◌, ◌<◌};
ghost use Rattle.refine.specs.Rounds.{held, better as better_of, tried as tried_of, round as round_of, rounds as rounds_of, refined};

use floats::Pair;
use palette::Palette;

// A pair with its palette error.
#[derive(Clone, Copy)]
pub struct Held {
    pub min: f32,
    pub max: f32,
    pub error: f32,
}

#[tactic(auto, unfolding(crate::specs::Rounds::held))]
pub fn hold<P: Palette>(b: &[f32; 16], min: f32, max: f32) -> Held
    ensures { result ≡ held P.kind b.now min max }
{
    Held {
        min,
        max,
        error: palette::palette_error::<P>(b, min, max),
    }
}

#[tactic(auto, using(crate::proofs::RoundLaws::better_is))]
pub fn better<P: Palette>(b: &[f32; 16], h: Held, min: f32, max: f32) -> Held
    ensures { result ≡ better_of P.kind b.now h min max }
{
    let candidate = hold::<P>(b, min, max);
    if candidate.error < h.error {
        return candidate;
    }
    h
}

#[tactic(auto, unfolding(crate::specs::Rounds::tried))]
fn tried<P: Palette>(b: &[f32; 16], h: Held, min: f32, max: f32) -> Held
    ensures { result ≡ tried_of P.kind b.now h min max }
{
    if min < max {
        return better::<P>(b, h, min, max);
    }
    h
}

// Four candidates, all from the pair that the round starts with.
fn round<P: Palette>(b: &[f32; 16], start: Held, step: f32) -> Held
    ensures { result ≡ round_of P.kind b.now start step }
{
    let deltas = [
        Pair(step, 0.0),
        Pair(0.0, step),
        Pair(-step, 0.0),
        Pair(0.0, -step),
    ];
    let mut h = start;
    for d in &deltas {
        let min = floats::clamp(start.min + d.0);
        let max = floats::clamp(start.max + d.1);
        h = tried::<P>(b, h, min, max);
    }
    h
}

fn rounds<P: Palette>(b: &[f32; 16], least: f32, limit: u8, first: f32, start: Held) -> Held
    ensures { result ≡ rounds_of P.kind b.now least limit first start }
{
    let mut step = first;
    let mut h = start;
    for _ in 0..limit {
        if !(step > least) {
            break;
        }
        h = round::<P>(b, h, step);
        step = step * 0.5;
    }
    h
}

// No error is worked out where no round is run.
#[tactic(auto, unfolding(crate::specs::Rounds::refined, crate::specs::Rounds::held), using(crate::proofs::RoundLaws::rounds_none, crate::proofs::RoundLaws::rounds_end))]
pub fn refine_endpoints<P: Palette>(
    b: &[f32; 16],
    least: f32,
    limit: u8,
    step: f32,
    min: f32,
    max: f32,
) -> Pair
    ensures { result ≡ refined P.kind b.now least limit step min max }
{
    if limit == 0 {
        return Pair(min, max);
    }
    if !(step > least) {
        return Pair(min, max);
    }
    let h = rounds::<P>(b, least, limit, step, hold::<P>(b, min, max));
    Pair(h.min, h.max)
}
