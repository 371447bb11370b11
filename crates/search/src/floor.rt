// Floors of palette errors, by which the search passes pairs over that cannot be the answer.
ghost use Rattle.std.specs.Prelude.{◌≡◌, ◌+◌, ◌<◌, ◌≤◌, length};
ghost use Rattle.search.specs.Floor.{beyond as beyond_of, at_least, floor_of, min_floor, max_floor, max_floors, row_floor, PartFloors};

use palette::inter4::Inter4Palette;
use palette::inter6::Inter6Palette;

// More than what rounding moves a value beyond the ends.
const MARGIN: f32 = 1.0 / 4194304.0;

#[tactic(auto, unfolding(crate::specs::Floor::beyond))]
fn beyond(low: f32, high: f32, pixel: f32) -> f32
    ensures { result ≡ beyond_of low high pixel }
{
    floats::pick(
        0.0 < low - pixel,
        low - pixel,
        floats::lane_min(high - pixel, 0.0),
    )
}

#[tactic(auto, unfolding(crate::specs::Floor::at_least))]
fn at_least(d: f32, pixel: f32) -> f32
    ensures { result ≡ at_least d pixel }
{
    let from_0 = (0.0 - pixel) * (0.0 - pixel);
    let from_1 = (1.0 - pixel) * (1.0 - pixel);
    floats::lane_min(from_0, floats::lane_min(from_1, d * d))
}

fn sum(b: &[f32; 16], low: f32, high: f32) -> f32
    ensures { result ≡ floor_of b.now low high }
{
    // By `b.map` this takes 56 instructions more.
    block::sum_in_order(&std::array::from_fn(
        |i|
            requires { i < 16 }
        { at_least(beyond(low, high, b[i]), b[i]) },
    ))
}

pub fn min_floor(b: &[f32; 16], min: u8) -> f32
    ensures { result ≡ min_floor b.now min }
{
    sum(b, values::n8::f32(min) - MARGIN, f32::INFINITY)
}

fn max_floor(b: &[f32; 16], max: u8) -> f32
    ensures { result ≡ max_floor b.now max }
{
    sum(b, f32::NEG_INFINITY, values::n8::f32(max) + MARGIN)
}

// Worked out once: each min asks for them again. Into the caller's array, by a loop that counts: handed back, or made by `from_fn`, they stand twice and
// three times on the stack, and a call has less than 4 KiB.
pub fn max_floors(b: &[f32; 16], floors: &mut [f32; 256])
    ensures { floors.new ≡ max_floors b.now }
{
    for max in 0..256usize {
        floors[max] = max_floor(b, max as u8);
    }
}

// A NaN is handed on: it is above nothing, and so passes nothing over.
#[tactic(auto, unfolding(crate::specs::Floor::row_floor))]
fn row_floor(b: &[f32; 16], low: f32, high: f32) -> f32
    ensures { result ≡ row_floor b.now low high }
{
    let six = palette::first_row_error::<Inter6Palette>(b, high, low);
    let four = palette::first_row_error::<Inter4Palette>(b, low, high);
    floats::pick((six < four) | (six != six), six, four)
}

// The first of a part's floors that does not pass its max over. Nothing rests on it but the time.
fn first_open(floors: &[f32], held: f32) -> usize
    ensures { result ≤ length floors.now }
{
    floors
        .iter()
        .position(|floor| *floor < held)
        .unwrap_or(floors.len())
}

// How many values of max are tried at a time: a copy of all floors would take a fourth of the stack of a call.
pub const PART: usize = 32;

// A block with the floors of its values of max.
#[derive(Drop)]
pub struct MaxFloors<'a> {
    pub block: &'a [f32; 16],
    pub floors: &'a [f32; 256],
    ghost of_block: { floors.now ≡ max_floors block.now },
}

impl MaxFloors<'_> {
    // For the pairs of one min with n values of max, from `at` on: the floors of these, raised by what their first row adds.
    pub fn raised(&self, held: f32, min: u8, at: usize, n: usize) -> [f32; PART]
        requires { (at + n ≤ 256) × (n ≤ 32) }
        ensures { PartFloors self.now.block.now min at n result }
    {
        let all = self.floors;
        let mut raised = [0.0f32; PART];
        raised[..n].copy_from_slice(&all[at..at + n]);
        let low = values::n8::f32(min);
        // By place: from `at` on it is the max that is tried as well.
        for i in first_open(&raised[..n], held)..n {
            let high = values::n8::f32((at + i) as u8);
            raised[i] = floats::lane_max(raised[i], row_floor(self.block, low, high));
        }
        raised
    }
}
