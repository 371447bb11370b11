// Every refusal alone, and with each that is looked for later: of two the first is told.
use crate::line::Handed;
use crate::shapes::shaped;
use std::io;

// A side that is 0, too large or no multiple of 4, the width before the height, the three lengths, the place, and the editions of 16 and 17.
#[derive(Clone, Copy, PartialEq)]
enum Fault {
    WidthZero,
    HeightZero,
    WidthLarge,
    HeightLarge,
    WidthOdd,
    HeightOdd,
    TileLength,
    RecordLength,
    BlockLength,
    Place,
    Reused,
    Opposite,
}

// In the order in which they are looked for.
const FAULTS: [Fault; 12] = [
    Fault::WidthZero,
    Fault::HeightZero,
    Fault::WidthLarge,
    Fault::HeightLarge,
    Fault::WidthOdd,
    Fault::HeightOdd,
    Fault::TileLength,
    Fault::RecordLength,
    Fault::BlockLength,
    Fault::Place,
    Fault::Reused,
    Fault::Opposite,
];

// 0 cannot be wrong in another way too, and neither can an edition: the first of two is given then.
fn side(zero: bool, large: bool, odd: bool, right: usize) -> usize {
    match (zero, large, odd) {
        (true, _, _) => 0,
        (false, true, true) => 1030,
        (false, true, false) => 1028,
        (false, false, true) => 6,
        (false, false, false) => right,
    }
}

fn edition(reused: bool, opposite: bool) -> u16 {
    match (reused, opposite) {
        (true, _) => 5,
        (false, true) => 32773,
        (false, false) => 6,
    }
}

// A place that is not there reads the entry of one that is.
fn faulty(one: Fault, other: Fault) -> Handed {
    let is = |fault: Fault| (one == fault) | (other == fault);
    Handed {
        width: side(
            is(Fault::WidthZero),
            is(Fault::WidthLarge),
            is(Fault::WidthOdd),
            8,
        ),
        height: side(
            is(Fault::HeightZero),
            is(Fault::HeightLarge),
            is(Fault::HeightOdd),
            12,
        ),
        bytes: if is(Fault::TileLength) { 47 } else { 48 },
        entries: if is(Fault::RecordLength) { 5 } else { 6 },
        column: if is(Fault::Place) { 2 } else { 1 },
        row: 1,
        edition: edition(is(Fault::Reused), is(Fault::Opposite)),
        block: if is(Fault::BlockLength) { 7 } else { 8 },
    }
}

pub fn cases(rt: &impl Print) -> io::Result<()> {
    for (at, one) in FAULTS.iter().enumerate() {
        for other in &FAULTS[at..] {
            shaped(rt, faulty(*one, *other))?;
        }
    }
    Ok(())
}
