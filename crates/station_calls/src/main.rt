// Hands messages to a station at the edges of every refusal, at every turn of an edition, and in many orders, and prints a line for each case: what is given, what
// became of it, and the tile and the record after it. The file stdout beside src/ was worked out by compare/station_calls.py, not by this program.
#![tactic(auto)]

mod clearing;
mod editions;
mod faults;
mod histories;
mod large;
mod line;
mod shapes;
mod six;

use std::io;

fn main(rt: HostRuntime) -> io::Result<()> {
    shapes::cases(&rt)?;
    faults::cases(&rt)?;
    editions::cases(&rt)?;
    histories::cases(&rt)?;
    clearing::cases(&rt)?;
    large::cases(&rt)
}
