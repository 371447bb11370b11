// Runs the block calls on two channels at the edges of every refusal, with every set of faults at once, and on values, and prints a line for each case: what is
// given, and the answers with what lent memory holds after them. The file stdout beside src/ was worked out by compare/bc5_calls.py, not by this program.
#![tactic(auto)]

mod answers;
mod decoding;
mod refusals;
mod worked;

use std::io;

fn main(rt: HostRuntime) -> io::Result<()> {
    refusals::cases(&rt)?;
    decoding::cases(&rt)?;
    worked::cases(&rt)?;
    refusals::each_nan(&rt)?;
    refusals::each_set(&rt)?;
    worked::each_half(&rt)
}
