// Runs the calls on DDS files at the edges of every refusal and prints a line for each case: what is given, and the answer with what lent memory holds
// after it. The file stdout beside src/ was worked out by compare/dds_calls.py, not by this program.
#![tactic(auto)]

mod large;
mod reading;
mod writing;

use std::io;

fn main(rt: HostRuntime) -> io::Result<()> {
    writing::cases(&rt)?;
    reading::cases(&rt)?;
    large::cases(&rt)
}
