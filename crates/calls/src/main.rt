// Runs each public call at the edges of every refusal, and on the run values of document 01, and prints a line for each case: what is given,
// and the answer with what lent memory holds after it. The file stdout beside src/ was worked out by compare/calls.py, not by this program.
#![tactic(auto)]

mod decoding;
mod encoding;
mod ends;
mod errors;
mod large;
mod resending;
mod tiles;
mod views;

use std::io;

fn main(rt: HostRuntime) -> io::Result<()> {
    encoding::cases(&rt)?;
    decoding::cases(&rt)?;
    errors::cases(&rt)?;
    resending::cases(&rt)?;
    tiles::cases(&rt)?;
    views::cases(&rt)?;
    large::cases(&rt)?;
    ends::cases(&rt)
}
