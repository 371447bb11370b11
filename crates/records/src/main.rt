// The program, which ./run starts and the gate runs; program/records.c is the same in C, over `lines` alone.
#![tactic(auto)]

use std::process::ExitCode;

fn main(rt: HostRuntime) -> ExitCode {
    ExitCode::from(stream::run(&mut rt.stdin(), &mut rt.stdout(), &rt))
}
