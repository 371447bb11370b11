// What the programs that try the calls share: what they give, and how a line shows it.
#![tactic(auto)]

pub mod given;
pub mod show;
