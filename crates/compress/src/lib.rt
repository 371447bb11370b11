// bc4.rs: the two compressions of a block.
#![tactic(auto)]

pub mod inter4;
pub mod inter6;
pub mod network;
pub mod sorted;
