// bcn_util.rs: least squares and dither. Its refinement is the crate refine.
#![tactic(auto)]

pub mod dither;
pub mod least_squares;
