// Bc4Options and Bc4Quantization.
#![tactic(auto)]

#[derive(Clone, Copy)]
pub enum Quantization {
    Round,
    MediumQuality,
    HighQuality,
}

#[derive(Clone, Copy)]
pub struct Options {
    pub dither: bool,
    pub snorm: bool,
    pub brute_force: bool,
    pub use_inter4: bool,
    pub use_inter4_heuristic: bool,
    pub quantization: Quantization,
    pub fast_iter: bool,
    pub max_refine_iter: u8,
    pub size_variations: bool,
    pub iter_initial_inter4: bool,
}
