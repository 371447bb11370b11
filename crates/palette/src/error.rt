// One error function for both palettes, over their eight values.
ghost use Rattle.std.specs.Prelude.{◌≡◌};
ghost use Rattle.floats.specs.Arithmetic.{◌⊖◌, squared};
ghost use Rattle.block.specs.Samples.{pixel_at, per_pixel};
ghost use Rattle.block.specs.Orders.{sum_in_order};
ghost use Rattle.palette.specs.PaletteError.{nearer_square, miss as miss_of};
ghost use Rattle.palette.specs.Rows.{first_row_sum};

fn squared_distance(value: f32, pixel: f32) -> f32
    ensures { result ≡ squared (value ⊖ pixel) }
{
    (value - pixel) * (value - pixel)
}

#[tactic(auto, unfolding(crate::specs::PaletteError::nearer_square))]
fn nearer(least: f32, value: f32, pixel: f32) -> f32
    ensures { result ≡ nearer_square least value pixel }
{
    floats::lane_min(least, squared_distance(value, pixel))
}

// The least square instead of the square of the least distance: no absolute values, and the same float.
fn miss(eight: [f32; 8], pixel: f32) -> f32
    ensures { result ≡ miss_of eight pixel }
{
    let mut least = squared_distance(eight[0], pixel);
    for value in &eight[1..] {
        least = nearer(least, *value, pixel);
    }
    least
}

pub fn sum(eight: [f32; 8], b: &[f32; 16]) -> f32
    ensures { result ≡ sum_in_order (per_pixel (λ i. miss_of eight (pixel_at b.now i))) }
{
    block::sum_in_order(&std::array::from_fn(|i| miss(eight, b[i])))
}

// What the first row adds.
#[tactic(auto, unfolding(crate::specs::Rows::first_row_sum))]
pub fn first_row_sum(eight: [f32; 8], b: &[f32; 16]) -> f32
    ensures { result ≡ first_row_sum eight b.now }
{
    miss(eight, b[0]) + miss(eight, b[1]) + miss(eight, b[2]) + miss(eight, b[3])
}
