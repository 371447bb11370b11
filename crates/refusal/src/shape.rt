// The size of a tile: one list of checks, and the function that runs it for every call that has a size.
ghost use Rattle.std.specs.Prelude.{◌≡◌, true, ◌≤◌, IfOk};
ghost use Rattle.place.specs.Place.{bad_size, bc5_size};
ghost use Rattle.refusal.specs.Refusals.{refusal_in, first_of, size_checks, bytes_checks_of, bytes_checks, view_checks_of};

use crate::{Refusal, Side};
use place::Size;

// What is wrong with a size that is: by number, and of one number the width before the height.
#[tactic(auto, unfolding(crate::specs::Refusals::first_of, crate::specs::Refusals::size_checks, place::specs::Place::bad_size, place::specs::Place::bad_side))]
fn wrong_size(width: usize, height: usize) -> Refusal
    requires { bad_size width height ≡ true }
    ensures { Err result ≡ first_of (size_checks width height) }
{
    if width == 0 {
        return Refusal::SideIsZero(Side::Width);
    }
    if height == 0 {
        return Refusal::SideIsZero(Side::Height);
    }
    if place::LONGEST_SIDE < width {
        return Refusal::SideTooLarge(Side::Width);
    }
    if place::LONGEST_SIDE < height {
        return Refusal::SideTooLarge(Side::Height);
    }
    if width % 4 != 0 {
        return Refusal::SideNotMultipleOf4(Side::Width);
    }
    Refusal::SideNotMultipleOf4(Side::Height)
}

// A good size passes by a single test.
pub fn size(width: usize, height: usize) -> Result<Size, Refusal>
    ensures refusal { refusal_in result ≡ first_of (size_checks width height) }
    ensures size { IfOk result (λ size. (size.width ≡ width) × (size.height ≡ height)) }
{
    match Size::new(width, height) {
        Some(size) => Ok(size),
        None => Err(wrong_size(width, height)),
    }
}

// The bytes of a tile: its size, and then their count. `block` is the bytes of a block, here and below.
#[tactic(auto, using(crate::proofs::Firsts::passed_first), unfolding(crate::specs::Refusals::first_of))]
fn bytes_of(block: usize, long: usize, width: usize, height: usize) -> Result<Size, Refusal>
    requires { block ≤ bc5_size }
    ensures refusal { refusal_in result ≡ first_of (bytes_checks_of block long width height) }
    ensures size { IfOk result (λ size. (size.width ≡ width) × (size.height ≡ height)) }
{
    let size = size(width, height)?;
    if long != size.encoded_length(block) {
        return Err(Refusal::EncodedLength);
    }
    Ok(size)
}

pub fn tile_bytes(long: usize, width: usize, height: usize) -> Result<Size, Refusal>
    ensures refusal { refusal_in result ≡ first_of (bytes_checks long width height) }
    ensures size { IfOk result (λ size. (size.width ≡ width) × (size.height ≡ height)) }
{
    bytes_of(place::BC4_SIZE, long, width, height)
}

// A block of a tile that has so many bytes.
#[tactic(auto, using(crate::proofs::Firsts::passed_first), unfolding(crate::specs::Refusals::first_of))]
pub fn view_of(
    block: usize,
    long: usize,
    width: usize,
    height: usize,
    column: usize,
    row: usize,
) -> Result<(), Refusal>
    requires { block ≤ bc5_size }
    ensures { result ≡ first_of (view_checks_of block long width height column row) }
{
    let size = bytes_of(block, long, width, height)?;
    if size.lacks(column, row) {
        return Err(Refusal::NoSuchBlock);
    }
    Ok(())
}
