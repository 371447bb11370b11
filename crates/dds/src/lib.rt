// Document 02, 1/12: a BC4 tile as a DDS file, written into lent bytes, and read back as a part of the caller's file.
#![tactic(auto)]

ghost use Rattle.std.specs.Prelude.{◌≡◌, length, IfOk};
ghost use Rattle.refusal.specs.Refusals.{refusal_in, first_of};
ghost use Rattle.dds.specs.Checks.{write_checks, read_checks};
ghost use Rattle.dds.specs.Calls.{write_answer, file_after, picture_in, read_answer, body_of};

mod header;
mod reading;

use place::Size;
use reading::Headers;
use refusal::Refusal;

// The tile that a file holds, and where its bytes start.
#[derive(Clone, Copy)]
pub struct Picture {
    pub width: usize,
    pub height: usize,
    pub snorm: bool,
    pub start: usize,
}

fn size_to_write(long: usize, width: usize, height: usize, room: usize) -> Result<Size, Refusal>
    ensures refusal { refusal_in result ≡ first_of (write_checks long width height room) }
    ensures size { IfOk result (λ size. (size.width ≡ width) × (size.height ≡ height)) }
{
    let size = refusal::tile_bytes(long, width, height)?;
    if room < header::LENGTH + long {
        return Err(Refusal::OutputLength);
    }
    Ok(size)
}

// The file of a tile, into the first 128 + width * height / 2 bytes of `out`: how many it takes. Later bytes stay.
pub fn write(
    tile: &[u8],
    width: usize,
    height: usize,
    snorm: bool,
    out: &mut [u8],
) -> Result<usize, Refusal>
    ensures answer { result ≡ write_answer (length tile.now) width height (length out.old) }
    ensures bytes { out.new ≡ file_after result tile.now width height snorm out.old }
{
    let size = size_to_write(tile.len(), width, height, out.len())?;
    header::put(size, snorm, out);
    let end = header::LENGTH + tile.len();
    out[header::LENGTH..end].copy_from_slice(tile);
    Ok(end)
}

// Size and format of the tile that a file holds.
pub fn read(file: &[u8]) -> Result<Picture, Refusal>
    ensures { result ≡ read_answer file.now }
{
    Ok(Headers::checked(file)?.picture())
}

// The tile's bytes: that part of the caller's file, or an empty part where `read_refusal` refuses.
pub fn body(file: &[u8]) -> &[u8]
    ensures { result.now ≡ body_of file.now }
{
    match Headers::checked(file) {
        Ok(headers) => headers.body(),
        Err(_) => &file[0..0],
    }
}

pub fn read_refusal(file: &[u8]) -> Result<(), Refusal>
    ensures { result ≡ first_of (read_checks file.now) }
{
    Headers::checked(file)?;
    Ok(())
}
