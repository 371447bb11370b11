// What reading a DDS file looks at, number by number.
ghost use Rattle.std.specs.Prelude.{◌≡◌, true, ◌++◌, ◌≤◌, length, drop, IfOk};
ghost use Rattle.refusal.specs.Refusals.{refusal_in, first_of};
ghost use Rattle.dds.specs.Layout.{header_length, extended, format_in, array_size_in, body_at, Whole};
ghost use Rattle.dds.specs.Checks.{read_checks, cut_checks, mark_checks, format_checks, picture_checks, side_checks, body_checks};
ghost use Rattle.dds.specs.Calls.{picture_in};

use crate::{Picture, header};
use refusal::{Field, Refusal};

// A file that has its headers whole.
#[derive(Clone, Copy)]
pub struct Headers<'a> {
    file: &'a [u8],
    ghost whole: { Whole file.now },
}

fn is_extended(file: &[u8]) -> bool
    requires { header_length ≤ length file.now }
    ensures { result ≡ extended file.now }
{
    fields::read_u32(file, 84) == header::DX10
}

impl<'a> Headers<'a> {
    // 11: it looks at no magic.
    #[tactic(auto, unfolding(refusal::specs::Refusals::first_of))]
    fn cut(file: &'a [u8]) -> Result<Self, Refusal>
        ensures refusal { refusal_in result ≡ first_of (cut_checks file.now) }
        ensures file { IfOk result (λ h. h.file.now ≡ file.now) }
    {
        if file.len() < header::LENGTH {
            return Err(Refusal::DdsHeader(Field::Header));
        }
        if is_extended(file) & (file.len() < header::EXTENDED_LENGTH) {
            return Err(Refusal::DdsHeader(Field::Extension));
        }
        Ok(Self { file })
    }

    // The headers of a file that none of the checks refuses.
    pub fn checked(file: &'a [u8]) -> Result<Self, Refusal>
        ensures refusal { refusal_in result ≡ first_of (read_checks file.now) }
        ensures file { IfOk result (λ h. h.file.now ≡ file.now) }
    {
        let headers = Self::cut(file)?;
        headers.mark()?;
        headers.format()?;
        headers.pictures()?;
        headers.body_length()?;
        Ok(headers)
    }

    // ---- fields of the extension, and what stands for them in a file without it
    fn is_extended(&self) -> bool
        ensures { result ≡ extended self.now.file.now }
    {
        is_extended(self.file)
    }

    #[tactic(auto, unfolding(crate::specs::Layout::format_in))]
    fn format_number(&self) -> u32
        ensures { result ≡ format_in self.now.file.now }
    {
        if self.is_extended() {
            return fields::read_u32(self.file, 128);
        }
        if fields::read_u32(self.file, 84) == header::BC4S {
            return header::SIGNED;
        }
        header::UNSIGNED
    }

    #[tactic(auto, unfolding(crate::specs::Layout::array_size_in))]
    fn array_size(&self) -> u32
        ensures { result ≡ array_size_in self.now.file.now }
    {
        if self.is_extended() {
            return fields::read_u32(self.file, 140);
        }
        1
    }

    // Where the body starts.
    #[tactic(auto, unfolding(crate::specs::Layout::body_at))]
    fn body_at(&self) -> usize
        ensures { result ≡ body_at self.now.file.now }
    {
        if self.is_extended() {
            return header::EXTENDED_LENGTH;
        }
        header::LENGTH
    }

    #[tactic(auto, unfolding(crate::specs::Calls::picture_in))]
    pub fn picture(&self) -> Picture
        ensures { result ≡ picture_in self.now.file.now }
    {
        Picture {
            width: fields::read_u32(self.file, 16) as usize,
            height: fields::read_u32(self.file, 12) as usize,
            snorm: self.format_number() == header::SIGNED,
            start: self.body_at(),
        }
    }

    // What follows the headers.
    pub fn body(&self) -> &'a [u8]
        ensures { result.now ≡ drop (body_at self.now.file.now) self.now.file.now }
    {
        &self.file[self.body_at()..]
    }

    // ---- 12
    #[tactic(auto, unfolding(refusal::specs::Refusals::first_of))]
    fn mark(&self) -> Result<(), Refusal>
        ensures { result ≡ first_of (mark_checks self.now.file.now) }
    {
        if fields::read_u32(self.file, 0) != header::DDS {
            return Err(Refusal::DdsHeader(Field::Magic));
        }
        if fields::read_u32(self.file, 4) != header::SIZE {
            return Err(Refusal::DdsHeader(Field::HeaderSize));
        }
        Ok(())
    }

    // 13
    #[tactic(auto, unfolding(refusal::specs::Refusals::first_of))]
    fn format(&self) -> Result<(), Refusal>
        ensures { result ≡ first_of (format_checks self.now.file.now) }
    {
        let four = fields::read_u32(self.file, 84);
        if (four != header::BC4U) & (four != header::BC4S) & (four != header::DX10) {
            return Err(Refusal::DdsHeader(Field::FourCharacters));
        }
        let number = self.format_number();
        if (number != header::UNSIGNED) & (number != header::SIGNED) {
            return Err(Refusal::DdsHeader(Field::ExtensionFormat));
        }
        Ok(())
    }

    // 14
    #[tactic(auto, unfolding(refusal::specs::Refusals::first_of))]
    fn pictures(&self) -> Result<(), Refusal>
        ensures { result ≡ first_of (picture_checks self.now.file.now) }
    {
        if 1 < fields::read_u32(self.file, 28) {
            return Err(Refusal::DdsHeader(Field::MipCount));
        }
        if 1 < fields::read_u32(self.file, 24) {
            return Err(Refusal::DdsHeader(Field::Depth));
        }
        if fields::read_u32(self.file, 112) / 1024 % 64 != 0 {
            return Err(Refusal::DdsHeader(Field::CubeFaces));
        }
        if self.array_size() != 1 {
            return Err(Refusal::DdsHeader(Field::ArraySize));
        }
        Ok(())
    }

    // 1, 9, 10, and 15
    fn body_length(&self) -> Result<(), Refusal>
        ensures { result ≡ first_of (side_checks self.now.file.now ++ body_checks self.now.file.now) }
    {
        let width = fields::read_u32(self.file, 16) as usize;
        let height = fields::read_u32(self.file, 12) as usize;
        let size = refusal::size(width, height)?;
        if self.file.len() != self.body_at() + size.encoded_length(place::BC4_SIZE) {
            return Err(Refusal::DdsBody);
        }
        Ok(())
    }
}
