// What the calls that take samples answer, and how a line shows it.
use bc4::word::Word;
use bc5::{Errors, Halves, Kept};
use cases::show::{Answer, Bits, Block, if_set};
use std::fmt::Display;
use std::{fmt, io};

#[derive(Clone, Copy)]
struct Encoded(Halves);

impl Display for Encoded {
    fn fmt<W: fmt::Write>(&self, f: &mut fmt::Formatter<W>) -> fmt::Result {
        write!(f, "{}{}", Block(self.0.first), Block(self.0.second))
    }
}

// Both errors by their bits.
#[derive(Clone, Copy)]
struct Scored(Errors);

impl Display for Scored {
    fn fmt<W: fmt::Write>(&self, f: &mut fmt::Formatter<W>) -> fmt::Result {
        write!(f, "{} {}", Bits(self.0.first), Bits(self.0.second))
    }
}

// The bytes to hold, and which halves of them are fresh.
#[derive(Clone, Copy)]
struct Resent(Kept);

impl Display for Resent {
    fn fmt<W: fmt::Write>(&self, f: &mut fmt::Formatter<W>) -> fmt::Result {
        let Kept { first, second } = self.0;
        write!(
            f,
            "{}{}{}{}",
            Block(first.block),
            Block(second.block),
            if_set(first.fresh, " fresh first"),
            if_set(second.fresh, " fresh second")
        )
    }
}

// By the options of a word, and by the word itself.
pub fn told(
    rt: &impl Print,
    first: &[f32],
    second: &[f32],
    held: &[u8],
    w: Word,
) -> io::Result<()> {
    let o = w.options;
    println!(rt;
        ": encode {}; error {}; resend {}; by word encode {}, resend {}",
        Answer(bc5::encode_block(first, second, o).map(Encoded)),
        Answer(bc5::block_error(first, second, held, o.snorm).map(Scored)),
        Answer(bc5::resend(first, second, held, o).map(Resent)),
        Answer(bc5::word::encode_block(first, second, w).map(Encoded)),
        Answer(bc5::word::resend(first, second, held, w).map(Resent)),
    )
}
