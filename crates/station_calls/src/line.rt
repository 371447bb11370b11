// What a line is made of. A tile is shown by its bytes, a record by its entries, all that was lent and what lies past it.
use cases::given;
use cases::show::{Answer, Hex};
use refusal::Refusal;
use station::Received;
use std::fmt;
use std::fmt::Display;

// The bytes of a message by a number, which is their first digit: from 0 to 15 they all are others.
pub fn eight(number: u8) -> [u8; 8] {
    let b = number % 16 * 16;
    [b, b + 1, b + 2, b + 3, b + 4, b + 5, b + 6, b + 7]
}

// Those of 11, and one more than is right.
const NINE: [u8; 9] = [0xb0, 0xb1, 0xb2, 0xb3, 0xb4, 0xb5, 0xb6, 0xb7, 0xb8];

// What became of a message.
pub fn became(answer: Result<Received, Refusal>) -> Answer<&'static str> {
    Answer(answer.map(|received| match received {
        Received::Taken => "taken",
        Received::Repeated => "repeated",
        Received::Replaced => "replaced",
        Received::Old => "old",
    }))
}

// A record's entries, each after a space.
#[derive(Clone, Copy)]
pub struct Entries<'a>(pub &'a [u32]);

impl Display for Entries<'_> {
    fn fmt<W: fmt::Write>(&self, f: &mut fmt::Formatter<W>) -> fmt::Result {
        for entry in self.0 {
            write!(f, " {entry}")?;
        }
        Ok(())
    }
}

// What a station is handed: the size of its tile, how many bytes and entries of what there is, and a message of the first `block` bytes of the nine.
#[derive(Clone, Copy)]
pub struct Handed {
    pub width: usize,
    pub height: usize,
    pub bytes: usize,
    pub entries: usize,
    pub column: usize,
    pub row: usize,
    pub edition: u16,
    pub block: usize,
}

impl Handed {
    pub fn receive(&self, tile: &mut [u8], record: &mut [u32]) -> Answer<&'static str> {
        became(station::receive(
            given::first_mut(tile, self.bytes),
            given::first_mut(record, self.entries),
            self.width,
            self.height,
            self.column,
            self.row,
            self.edition,
            given::first(&NINE, self.block),
        ))
    }
}

impl Display for Handed {
    fn fmt<W: fmt::Write>(&self, f: &mut fmt::Formatter<W>) -> fmt::Result {
        write!(
            f,
            "{} by {}, {} bytes, {} entries, at {} {} edition {} [{}]",
            self.width,
            self.height,
            self.bytes,
            self.entries,
            self.column,
            self.row,
            self.edition,
            Hex(given::first(&NINE, self.block)),
        )
    }
}
