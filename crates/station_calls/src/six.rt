// A tile of 2 by 3 blocks, any bytes, and its record.
use crate::line;
use crate::line::Entries;
use cases::given;
use cases::show::{Answer, Hex};
use std::fmt;
use std::fmt::Display;

#[derive(Clone, Copy)]
pub struct Six {
    tile: [u8; 48],
    record: [u32; 6],
}

// A message: its place, its edition, and the number of its bytes.
#[derive(Clone, Copy)]
pub struct Message(pub usize, pub usize, pub u16, pub u8);

impl Six {
    pub fn with(record: [u32; 6]) -> Six {
        Six {
            tile: given::bytes(),
            record,
        }
    }

    pub fn receive(&mut self, message: Message) -> Answer<&'static str> {
        let Message(column, row, edition, number) = message;
        let sent = line::eight(number);
        line::became(station::receive(
            &mut self.tile,
            &mut self.record,
            8,
            12,
            column,
            row,
            edition,
            &sent,
        ))
    }

    // The first entries of its record.
    pub fn clear(&mut self, entries: usize) {
        station::clear(given::first_mut(&mut self.record, entries));
    }
}

impl Display for Six {
    fn fmt<W: fmt::Write>(&self, f: &mut fmt::Formatter<W>) -> fmt::Result {
        write!(f, "{}{}", Hex(&self.tile), Entries(&self.record))
    }
}

// A line of one message.
pub fn placed(rt: &impl Print, six: &mut Six, message: Message) -> std::io::Result<()> {
    let Message(column, row, edition, _) = message;
    let answer = six.receive(message);
    println!(rt; "at {column} {row}, edition {edition}: {answer}, {six}")
}
