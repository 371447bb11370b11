// What a refusal says to a person who reads it.
use crate::told::{number, what_of};
use crate::{Channel, Fault, Refusal, Side, Spot};
use std::fmt;

// What a refusal says in a line: its number, and after it what it brings with it.
impl fmt::Display for Refusal {
    fn fmt<W: fmt::Write>(&self, f: &mut fmt::Formatter<W>) -> fmt::Result {
        write!(f, "{}", number(*self))?;
        match *self {
            Refusal::SideIsZero(side)
            | Refusal::SideTooLarge(side)
            | Refusal::SideNotMultipleOf4(side) => write!(f, " {side}"),
            Refusal::SampleIsNan(index) => write!(f, " at {index}"),
            Refusal::TileSampleIsNan(spot) => write!(f, " at {spot}"),
            Refusal::DdsHeader(field) => write!(f, " field {}", what_of(field)),
            Refusal::InChannel(fault) => write!(f, " {fault}"),
            _ => Ok(()),
        }
    }
}

impl fmt::Display for Side {
    fn fmt<W: fmt::Write>(&self, f: &mut fmt::Formatter<W>) -> fmt::Result {
        f.write_str(match self {
            Side::Width => "width",
            Side::Height => "height",
        })
    }
}

impl fmt::Display for Channel {
    fn fmt<W: fmt::Write>(&self, f: &mut fmt::Formatter<W>) -> fmt::Result {
        f.write_str(match self {
            Channel::First => "first",
            Channel::Second => "second",
        })
    }
}

impl fmt::Display for Spot {
    fn fmt<W: fmt::Write>(&self, f: &mut fmt::Formatter<W>) -> fmt::Result {
        write!(
            f,
            "{}, row {}, column {}",
            self.index, self.row, self.column
        )
    }
}

impl fmt::Display for Fault {
    fn fmt<W: fmt::Write>(&self, f: &mut fmt::Formatter<W>) -> fmt::Result {
        match *self {
            Fault::Count(channel) => write!(f, "{channel}"),
            Fault::Nan(channel, index) => write!(f, "{channel} at {index}"),
            Fault::TileNan(channel, spot) => write!(f, "{channel} at {spot}"),
        }
    }
}
