// What a refusal tells: its number, and what it brings with it. C is told by numbers (include/bc4.h), so that they are written out here and nowhere else.
ghost use Rattle.std.specs.Prelude.{◌≡◌};
ghost use Rattle.refusal.specs.Names.{number_for, what_side, what_of, fault_number, what_channel, fault_detail};
ghost use Rattle.refusal.specs.Refusals.{number_of, detail_of};

use crate::{Channel, Fault, Field, Refusal, Side};

// The number of the refusal that names a field.
fn number_for(field: Field) -> u8
    ensures { result ≡ number_for field }
{
    match field {
        Field::Header => 11,
        Field::Extension => 11,
        Field::Magic => 12,
        Field::HeaderSize => 12,
        Field::FourCharacters => 13,
        Field::ExtensionFormat => 13,
        Field::MipCount => 14,
        Field::Depth => 14,
        Field::CubeFaces => 14,
        Field::ArraySize => 14,
    }
}

// A side as a number, for a detail.
fn what_side(side: Side) -> usize
    ensures { result ≡ what_side side }
{
    match side {
        Side::Width => 1,
        Side::Height => 2,
    }
}

// A field as a number, for a detail.
pub fn what_of(field: Field) -> usize
    ensures { result ≡ what_of field }
{
    match field {
        Field::Header => 3,
        Field::Extension => 4,
        Field::Magic => 5,
        Field::HeaderSize => 6,
        Field::FourCharacters => 7,
        Field::ExtensionFormat => 8,
        Field::MipCount => 9,
        Field::Depth => 10,
        Field::CubeFaces => 11,
        Field::ArraySize => 12,
    }
}

// A channel as a number, for a detail.
fn what_channel(channel: Channel) -> usize
    ensures { result ≡ what_channel channel }
{
    match channel {
        Channel::First => 13,
        Channel::Second => 14,
    }
}

// The number of what is wrong in a channel.
fn fault_number(fault: Fault) -> u8
    ensures { result ≡ fault_number fault }
{
    match fault {
        Fault::Count(_) => 2,
        Fault::Nan(_, _) => 7,
        Fault::TileNan(_, _) => 7,
    }
}

fn fault_detail(fault: Fault) -> [usize; 4]
    ensures { result ≡ fault_detail fault }
{
    match fault {
        Fault::Count(channel) => [what_channel(channel), 0, 0, 0],
        Fault::Nan(channel, i) => [what_channel(channel), i, 0, 0],
        Fault::TileNan(channel, spot) => {
            [what_channel(channel), spot.index, spot.row, spot.column]
        }
    }
}

pub fn number(refusal: Refusal) -> u8
    ensures { result ≡ number_of refusal }
{
    match refusal {
        Refusal::SideIsZero(_) => 1,
        Refusal::SampleCount => 2,
        Refusal::EncodedLength => 3,
        Refusal::OutputLength => 4,
        Refusal::DitheredResend => 5,
        Refusal::NoSuchBlock => 6,
        Refusal::SampleIsNan(_) => 7,
        Refusal::WordMalformed => 8,
        Refusal::SideTooLarge(_) => 9,
        Refusal::SideNotMultipleOf4(_) => 10,
        Refusal::TileSampleIsNan(_) => 7,
        Refusal::DdsHeader(field) => number_for(field),
        Refusal::DdsBody => 15,
        Refusal::InChannel(fault) => fault_number(fault),
        Refusal::EditionReused => 16,
        Refusal::EditionOpposite => 17,
    }
}

// What a refusal brings with it: what, index, row and column, 0 for what it says nothing about. Where it has nothing to say they stay.
pub fn detail(refusal: Refusal, numbers: &mut [usize; 4])
    ensures { numbers.new ≡ detail_of refusal numbers.old }
{
    match refusal {
        Refusal::SideIsZero(side) => {
            *numbers = [what_side(side), 0, 0, 0];
        }
        Refusal::SampleIsNan(i) => {
            *numbers = [0, i, 0, 0];
        }
        Refusal::SideTooLarge(side) => {
            *numbers = [what_side(side), 0, 0, 0];
        }
        Refusal::SideNotMultipleOf4(side) => {
            *numbers = [what_side(side), 0, 0, 0];
        }
        Refusal::TileSampleIsNan(spot) => {
            *numbers = [0, spot.index, spot.row, spot.column];
        }
        Refusal::DdsHeader(field) => {
            *numbers = [what_of(field), 0, 0, 0];
        }
        Refusal::InChannel(fault) => {
            *numbers = fault_detail(fault);
        }
        _ => {}
    }
}
