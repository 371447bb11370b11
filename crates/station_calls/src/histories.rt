// Messages one after the other, from an empty record on.
use crate::six;
use crate::six::{Message, Six};
use std::io;

// Each place by its own messages.
fn places(rt: &impl Print) -> io::Result<()> {
    let mut six = Six::with([0; 6]);
    for message in [
        Message(1, 2, 100, 1),
        Message(0, 0, 65535, 2),
        Message(0, 2, 0, 3),
        Message(1, 0, 32768, 4),
        Message(0, 1, 7, 5),
        Message(1, 1, 7, 6),
        Message(1, 2, 101, 7),
        Message(0, 0, 0, 8),
        Message(0, 2, 65535, 9),
        Message(1, 0, 0, 10),
        Message(0, 1, 7, 11),
        Message(1, 1, 7, 6),
    ] {
        six::placed(rt, &mut six, message)?;
    }
    Ok(())
}

// Two messages for the last place: their editions, and the number of the second's bytes, where the first's is 1.
fn pairs(rt: &impl Print) -> io::Result<()> {
    for (first, second, number) in [
        (65535, 0, 2),
        (0, 65535, 2),
        (0, 32767, 2),
        (0, 32768, 2),
        (0, 32769, 2),
        (5, 5, 2),
        (5, 5, 1),
    ] {
        let mut six = Six::with([0; 6]);
        let one = six.receive(Message(1, 2, first, 1));
        let other = six.receive(Message(1, 2, second, number));
        println!(rt; "{first} then {second}: {one} {other}, {six}")?;
    }
    Ok(())
}

// Three messages, each of them twice or three times, for the last place. An edition has one content.
fn order(rt: &impl Print, a: u16, b: u16, c: u16) -> io::Result<()> {
    let mut six = Six::with([0; 6]);
    print!(rt; "{a} {b} {c}:")?;
    for edition in [a, a, b, a, c, b, c] {
        let answer = six.receive(Message(1, 2, edition, (edition % 16) as u8));
        print!(rt; " {answer}")?;
    }
    println!(rt; ", {six}")
}

fn orders(rt: &impl Print, a: u16, b: u16, c: u16) -> io::Result<()> {
    order(rt, a, b, c)?;
    order(rt, a, c, b)?;
    order(rt, b, a, c)?;
    order(rt, b, c, a)?;
    order(rt, c, a, b)?;
    order(rt, c, b, a)
}

// The second three are as far apart as 32,767 steps.
pub fn cases(rt: &impl Print) -> io::Result<()> {
    places(rt)?;
    pairs(rt)?;
    orders(rt, 65535, 0, 1)?;
    orders(rt, 50001, 60002, 17232)
}
