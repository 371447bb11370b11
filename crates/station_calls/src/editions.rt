// Taken, repeated, replaced and old, and refusals 16 and 17, at a tile of one block. A line shows the block and its entry before the message and after it.
use crate::line;
use crate::line::Entries;
use cases::show::Hex;
use std::io;

// Over a block of number 10.
fn over(rt: &impl Print, entry: u32, sent: [u8; 8], edition: u16) -> io::Result<()> {
    let held = line::eight(10);
    let mut tile = held;
    let mut record = [entry];
    let answer = line::became(station::receive(&mut tile, &mut record, 4, 4, 0, 0, edition, &sent));
    println!(rt;
        "{} {entry}, edition {edition} {}: {answer}, {}{}",
        Hex(&held),
        Hex(&sent),
        Hex(&tile),
        Entries(&record),
    )
}

// With the same bytes, and with others.
fn twice(rt: &impl Print, entry: u32, edition: u16) -> io::Result<()> {
    over(rt, entry, line::eight(10), edition)?;
    over(rt, entry, line::eight(11), edition)
}

fn first_messages(rt: &impl Print) -> io::Result<()> {
    for edition in [0, 1, 32768, 65535] {
        twice(rt, 0, edition)?;
    }
    Ok(())
}

// So many steps ahead of the edition that the entry has. Past 65,536 an entry has the edition of a lower one.
fn every_turn(rt: &impl Print) -> io::Result<()> {
    for (entry, held) in [
        (1, 0u16),
        (6, 5),
        (32769, 32768),
        (65536, 65535),
        (65537, 0),
        (131072, 65535),
        (4294967295, 65534),
    ] {
        for steps in [0, 1, 32767, 32768, 32769, 65535] {
            twice(rt, entry, held.wrapping_add(steps))?;
        }
    }
    Ok(())
}

// The same edition, and one byte of eight is another.
fn each_byte(rt: &impl Print) -> io::Result<()> {
    // By place: that byte is another.
    for k in 0..8 {
        let mut sent = line::eight(10);
        sent[k] = 0xff;
        over(rt, 6, sent, 5)?;
    }
    Ok(())
}

pub fn cases(rt: &impl Print) -> io::Result<()> {
    first_messages(rt)?;
    every_turn(rt)?;
    each_byte(rt)?;
    // the same edition, and the same bytes in another order
    over(rt, 6, [0xa1, 0xa0, 0xa2, 0xa3, 0xa4, 0xa5, 0xa6, 0xa7], 5)
}
