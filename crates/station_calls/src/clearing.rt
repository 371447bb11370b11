// Clearing the record: the tile stays.
use crate::six;
use crate::six::{Message, Six};
use std::io;

fn clear(rt: &impl Print, six: &mut Six, entries: usize) -> io::Result<()> {
    six.clear(entries);
    println!(rt; "clear {entries} entries, {six}")
}

// What is older than before, or has other bytes, is taken.
fn cleared(rt: &impl Print) -> io::Result<()> {
    let mut six = Six::with([0; 6]);
    six::placed(rt, &mut six, Message(1, 2, 5, 1))?;
    six::placed(rt, &mut six, Message(0, 0, 5, 2))?;
    clear(rt, &mut six, 6)?;
    six::placed(rt, &mut six, Message(1, 2, 4, 3))?;
    six::placed(rt, &mut six, Message(0, 0, 5, 4))?;
    six::placed(rt, &mut six, Message(1, 2, 5, 1))
}

// No entry, some, and all of them, whatever they are.
fn clears(rt: &impl Print) -> io::Result<()> {
    let mut six = Six::with([1, 65536, 65537, 0, 4294967295, 6]);
    for entries in [0, 1, 5, 6, 6] {
        clear(rt, &mut six, entries)?;
    }
    Ok(())
}

pub fn cases(rt: &impl Print) -> io::Result<()> {
    cleared(rt)?;
    clears(rt)
}
