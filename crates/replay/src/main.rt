// Compares the encoder with what the Rust text answered. Standard input is a list of entries of 76 bytes: a record of 68 bytes, as the
// program `records` reads it, and the eight bytes that the Rust gave for it.
#![tactic(auto)]

ghost use Rattle.std.specs.Prelude.{◌≡◌, ◌+◌, ◌≤◌, ◌<◌, length, IfOk};
ghost use Rattle.replay.specs.Entry.{rust_of, differs_of, tallied};

use std::io;
use std::io::Write;

// What a buffer holds.
const INPUT: usize = 860 * 76;

// How many entries, and how many of them differ.
#[derive(Clone, Copy)]
struct Tally {
    records: u64,
    differ: u64,
}

// The eight bytes that the Rust gave as one number, byte 0 lowest.
fn rust(entry: &[u8; 76]) -> u64
    ensures { result ≡ rust_of entry.now }
{
    let low = fields::read_u32(entry, 68);
    let high = fields::read_u32(entry, 72);
    u64::from(low) + 4294967296 * u64::from(high)
}

// A record that is refused differs: the Rust refuses none.
fn differs(entry: &[u8; 76]) -> bool
    ensures { result ≡ differs_of entry.now }
{
    let record = entry.first_chunk::<68>().unwrap();
    match lines::answer_to(record) {
        Ok(block) => block != rust(entry),
        Err(_) => true,
    }
}

impl Tally {
    // Counts on over the entries of a buffer, and names those that differ. An error is a write that failed.
    fn with<W: Write>(self, input: &[u8], out: &mut W) -> io::Result<Tally>
        requires { (self.records + length input.now < 18446744073709551616) × (self.differ ≤ self.records) }
        ensures { IfOk result (λ t. t ≡ tallied self.records self.differ input.now) }
    {
        let (entries, _) = input.as_chunks::<76>();
        let mut tally = self;
        for entry in entries {
            if differs(entry) {
                writeln!(out, "record {} differs", tally.records)?;
                tally.differ += 1;
            }
            tally.records += 1;
        }
        Ok(tally)
    }
}

// The range shows that the program ends and that the sums fit: no input fills so many buffers.
fn main(rt: HostRuntime) -> io::Result<()> {
    let mut reader = rt.stdin();
    let mut out = rt.stdout();
    let mut input = [0u8; INPUT];
    let mut tally = Tally {
        records: 0,
        differ: 0,
    };
    for turn in 0..1_000_000_000_000u64 {
        let n = stream::fill(&mut reader, &mut input)?;
        tally = tally.with(&input[..n], &mut out)?;
        if n < INPUT {
            if n % 76 != 0 {
                out.write_all(b"short\n")?;
            }
            break;
        }
    }
    writeln!(out, "{} records, {} differ", tally.records, tally.differ)
}
