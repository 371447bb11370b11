// Document 01, "The program": records of 68 bytes from standard input, a line for each to standard output. What is written for a buffer is
// `lines::text`; no contract of the system's calls says what is read or written, so nothing but reading and writing is left here.
#![tactic(auto)]

ghost use Rattle.std.specs.Prelude.{◌≡◌, ◌*◌, ◌/◌, ◌<◌, ◌≤◌, length, take, IfOk, MatchResult};
ghost use Rattle.std.specs.Io.KnownBytes.{Consumes, IsAtEnd};

use std::io;
use std::io::{Read, Write};

// What a buffer holds: the records, and a line for each and `short`.
const RECORDS: usize = 960;

const INPUT: usize = RECORDS * 68;

const OUTPUT: usize = RECORDS * 17 + 6;

// A read that failed before the buffer was full or the input ended, after `count` bytes that were read.
#[derive(Clone, Copy)]
pub struct Cut {
    pub count: usize,
}

impl From<Cut> for io::Error {
    fn from(_cut: Cut) -> io::Error {
        io::Error::other("standard input cannot be read")
    }
}

// std's `read_exact` does not tell how much was read where the input ends or a read fails. A read that a signal interrupts has failed.
pub fn fill<R: Read>(input: &mut R, buf: &mut [u8]) -> Result<usize, Cut>
    ensures length { length buf.new ≡ length buf.old }
    ensures bound { MatchResult result (λ n. n ≤ length buf.old) (λ cut. cut.count ≤ length buf.old) }
    ensures bytes { MatchResult result (λ n. Consumes (R.remaining input.old) (R.remaining input.new) (take n buf.new)) (λ cut. Consumes (R.remaining input.old) (R.remaining input.new) (take cut.count buf.new)) }
    ensures end { IfOk result (λ n. n < length buf.new → IsAtEnd (R.remaining input.new)) }
{
    let mut done = 0;
    while done < buf.len() {
        match input.read(&mut buf[done..]) {
            Ok(0) => break,
            Ok(n) => done += n,
            Err(_) => return Err(Cut { count: done }),
        }
    }
    Ok(done)
}

// The bytes to answer. Where a read failed the input has not ended: what is there of a last record is not `short`.
fn answered(filled: Result<usize, Cut>) -> usize
    ensures { MatchResult filled (λ n. result ≡ n) (λ cut. result ≡ cut.count / 68 * 68) }
{
    match filled {
        Ok(n) => n,
        Err(cut) => cut.count / 68 * 68,
    }
}

// All input is read and all lines are written, or else the error. The range only shows that the program ends: no input fills so many buffers.
fn answer_all<R: Read, W: Write>(input: &mut R, output: &mut W) -> io::Result<()> {
    let mut records = [0u8; INPUT];
    let mut out = [0u8; OUTPUT];
    for _ in 0..u64::MAX {
        let filled = fill(input, &mut records);
        let used = lines::text(&records[..answered(filled)], &mut out);
        output
            .write_all(&out[..used])
            .map_err(|_| io::Error::other("standard output cannot be written"))?;
        if filled? < INPUT {
            return Ok(());
        }
    }
    Ok(())
}

// An error is a line on standard error, and the exit status goes with it.
fn status(answer: io::Result<()>, rt: &impl Eprint) -> u8
    ensures { MatchResult answer (λ done. result ≡ 0) (λ e. result ≡ 1) }
{
    match answer {
        Ok(()) => 0,
        Err(e) => {
            let _ = eprintln!(rt; "records: {e}");
            1
        }
    }
}

// The exit status: 0 where all input was read and all lines were written.
pub fn run<R: Read, W: Write>(input: &mut R, output: &mut W, rt: &impl Eprint) -> u8
    ensures { result ≤ 1 }
{
    status(answer_all(input, output), rt)
}
