// Document 01, "The program": a line for each record of 68 bytes.
#![tactic(auto)]

ghost use Rattle.std.specs.Prelude.{◌≡◌, ◌+◌, ◌*◌, ◌/◌, ◌≤◌, length};
ghost use Rattle.lines.specs.Answers.{answer_of, line_of, lines_to, text_of, AtStart};

mod input;
mod output;

use bc4::Refusal;

pub fn answer_to(record: &[u8; 68]) -> Result<u64, Refusal>
    ensures { result ≡ answer_of record.now }
{
    let samples = input::samples(record);
    bc4::word::encode_block(&samples, input::read_word(record))
}

// A text, at the start of `out`: how many bytes it takes. Later bytes stay, here and below.
fn put(text: &[u8], out: &mut [u8]) -> usize
    requires { length text.now ≤ length out.old }
    ensures { AtStart text.now out.old out.new result }
{
    out[..text.len()].copy_from_slice(text);
    text.len()
}

// The line of a record. A record is refused for few reasons, all of one digit.
fn line(record: &[u8; 68], out: &mut [u8]) -> usize
    requires { 17 ≤ length out.old }
    ensures { AtStart (line_of (answer_of record.now)) out.old out.new result }
{
    match answer_to(record) {
        Ok(block) => put(&output::hex(block), out),
        Err(q) => put(&output::refused(bc4::number(q)), out),
    }
}

// The lines of all whole records of `input`.
fn lines(input: &[u8], out: &mut [u8]) -> usize
    requires { length input.now / 68 * 17 ≤ length out.old }
    ensures { AtStart (lines_to input.now (length input.now / 68)) out.old out.new result }
{
    let (records, _) = input.as_chunks::<68>();
    let mut at = 0;
    for record in records {
        at += line(record, &mut out[at..]);
    }
    at
}

// All that the program writes for an input. A caller lends room for the longest line of each record and for `short`.
pub fn text(input: &[u8], out: &mut [u8]) -> usize
    requires { length input.now / 68 * 17 + 6 ≤ length out.old }
    ensures { AtStart (text_of input.now) out.old out.new result }
{
    let at = lines(input, out);
    if input.len() % 68 == 0 {
        return at;
    }
    at + put(b"short\n", &mut out[at..])
}
