// The lines of `lines` for program/records.c, which reads and writes.
#![tactic(auto)]

ghost use Rattle.std.specs.Prelude.{◌≡◌, ◌+◌, ◌*◌, ◌/◌, ◌<◌, ◌≤◌, length};
ghost use Rattle.lines.specs.Answers.{text_of, AtStart};

// All lines of an input, at the start of `out`: how many bytes they take. Later bytes stay. Where `out` has no room for the longest line of each record
// and for `short`, the answer is 0, since C has no `Option`, and `out` stays.
#[unsafe(no_mangle)]
pub extern "C" fn bc4_records(input: &[u8], out: &mut [u8]) -> usize
    ensures lines { length input.now / 68 * 17 + 6 ≤ length out.old → AtStart (text_of input.now) out.old out.new result }
    ensures no_room { length out.old < length input.now / 68 * 17 + 6 → (result ≡ 0) × (out.new ≡ out.old) }
{
    if out.len() < input.len() / 68 * 17 + 6 {
        return 0;
    }
    lines::text(input, out)
}
