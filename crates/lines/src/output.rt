// Document 01, "The program": the line that answers a record.
ghost use Rattle.std.specs.Prelude.{◌≡◌, [], ◌∷◌, ◌/◌, ◌%◌, ◌<◌};
ghost use Rattle.lines.specs.Output.{digit, hex_line, refused_line};

const DIGITS: [u8; 16] = *b"0123456789abcdef";

// The two digits of a byte, the higher first.
fn digits(byte: u8) -> [u8; 2]
    ensures { result ≡ digit (byte / 16) ∷ digit (byte % 16) ∷ [] }
{
    [DIGITS[(byte / 16) as usize], DIGITS[(byte % 16) as usize]]
}

pub fn hex(block: u64) -> [u8; 17]
    ensures { result ≡ hex_line block }
{
    let pairs = index_list::bytes(block).map(digits);
    let mut line = [b'\n'; 17];
    line[..16].copy_from_slice(pairs.as_flattened());
    line
}

// The number of a refusal that has one digit.
#[tactic(auto, unfolding(crate::specs::Output::refused_line))]
pub fn refused(number: u8) -> [u8; 10]
    requires { number < 10 }
    ensures { result ≡ refused_line number }
{
    let mut line = *b"refused 0\n";
    line[8] += number;
    line
}
