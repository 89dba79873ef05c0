//! Blanks, tabs and digits at the front of a line.

ghost use Rattle.std.specs.Prelude.{◌≡◌, ◌≤◌, length, not, position};
ghost use Rattle.std.specs.Char.{is_ascii_digit};
ghost use Rattle.cse_logic_names.specs.MessageFile.{is_gap, without_gaps, begins_with_gap, digit_count};

fn is_gap(byte: u8) -> bool
    ensures { result ≡ is_gap byte }
{
    byte == b' ' || byte == b'\t'
}

/// Whether a blank or a tab stands in front.
pub fn begins_with_gap(text: &[u8]) -> bool
    ensures { result ≡ begins_with_gap text.now }
{
    match text {
        [first, ..] => is_gap(*first),
        [] => false,
    }
}

/// The text without the blanks and tabs in front.
pub fn without_gaps(text: &[u8]) -> &[u8]
    ensures { result.now ≡ without_gaps text.now }
{
    let mut rest = text;
    'gaps: while begins_with_gap(rest) {
        rest = &rest[1..];
    }
    rest
}

/// Where the first byte stands that is no digit.
fn other_place(line: &[u8]) -> Option<usize>
    ensures { result ≡ position (λ c. not (is_ascii_digit c)) line.now }
{
    line.iter().position(|c| !c.is_ascii_digit())
}

/// How many digits stand in front.
#[tactic(auto, unfolding(crate::specs::MessageFile::digit_count))]
pub fn digit_count(line: &[u8]) -> usize
    ensures count { result ≡ digit_count line.now }
    ensures within { result ≤ length line.now }
{
    match other_place(line) {
        Some(place) => place,
        None => line.len(),
    }
}
