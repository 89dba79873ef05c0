//! The numbers that digits write.

ghost use Rattle.std.specs.Prelude.{◌≡◌, ◌≤◌, ◌<◌, ◌+◌, ◌*◌, MatchOption, true, false};
ghost use Rattle.std.specs.List.{list_all};
ghost use Rattle.std.specs.Char.{is_ascii_digit};
ghost use Rattle.cse_syntax_tree.specs.Leaf as spec;
ghost use Rattle.cse_syntax_tree.specs.Leaf.{number_from, MOST};

/// A number with one more digit behind it, if it is at most this.
fn appended(most: u64, value: u64, digit: u8) -> Option<u64>
    ensures { MatchOption result (most < 10 * value + digit) (λ v. (v ≡ 10 * value + digit) × (v ≤ most)) }
{
    let digit = u64::from(digit);
    if digit > most || value > (most - digit) / 10 {
        return None;
    }
    Some(10 * value + digit)
}

/// The number that digits write, if it is at most this.
fn value(most: u64, digits: &[u8]) -> Option<u64>
    ensures { MatchOption result (most < number_from 0 digits.now) (λ v. (v ≡ number_from 0 digits.now) × (v ≤ most)) }
{
    let mut value: u64 = 0;
    for byte in digits {
        match appended(most, value, byte.saturating_sub(b'0')) {
            Some(longer) => value = longer,
            None => return None,
        }
    }
    Some(value)
}

fn all_digits(text: &[u8]) -> bool
    ensures { result ≡ list_all is_ascii_digit text.now }
{
    text.iter().all(|b| b.is_ascii_digit())
}

/// Whether these are digits, one at least.
#[tactic(auto, unfolding(crate::specs::Leaf::is_digits))]
fn is_digits(text: &[u8]) -> bool
    ensures { result ≡ spec.is_digits text.now }
{
    if text.is_empty() {
        return false;
    }
    all_digits(text)
}

/// Whether these are digits, and write a number in this range.
#[tactic(auto, unfolding(crate::specs::Leaf::is_within))]
pub fn is_within(least: u64, most: u64, digits: &str) -> bool
    ensures { result ≡ spec.is_within least most digits.now }
{
    if !is_digits(digits.as_bytes()) {
        return false;
    }
    match value(most, digits.as_bytes()) {
        Some(value) => least <= value,
        None => false,
    }
}

/// The number that a literal writes: none for what isn't digits alone, and for more than 9,223,372,036,854,775,807.
#[tactic(auto, unfolding(crate::specs::Leaf::is_within))]
pub fn number_of(digits: &str) -> Option<u64>
    ensures { MatchOption result (spec.is_within 0 spec.MOST digits.now ≡ false) (λ v. (spec.is_within 0 spec.MOST digits.now ≡ true) × (v
        ≡ spec.number_of digits.now)) }
{
    if !is_digits(digits.as_bytes()) {
        return None;
    }
    value(9_223_372_036_854_775_807, digits.as_bytes())
}
