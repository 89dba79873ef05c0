//! The search for the pair of a value set that contains a number.
ghost use Rattle.std.specs.Prelude.{◌≡◌, ◌<◌, ◌∷◌, ◌++◌, length, true, find};
ghost use Rattle.std.specs.Option.{option_copied};
ghost use Rattle.cse_dict.specs.Dictionary.{ascends, contains, starts_above};

use crate::rows::NumberSpan;

/// Whether the first pair starts above a number.
fn starts_above(high: i64, spans: &[NumberSpan]) -> bool
    ensures { result ≡ starts_above high spans.now }
{
    match spans {
        [first, ..] => high < first.low,
        [] => true,
    }
}

/// Whether each pair ends before the next one starts.
pub fn ascends(spans: &[NumberSpan]) -> bool
    ensures { result ≡ ascends spans.now }
{
    let mut rest = spans;
    'spans: while let [first, more @ ..] = rest {
        if first.low > first.high {
            return false;
        }
        if !starts_above(first.high, more) {
            return false;
        }
        rest = more;
    }
    true
}

/// Whether the pair contains the number.
fn contains(number: i64, span: NumberSpan) -> bool
    ensures { result ≡ contains number span }
{
    span.low <= number && number <= span.high
}

/// The first pair that contains the number, by going over them in order.
fn scan(spans: &[NumberSpan], number: i64) -> Option<&NumberSpan>
    ensures { option_copied result ≡ find (contains number) spans.now }
{
    spans.iter().find(|span| contains(number, **span))
}

/// The pairs before the middle one, the middle one, and those behind it.
fn halves(spans: &[NumberSpan]) -> (&[NumberSpan], &NumberSpan, &[NumberSpan])
    requires { 0 < length spans.now }
    ensures parts { spans.now ≡ result.0.now ++ result.1.now ∷ result.2.now }
    ensures front { length result.0.now < length spans.now }
    ensures back { length result.2.now < length spans.now }
{
    let middle = spans.len() / 2;
    (&spans[..middle], &spans[middle], &spans[middle + 1..])
}

/// The pair that contains the number, by halves.
fn search(spans: &[NumberSpan], number: i64) -> Option<&NumberSpan>
    requires { ascends spans.now ≡ true }
    ensures { option_copied result ≡ find (contains number) spans.now }
{
    let mut rest = spans;
    'halves: while !rest.is_empty() {
        let (front, span, back) = halves(rest);
        if number < span.low {
            rest = front;
            continue;
        }
        if span.high < number {
            rest = back;
            continue;
        }
        return Some(span);
    }
    None
}

/// The first pair that contains the number.
pub fn span_of(spans: &[NumberSpan], is_ascending: bool, number: i64) -> Option<&NumberSpan>
    requires { is_ascending ≡ ascends spans.now }
    ensures { option_copied result ≡ find (contains number) spans.now }
{
    if is_ascending {
        return search(spans, number);
    }
    scan(spans, number)
}
