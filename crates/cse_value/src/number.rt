//! Whole numbers and the special values: arithmetic, relations and conditions.
//!
//! `NotAppl`, `Missing` and `Undef` are CSPro's special values `notappl`, `missing` and `default`
//! (CSPro Users Guide, special values). That numbers are whole, and what passes 64 bits, is own.

ghost use Rattle.std.specs.Prelude.{◌≡◌};
ghost use Rattle.cse_value.specs.Number.{sum_of, difference_of, product_of, quotient_of, remainder_of, negative_of, holds, is_condition};

/// A number, or the name of a special value.
#[derive(Clone, Copy, PartialEq, Eq)]
pub enum Num {
    Whole(i64),
    /// `notappl`: the field is blank.
    NotAppl,
    /// `missing`: the field has its item's code of missing.
    Missing,
    /// `default`: no number.
    Undef,
}

/// A relation of two values.
#[derive(Clone, Copy)]
pub enum Rel {
    Equal = 0,
    NotEqual = 1,
    Less = 2,
    AtMost = 3,
    Greater = 4,
    AtLeast = 5,
}

/// The sum. A special operand, or a sum out of 64 bits, gives `Undef`.
pub fn add(x: Num, y: Num) -> Num
    ensures { result ≡ sum_of x y }
{
    match (x, y) {
        (Num::Whole(a), Num::Whole(b)) => match a.checked_add(b) {
            Some(sum) => Num::Whole(sum),
            None => Num::Undef,
        },
        _ => Num::Undef,
    }
}

/// The difference. A special operand, or a difference out of 64 bits, gives `Undef`.
pub fn sub(x: Num, y: Num) -> Num
    ensures { result ≡ difference_of x y }
{
    match (x, y) {
        (Num::Whole(a), Num::Whole(b)) => match a.checked_sub(b) {
            Some(difference) => Num::Whole(difference),
            None => Num::Undef,
        },
        _ => Num::Undef,
    }
}

/// The product. A special operand, or a product out of 64 bits, gives `Undef`.
pub fn mul(x: Num, y: Num) -> Num
    ensures { result ≡ product_of x y }
{
    match (x, y) {
        (Num::Whole(a), Num::Whole(b)) => match a.checked_mul(b) {
            Some(product) => Num::Whole(product),
            None => Num::Undef,
        },
        _ => Num::Undef,
    }
}

/// The quotient, truncated toward zero. A special operand, a zero divisor, or a quotient out of 64
/// bits gives `Undef`.
pub fn quo(x: Num, y: Num) -> Num
    ensures { result ≡ quotient_of x y }
{
    match (x, y) {
        (Num::Whole(a), Num::Whole(b)) => match a.checked_div(b) {
            Some(quotient) => Num::Whole(quotient),
            None => Num::Undef,
        },
        _ => Num::Undef,
    }
}

/// The remainder that belongs to the truncated quotient over whole numbers without limit. A special
/// operand, or a zero divisor, gives `Undef`. A number below its divisor is what remains, without a division.
pub fn rem(x: Num, y: Num) -> Num
    ensures { result ≡ remainder_of x y }
{
    match (x, y) {
        (Num::Whole(a), Num::Whole(b)) if 0 <= a && a < b => Num::Whole(a),
        (Num::Whole(_), Num::Whole(0)) => Num::Undef,
        (Num::Whole(a), Num::Whole(b)) => Num::Whole(a.wrapping_rem(b)),
        _ => Num::Undef,
    }
}

/// The negative. A special operand, or a negative out of 64 bits, gives `Undef`.
pub fn neg(x: Num) -> Num
    ensures { result ≡ negative_of x }
{
    match x {
        Num::Whole(a) => match a.checked_neg() {
            Some(negative) => Num::Whole(negative),
            None => Num::Undef,
        },
        _ => Num::Undef,
    }
}

/// Whether the relation holds. `Equal` and `NotEqual` compare special values as values; the four
/// orders with a special operand fail.
pub fn compare(rel: Rel, x: Num, y: Num) -> bool
    ensures { result ≡ holds rel x y }
{
    match (x, y) {
        (Num::Whole(a), Num::Whole(b)) => match rel {
            Rel::Equal => a == b,
            Rel::NotEqual => a != b,
            Rel::Less => a < b,
            Rel::AtMost => a <= b,
            Rel::Greater => a > b,
            Rel::AtLeast => a >= b,
        },
        _ => match rel {
            Rel::Equal => x == y,
            Rel::NotEqual => x != y,
            _ => false,
        },
    }
}

/// Whether a condition with this value holds: a whole number other than 0.
pub fn truth(x: Num) -> bool
    ensures { result ≡ is_condition x }
{
    match x {
        Num::Whole(a) => a != 0,
        _ => false,
    }
}
