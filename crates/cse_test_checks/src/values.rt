//! Numbers and texts, as they are built: a row of each call. What numbers come to, how they and texts compare, and how they are
//! read and written, as columns and in a value of a dictionary, are laws of `value_laws`.

use cse_sections::number::{fits_columns, whole_of};
use cse_value::number::Num::{self, Whole};
use cse_value::number::{Rel, add, compare, mul, neg, quo, rem, sub, truth};
use cse_value::text::{TEXT_LEN, compare_text};
use cse_value::{put_num, put_text, read_num, read_text, show_num};

fn computes() -> bool {
    (add(Whole(2), Whole(3)) == Whole(5))
        & (sub(Whole(2), Whole(3)) == Whole(-1))
        & (mul(Whole(-4), Whole(3)) == Whole(-12))
        & (quo(Whole(-7), Whole(2)) == Whole(-3))
        & (rem(Whole(i64::MIN), Whole(-1)) == Whole(0))
        & (neg(Whole(i64::MAX)) == Whole(-9223372036854775807))
        & (quo(Whole(i64::MIN), Whole(-1)) == Num::Undef)
        & truth(Whole(-1))
        & compare(Rel::Less, Whole(-3), Whole(3))
        & (show_num(Whole(i64::MIN)).as_str() == "-9223372036854775808")
}

/// Whether a number is read of columns as it was written there.
fn is_kept(value: Num, zero_fill: bool) -> bool {
    let mut columns = ['9'; 5];
    put_num(&mut columns, value, zero_fill, None);
    read_num(&columns, None) == value
}

fn reads_and_writes_numbers() -> bool {
    is_kept(Whole(-12), true)
        & is_kept(Whole(12), false)
        & is_kept(Num::NotAppl, false)
        & (whole_of(b"-9223372036854775808") == Some(i64::MIN))
        & fits_columns(3, -99)
        & !fits_columns(3, -100)
}

fn reads_and_writes_texts() -> bool {
    let mut columns = ['x'; 3];
    put_text(&mut columns, &read_text(&['é', '5']));
    let longest = read_text(&['y'; TEXT_LEN]);
    (read_text(&columns).as_slice() == ['é', '5', ' '].as_slice())
        & compare_text(Rel::Greater, &longest, &read_text(&['y']))
        & compare_text(Rel::Less, &longest, &read_text(&columns))
}

/// Whether values are computed, read and written as they should be.
pub(crate) fn are_right() -> bool {
    computes() & reads_and_writes_numbers() & reads_and_writes_texts()
}
