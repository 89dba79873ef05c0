//! Rows of cse_value: `add`, `sub`, `mul`, `quo`, `rem`, `neg`, `truth`, `compare`, `show_num`, `read_num`, `put_num`,
//! `compare_text` and `put_text`.

ghost use Rattle.cse_test_checks.specs.Numbers.{NumbersAreWorked};
ghost use Rattle.cse_test_checks.specs.Fields.{FieldsAreWorked};
ghost use Rattle.cse_test_checks.specs.Texts.{TextsAreWorked};

/// Law: what numbers come to, at the ends of 64 bits too; special values make no number; how numbers compare, and how
/// they are shown.
pub fn worked_numbers()
    ensures { NumbersAreWorked }
{}

/// Law: the values of columns, and the columns of values.
pub fn worked_fields()
    ensures { FieldsAreWorked }
{}

/// Law: how texts compare, padded with blanks, and the columns of texts.
pub fn worked_texts()
    ensures { TextsAreWorked }
{}
