//! Rows of cse_image_parts: `Pieces`, `count_placeholders`, `kind_at`, `are_few_placeholders`, `plain_text`, `is_plain_text`,
//! `array_name`, the rules of single fields, `event_code_number`, `op_named`, `is_right_a`, `is_right_b` and `is_right_c`;
//! and of cse_sections: `whole_of` and `fits_columns`.

ghost use Rattle.cse_test_checks.specs.Placeholders.{PlaceholdersAreWorked};
ghost use Rattle.cse_test_checks.specs.Parts.{PartsAreWorked};
ghost use Rattle.cse_test_checks.specs.Spelled.{SpelledAreWorked};

/// Law: which placeholders texts have, and that a `%` which begins none stands for itself.
pub fn worked_placeholders()
    ensures { PlaceholdersAreWorked }
{}

/// Law: which texts, names, fields and instructions an image may have, and which not.
pub fn worked_parts()
    ensures { PartsAreWorked }
{}

/// Law: which whole numbers are spelled, and which have room in three columns.
pub fn worked_spellings()
    ensures { SpelledAreWorked }
{}
