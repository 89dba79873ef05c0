//! Statuses of faults.

use cse_command_parts::fault::ending;
use cse_command_parts::outcome::{Stop, exit_status};
use cse_fault_numbers::WANT_OF_MEMORY;

/// Whether the fault of each number ends with its status.
fn are_endings() -> bool {
    let mut are_right = true;
    for number in 0..=255u8 {
        let is_of_devices = matches!(number, 70 | 71 | 72 | 90);
        are_right &= ending(number) == (if is_of_devices { 3 } else { 1 });
    }
    are_right
}

/// Whether each ending has its status.
pub(crate) fn are_right() -> bool {
    are_endings()
        & (exit_status(&Ok(())) == 0)
        & (exit_status(&Err(Stop::Usage)) == 2)
        & (exit_status(&Err(Stop::of_number(65))) == 1)
        & (exit_status(&Err(Stop::of_number(WANT_OF_MEMORY))) == 3)
}
