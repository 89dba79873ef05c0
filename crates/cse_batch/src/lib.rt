//! From bytes to bytes: whole runs over data files.
//!
//! `whole` runs a data file by a machine of its own. All else stands in `cse_batch_parts`, which knows no machine, and
//! `check_image`, which gives the program that `run` takes, in `cse_verify`.
#![tactic(auto)]

mod whole;

pub use cse_batch_parts::{
    RunFault, Totals, applications_end, batches_end, cases_end, checks_change_nothing,
    ends_are_final, fronts_stay, run_by, untouched_columns_stay, worked_edit, worked_rows,
};
pub use cse_steps::runs::Runs;
pub use cse_verify::{CheckFault, check_image};
pub use whole::run;
