//! The parts of a whole run: the definition of a batch with its laws, and the run by what runs the events (own).
//!
//! - `totals`: what a run counts, and what stops it.
//! - `running`: the whole run over a data file, to the texts of `specs/Batch.antt`.
//! - `application`, `cases`, `events`: the application's events, a run of lines, and the events of a case.
//! - `outputs`, `beside`: where a run writes, and the lines of a run with what it lists beside them.
//! - `handled`: the events of a case that a program has a routine for.
//! - `parts`: the parts of a program that a run goes by.
//! - `laws`: laws of the definition of a batch. `untouched`: the law that columns which no edit wrote stay.
//!
//! It knows what runs events by the trait `Runs` of cse_event_runs alone, and no machine.
#![tactic(auto)]

mod application;
mod beside;
mod cases;
mod events;
mod handled;
mod laws;
mod outputs;
mod parts;
mod running;
mod totals;
mod untouched;
mod worked;

pub use laws::{applications_end, batches_end, cases_end, ends_are_final, fronts_stay};
pub use running::run_by;
pub use totals::{RunFault, Totals};
pub use untouched::{checks_change_nothing, untouched_columns_stay, worked_edit};
pub use worked::worked_rows;
