//! The steps of programs: what each instruction does, that a verified program never gets stuck, and what a run of an event is (own).
//!
//! Definitions and laws, and what runs events. `specs/State.antt` says what a state is, `specs/Step.antt`
//! what each instruction does, one line an instruction, `specs/Run.antt` what a run is and how an event
//! begins, and `specs/Fits.antt` what fits. `specs/Results.antt` says what a run leaves, by the steps of the program, and where it
//! stands if memory lacks. A law is a function that does nothing: its contract is the law.
//!
//! - `laws`, `worked`: the laws of steps, and rows of them.
//! - `handled`: events with their routines.
//! - `runs`: what runs events, as whole runs know it.
//! - `run_laws`: which events do nothing, and which never lack memory.
#![tactic(auto)]

pub mod handled;
mod laws;
pub mod run_laws;
pub mod runs;
mod worked;

pub use laws::{
    case_columns_stay, case_ends, case_keeps_to_bound, columns_stay, event_columns_stay,
    event_ends, events_compose, events_go_well, first_states_fit, handled_events_count,
    one_outcome, runs_compose, steps_are_safe, upgrade_runs_the_same,
};
pub use worked::{worked_columns, worked_rows};
