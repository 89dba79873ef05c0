//! What typed logic means, by its structure, without stack, places or code, and that its code does what it means (own); and from
//! the bytes of logic to an image that does what they mean.
//!
//! - `building`: the image of logic, its message file and its order file. `compiling`: the program of a checked source. `error`: why
//!   there is no image. `reading`: what the types of what is read hold. Their worked rows are those of csbatch.
//!
//! All else is definitions and laws, and no code that runs. A law is a function that does nothing: its contract is the law.
//!
//! - `laws`, `worked`: the meaning. `specs/Setting.antt` says what the meaning of a tree depends on, `specs/Reading.antt` what is
//!   read of a case and a store and `specs/Writing.antt` what is put there, `specs/Expressions.antt` what numbers and texts mean,
//!   `specs/Statements.antt` what statements do, and `specs/Meaning.antt` what an event does, and which part of a procedure it is;
//!   `specs/Tables.antt` says that the compiler's table of events agrees. `specs/Means.antt` says when a program does what its logic
//!   means; `specs/Runs.antt` what a run and code in a routine are, `specs/Laid.antt` what stands ready for code, `specs/Plain.antt`
//!   of which expressions the laws speak, and `specs/Values.antt` and `specs/Acts.antt` what they say.
//! - `typed`: the code of typed trees is typed, and its bound is that of the tree. `specs/Fit.antt` says which trees fit the tables
//!   of a program, `specs/Stands.antt` which instructions of an image stand for their code, `specs/Steps.antt` how many steps they
//!   take, and `specs/Emitted.antt` has the laws.
//! - `small`: how much code a typed tree has, beside the tokens that it is written in. `specs/Few.antt` says which trees have small
//!   hot decks only, `specs/Entries.antt` how many constants, limits and texts stand in a code, and `specs/Measure.antt` and
//!   `specs/Totals.antt` have the laws.
//! - `sources`: the program of a sound source is typed, routine by routine. `specs/Checked.antt` says what is known of a source and
//!   its program, and has the laws; `specs/Cost.antt` says what the routines of a source cost.
//! - `room`: only a source that is beyond a limit of the format lacks room for its program. `specs/Within.antt` says which sources
//!   are within the limits, `specs/Given.antt` what is taken from the types of what is read, and `specs/Room.antt` has the law.
//! - `programs`: what compiled programs mean; `specs/Meant.antt` says it. In `proofs`, `ProgramRoutines` has the code of functions
//!   and procedures, `ProgramEntries` and `Distinct` the events that run them, `Rows` the rows of value sets, `Own` the names of
//!   parameters, `Kept` and `ProgramLoops` the turns of `do`, `Sound` all that `laws` ask of a routine, `ProgramWhole` the program,
//!   and `Alone` a dictionary and an image without a value that `verify` gave.
#![tactic(auto)]

mod building;
mod compiling;
mod error;
mod laws;
mod programs;
mod reading;
mod room;
mod small;
mod sources;
mod typed;
mod worked;

pub use building::build;
pub use compiling::compile;
pub use error::BuildFault;
pub use laws::{
    assignments_go, conditions_go, events_mean, functions_follow, meaning_is_the_outcome,
    numbers_go, runs_join, statements_land, tables_agree, words_go,
};
pub use programs::{compiled_code_means, means_alone, programs_end, programs_mean};
pub use room::large_sources_alone_lack_room;
pub use small::{code_is_small, source_is_small};
pub use sources::{
    bounds_are_costs, cheap_sources_are_bounded, code_of_a_source_is_typed, sources_are_sound,
    spelled_bounds_are_costs,
};
pub use typed::code_is_typed;
pub use worked::worked_meaning;
