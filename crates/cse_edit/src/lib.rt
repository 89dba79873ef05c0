//! An edit whole: from the texts that an office writes to the texts that it gets (own).
//!
//! - `editing`: `edit`, which reads, checks, builds, verifies and runs, as `compile` and then `run` do, with no file between.
//! - `texts`, `fault`: what it begins with, and why it stops.
//! - `items`: the list of the items that a source may change. `sources`, `marks`: the walks over functions and procedures, and
//!   over statements.
//! - `laws`: the batch of a program that three texts are built to is what the logic means. `stay_laws`: what an office may rely on
//!   of its data, in the words of its logic.
//!
//! `specs/Logic.antt` defines the batch that logic means, without a program: `specs/Edit.antt` says what `edit` answers by it.
//! `specs/Stay.antt` says what stays: each column that is of no item that a statement names.
#![tactic(auto)]

mod editing;
mod fault;
mod items;
mod laws;
mod marks;
mod sources;
mod stay_laws;
mod texts;
mod worked;

pub use editing::{edit, starting_store};
pub use fault::EditFault;
pub use items::items_written;
pub use laws::{batches_mean, built_images_write_what_is_meant};
pub use stay_laws::{checks_change_nothing, edits_keep_others, named_items_alone_change};
pub use texts::Texts;
pub use worked::worked_edits;
