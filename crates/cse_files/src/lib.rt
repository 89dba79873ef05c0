//! Files of a command: told apart, opened, read whole, and written whole or not at all.
//!
//! - `place`: where a path leads. `clashing`: which files are one.
//! - `opened`: files with the paths that they were opened by. `whole`: a file that is read whole.
//! - `replacing`: a file that is written beside the old one and takes its name. `fault`: why a file was not read or
//!   written.
#![tactic(auto)]

mod clashing;
mod fault;
mod opened;
mod place;
mod replacing;
mod whole;

pub use clashing::{Named, first_clash};
pub use fault::{ReadFault, WriteFault};
pub use opened::{OpenedInput, OpenedOutput, create_output, open_input};
pub use place::{Place, place_of};
pub use replacing::{Replaced, replace};
pub use whole::{WholeFile, read_all, read_where_there, read_whole};
