//! A program's image, read and written: exactly the spellings of programs are read, in version 2 of the
//! format or in version 1, whose programs are upgraded; of other bytes the first fault from the left is
//! told. Images are written in version 2.
#![tactic(auto)]

mod checking;
mod code;
mod error;
mod fitting;
mod laws;
mod program;
mod read_arrays;
mod read_code;
mod read_entries;
mod read_routines;
mod read_shape;
mod read_values;
mod reading;
mod sections;
mod view;
mod writing;

pub use checking::text_fits;
pub use code::{Code, Owned};
pub use cse_image_parts::entries::{
    Ambient, Array, Event, EventCode, EventEntry, Gift, GlobalKind, GlobalVariable, Local,
    LocalKind, Message, Parts, Routine, Tables,
};
pub use cse_image_parts::instruction::{Instr, Op};
pub use cse_image_parts::placeholders::{
    ArgumentKind, Kinds, Piece, Pieces, count_placeholders, kind_at,
};
pub use cse_image_parts::version::Version;
pub use error::ImageError;
pub use laws::{none_begins_another, one_spelling, upgrade_has_a_spelling};
pub use program::{Program, read_image, write_image};
pub use view::{CodeView, view_image};
