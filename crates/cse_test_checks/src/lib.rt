//! Worked rows of public calls that no command makes or of which commands show too little, a row of each, as they are built; and worked
//! rows as laws: what definitions make of inputs for which the answer is known.
//!
//! What the rows of cse_test_files show, as whole runs and programs that are verified, has none here. The program cse_test_files
//! carries these out before its own, so that they are proved once: a crate of tests is proved twice. A call whose contract says that
//! its answer is a definition gives the answers of the laws too; there is no code of these that runs.
//!
//! - `values`, `parts`: numbers, texts and their columns; placeholders, names, single fields and instructions of images.
//! - `devices`: what a reader gave and a writer took. `images`: an image that is read and written, and jumps alone.
//! - `files`: runs of lines. `changes`: what a run changed. `written`: the items that logic may change.
//! - `joined`: forms of statements. `progress`: the cases that a terminal is told of.
//! - `failing`: what a command tells of devices that move few bytes in a call, and that fail (`device`). `turned`: images in which
//!   one bit was turned. `hello`: the image that both look at. `statuses`: the status of each number.
//! - `show`: all of them, by what each looks at.
//! - `value_laws`, `part_laws`, `image_laws`, `dictionary_laws`, `file_laws`, `logic_laws`: the laws.
#![tactic(auto)]

mod changes;
mod device;
mod devices;
mod dictionary_laws;
mod failing;
mod file_laws;
mod files;
mod hello;
mod image_laws;
mod images;
mod joined;
mod logic_laws;
mod part_laws;
mod parts;
mod persons;
mod progress;
pub mod show;
mod statuses;
mod turned;
mod value_laws;
mod values;
mod written;

pub use dictionary_laws::{worked_dictionaries, worked_dictionary_faults};
pub use file_laws::{worked_decks, worked_reports, worked_runs};
pub use image_laws::worked_images;
pub use logic_laws::worked_faults_of_logic;
pub use part_laws::{worked_parts, worked_placeholders, worked_spellings};
pub use value_laws::{worked_fields, worked_numbers, worked_texts};
