//! The commands that an office looks at, `diff`, `look`, `dict`, `report` and `show`: their words, files and statuses. What they
//! tell: what a data file is, what was read of a dictionary, the outputs of a run, an image, and, of two data files of one
//! dictionary, line beside line, what a run changed. How it is written: tables of a terminal, CSV and pages of HTML.
//!
//! - `command`: does what the words ask for, and tells what was not done. Words of other commands it leaves to others.
//! - `words`: what the words ask for. `stop`: why a command has not done its work, and how that is told.
//! - `files`: files, and what is printed. `apart`: whether they are apart.
//! - `diff`: `diff`. `others`: `look`, `report` and `show`.
//!
//! What is there:
//!
//! - `look`: what a data file is. `record`: the lines of a record. `field`: what stands in the fields of an item.
//!   `columns`: the columns of a line. `look_text`: how it is told.
//! - `dict_text`: what was read of a dictionary. `sets_text`: its value sets.
//! - `report`: what a listing and frequencies tell. `report_text`, `report_sheet`, `report_page`: how it is told.
//! - `show`: the tables of a program, and its routines with their instructions. `fields`: what the fields of an instruction
//!   stand for. `op_names`: what opcodes are called. `steps`: how many steps a routine may take.
//! - `text`: a text that is written piece by piece. What stands in a row is a `Cell`, wherever it is told.
//! - `rows`: the tables of a terminal. `page`: pages of HTML. `sheet`: CSV.
//! - `names`: the names and labels of a dictionary, which no other crate reads. `spelled`: how they are spelled.
//!
//! What a run changed:
//!
//! - `compared`: two files, side by side: how often each item occurs and is changed. `watch`: what sees the runs as they are counted.
//!   `fault`: why a comparison stops.
//! - `lines`: the lines of a run, with their records and columns. `alike`: whether two runs have the same lines. `pair`: which lines
//!   pair up. `item`: an item in two lines, side by side. `part`: the part of two lines in which they differ.
//! - `count`: how often an item occurs, and how often it was changed. `seen`: how often the items of an owner occur. `sums`: the
//!   counts of all items.
//! - `counts`: lines and cases. `kinds`: how often each change was made. `areas`: what was changed in each area. `shares`: the
//!   values of items. `all_changes`: all of it. `watching`: how two runs are seen, and each change as a row.
//! - `diff_text`: on a terminal. `diff_sheet`: as CSV. `diff_page`, `changed_items`: as a page.
#![tactic(auto)]

mod alike;
mod all_changes;
mod apart;
mod areas;
mod changed_items;
mod columns;
pub mod command;
mod compared;
mod count;
mod counts;
mod dict_text;
mod diff;
mod diff_page;
mod diff_sheet;
mod diff_text;
mod fault;
mod field;
mod fields;
mod files;
mod item;
mod kinds;
mod lines;
mod look;
mod look_text;
pub mod names;
mod op_names;
mod others;
pub mod page;
mod pair;
mod part;
mod record;
mod report;
mod report_page;
mod report_sheet;
mod report_text;
pub mod rows;
mod seen;
mod sets_text;
mod shares;
pub mod sheet;
mod show;
pub mod spelled;
mod steps;
mod stop;
mod sums;
pub mod text;
mod watch;
mod watching;
mod words;

pub use alike::is_known_like;
pub use all_changes::Diff;
pub use areas::Area;
pub use compared::{compare, compare_seen};
pub use count::Count;
pub use dict_text::put_dict;
pub use diff_page::put_page;
pub use diff_sheet::put_sheet;
pub use diff_text::put_diff;
pub use fault::{CompareFault, SeenFault};
pub use item::{column_at, is_changed};
pub use lines::RunLines;
pub use look::{Look, look_at};
pub use look_text::put_look;
pub use part::{Part, differing, is_outside};
pub use report::{NO_FREQUENCIES, NO_LISTING, Report, Trouble};
pub use report_page::put_report_page;
pub use report_sheet::put_report_sheet;
pub use report_text::put_report;
pub use show::put_image;
pub use watch::Watch;
pub use watching::{Watching, compare_watched};
