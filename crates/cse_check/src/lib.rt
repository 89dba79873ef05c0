//! `check`: all faults of a dictionary, of logic and of the files beside it, each with its line, its cause and what to write.
//! `explain`: what a number means.
//!
//! - `table`, `sections`, `said`: what is said of faults, in tables.
//! - `dictionary`, `logic`, `lines`: the faults of a dictionary, of logic and of the files beside it.
//! - `near`, `known`, `advice`: what is said of a fault of logic.
//! - `shown`, `print`: how it is printed.
//! - `report`: from the texts of the files to what is printed.
//! - `words`, `command`: the commands.
//!
//! Logic that may be faulty: its tokens and its pieces, the faults of syntax of all of them, what is left without these, and what
//! may not do what was meant.
//!
//! - `gathered`, `found`: what is found, as long as there is memory.
//! - `cursor`, `line`: places and lines of a text.
//! - `token`, `role`, `scan`, `spot`: the tokens of a text.
//! - `cut`, `clause`: a text taken apart, and a procedure.
//! - `syntax`, `mend`, `body`: the faults of syntax, and a text without what they stand in.
//! - `warnings`, `items`, `flow`, `sets`, `unused`: logic that is sound, and yet may not do what was meant.
#![tactic(auto)]

mod advice;
mod body;
mod clause;
pub mod command;
mod cursor;
mod cut;
mod dictionary;
mod flow;
mod found;
mod gathered;
mod items;
mod known;
mod line;
mod lines;
mod logic;
mod mend;
mod near;
mod print;
mod report;
mod role;
mod said;
mod scan;
mod sections;
mod sets;
mod shown;
mod spot;
mod syntax;
mod table;
mod token;
mod unused;
mod warnings;
mod words;
