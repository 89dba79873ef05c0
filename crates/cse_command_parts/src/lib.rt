//! What the commands of csbatch share: words, files, printed lines and faults; and `verify`, from texts to what is known of a program.
//!
//! - `plan`: from the words of a command line to a command with its paths. `words`: the words of all commands.
//! - `verify_image`: `verify`, from a dictionary and an image to what is known of the program. `verdict`:
//!   its lines. `verifying`: the same over files.
//! - `judged`: what `verify` and `try` judged. `files`: the files of the commands. `texts`: dictionaries and logic among them. `role`, `apart`: what each is to its command, and that no two are one.
//! - `printing`, `fault`: lines for a device. `telling`: what a command came to, printed. `outcome`: the exit status.
//! - `watched`, `watched_runtime`, `watched_file`: how far a run is, told on a terminal while it goes on: the files of a command whose
//!   reads are told, a runtime that passes on to another one what csbatch asks of it, and an open file of it. `counted_cases`: how
//!   many cases begin in the bytes of a data file. `meter`: how much was read of that file, when that was told last, and the terminal.
#![tactic(auto)]

pub mod apart;
pub mod counted_cases;
pub mod fault;
pub mod files;
pub mod judged;
pub mod meter;
pub mod outcome;
pub mod plan;
pub mod printing;
pub mod role;
pub mod telling;
pub mod texts;
pub mod verdict;
pub mod verify_image;
pub mod verifying;
pub mod watched;
pub mod watched_file;
pub mod watched_runtime;
mod words;
