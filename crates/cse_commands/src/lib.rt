//! The commands of csbatch: from the words of its command line to files, streams and exit statuses.
//!
//! - `commands`: from the words to what is done.
//! - `edit_data`: `edit`, logic over a data file with no image between. `edited`: what it came to.
//! - `start`: what the program is: a command, what is told of it, and its status.
//! - `run_image`: an image over a data file. `ran`: what it came to. `telling`: what is told of it. `running`: the command.
#![tactic(auto)]

pub mod commands;
pub mod edit_data;
pub mod edited;
pub mod ran;
pub mod run_image;
pub mod running;
pub mod start;
pub mod telling;
