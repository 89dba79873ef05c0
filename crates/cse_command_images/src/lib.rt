//! Images made and tried, from file to file: `compile`, and `try`.
//!
//! - `compile_image`: the image of the texts of files, written whole. `compiled`: what it came to. `compile_telling`: what is printed
//!   of it.
//! - `try_image`: the run of an image's preproc, and what is printed of it. `telling`: its fault. `trying`: the command, over a file.
#![tactic(auto)]

pub mod compile_image;
pub mod compile_telling;
pub mod compiled;
pub mod telling;
pub mod try_image;
pub mod trying;
