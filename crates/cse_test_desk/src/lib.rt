//! What the worked rows of commands are written in, and carried out over.
//!
//! - `tables`: files of rows, each row carried out. `row`: how it is carried out.
//! - `block`: what a row is, and how it is read. `text`: texts that stand in rows. `cut`: texts cut at marks.
//! - `desk`: the runtime that a row is carried out over. `amiss`: what may be amiss there. `sheet`: an open file of it.
#![tactic(auto)]

pub mod amiss;
pub mod block;
pub mod cut;
pub mod desk;
pub mod row;
pub mod sheet;
pub mod tables;
pub mod text;
