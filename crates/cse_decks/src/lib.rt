//! What a program keeps over the whole run, and the text in which saved arrays live between runs.
#![tactic(auto)]

mod cells;
mod due;
mod error;
mod global;
mod laws;
mod lines;
mod loading;
mod progress;
mod saving;
mod starting;
mod store;

pub use error::DeckError;
pub use global::GlobalValue;
pub use laws::{cell_lines, deck_texts, saved_is_loaded};
pub use loading::load;
pub use saving::save;
pub use store::Store;
