//! What names of logic mean, and the files of messages and of the edit order that stand beside it. `specs/WellTyped` says when
//! logic is sound.
//!
//! - `messages`: a message file.
//! - `gaps`: blanks and digits at the front of a line.
//! - `order`: an order file.
//! - `error`: why a text is refused.
//! - `meaning`, `names`, `scope`: what names mean, and what is known at a place of logic.
//! - `faults`: the fault that is told.
#![tactic(auto)]

pub mod error;
pub mod faults;
mod gaps;
pub mod meaning;
pub mod messages;
pub mod names;
pub mod order;
pub mod scope;
