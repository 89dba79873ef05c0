//! Entries in the order in which they came, each found by its key.
//!
//! - `keyed`: by a key that is copied. `named`: by a name.
#![tactic(auto)]

pub mod keyed;
pub mod named;
