//! A dictionary of a census file, read from the text that CSPro writes.
#![tactic(auto)]

mod check;
mod context;
mod dictionary;
mod fault;
mod faults;
mod field;
mod keys;
mod laws;
mod lookup;
mod names;
mod pairs;
mod parts;
mod places;
mod record_type;
mod rows;
mod search;
mod seen;
mod small;
mod whole;

pub use dictionary::Dictionary;
pub use fault::DictError;
pub use laws::sound_without_fault;
pub use lookup::Unseen;
