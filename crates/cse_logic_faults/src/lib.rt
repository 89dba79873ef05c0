//! The faults of statements of logic: all of them, in the order of the definitions of `cse_logic_names`, which have a line for
//! each node of a tree. A source is looked at in this way only where it is refused.
//!
//! - `found`: the faults that were found.
//! - `counts`: how many parameters and dimensions are declared.
//! - `kind`: numbers and texts.
//! - `name`: names of variables, cells, calls and items.
//! - `set`: value sets, records and hot decks.
//! - `expression`: the walk over expressions.
//! - `place`: what a value is put into, and calls that stand alone.
//! - `head`: the heads of loops, and literals.
//! - `message`: what `errmsg` says.
//! - `statement`: the walk over statements.
//! - `order`: the fault that is told.
#![tactic(auto)]

pub mod counts;
mod expression;
pub mod found;
mod head;
mod kind;
mod message;
mod name;
mod order;
mod place;
pub mod set;
pub mod statement;

pub use expression::digits;
pub use order::least;
