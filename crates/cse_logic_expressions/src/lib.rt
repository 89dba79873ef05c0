//! Expressions of logic, and statements that hold no others: from trees of syntax to typed ones.
//!
//! - `judged`, `item`, `set`, `deck`, `call`, `list`: what parts of an expression are found to be.
//! - `made`: nodes, each as what it is found to be.
//! - `operator`: what operators make of their operands.
//! - `expression`: the walk over expressions.
//! - `place`, `assign`: what a value is put into, and calls that stand alone.
//! - `head`: the heads of loops, and literals.
//! - `errmsg`: what `errmsg` says.
//! - `action`: statements that hold no others.
//! - `laws`: a law of the definitions.
#![tactic(auto)]

pub mod action;
mod assign;
mod call;
mod deck;
pub mod errmsg;
pub mod expression;
pub mod head;
mod item;
pub mod judged;
mod laws;
pub mod list;
mod made;
mod operator;
mod place;
pub mod set;

pub use laws::expressions_are_judged;
pub use made::statement_found;
