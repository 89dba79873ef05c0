//! Trees of logic in which each name stands beside what it names: what the checker gives, and what the meaning and
//! the compiler stand on.
//!
//! - `tree`: the trees.
//! - `node`: nodes that hold others.
//! - `laws`: laws of the definitions.
#![tactic(auto)]

mod laws;
mod node;
mod tree;

pub use laws::tokens_are_counted;
pub use tree::{
    Argument, Arm, Array, Body, Counting, Declaration, Dimension, Field, Found, Function, Limit,
    MessageEntry, Number, NumberKind, Operation, Owner, Pick, Present, Procedure, Statement,
    StatementKind, Tree, Variable, Which, Whole, Words, WordsKind,
};
