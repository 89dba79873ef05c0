//! The trees of logic, what they say, and the tokens that they are made of. What the words of a tree are is defined here, so that
//! crates above need no parser. The language is that of CSPro's batch logic (CSPro Users Guide, Batch Editing), as far as
//! its grammar goes; the limits are own.
//!
//! - `token`: the tokens of a text.
//! - `tree`: syntax trees.
//! - `number`: the numbers that digits write.
#![tactic(auto)]

mod number;
mod token;
mod tree;

pub use number::{is_within, number_of};
pub use token::{Kind, Mark, Token};
pub use tree::{
    Arm, Array, Body, Count, Counting, Declaration, Dimension, Expression, ExpressionKind,
    Function, Jump, Lexeme, Limit, Literal, Message, Operation, Operator, Parameter, Place,
    Procedure, Query, Relation, Special, Statement, StatementKind, Tree,
};
