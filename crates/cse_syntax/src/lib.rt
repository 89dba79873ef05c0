//! The logic's tokens and trees: from a text to its tokens with their spans, and from these to the tree whose words
//! they are. The language is that of CSPro's batch logic (CSPro Users Guide, Batch Editing), as far as its grammar
//! goes; the limits, the faults and what is left out are own. Trees and tokens themselves are those of `cse_syntax_tree`.
//!
//! - `word`, `lexer`: the tokens of a text.
//! - `parser`, `expression`, `statement`, `declaration`: from tokens to trees, one method a rule.
//! - `quoted`: what a text in quotes says.
//! - `source`, `error`, `place`: a whole text, its faults, and where they are.
//! - `laws`: laws of the definitions.
#![tactic(auto)]

mod declaration;
mod error;
mod expression;
mod laws;
mod lexer;
mod parser;
mod place;
mod quoted;
mod source;
mod statement;
mod word;

pub use cse_syntax_tree::{
    Arm, Array, Body, Count, Counting, Declaration, Dimension, Expression, ExpressionKind,
    Function, Jump, Kind, Lexeme, Limit, Literal, Mark, Message, Operation, Operator, Parameter,
    Place, Procedure, Query, Relation, Special, Statement, StatementKind, Token, Tree, number_of,
};
pub use error::SyntaxError;
pub use laws::{longest_tokens, one_tree, skipped_text};
pub use place::{Position, position_of};
pub use quoted::text_of;
pub use source::{LIMIT, Source, parse};
