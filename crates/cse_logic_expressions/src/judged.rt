//! What an expression is found to be.

use cse_logic_tree::{Number, Words};

/// A number or a text, with its tree where it is sound; or of no known kind.
#[derive(Drop)]
pub enum Judged<'a> {
    Number(Option<Number<'a>>),
    Words(Option<Words<'a>>),
    Unknown,
}
