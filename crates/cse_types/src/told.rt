//! The messages of a source, in its order.

use cse_syntax_tree::Message;

/// A message of the source.
#[derive(Clone, Copy)]
pub struct Told<'a> {
    pub message: Message<'a>,
    /// Whether it is only counted.
    pub is_summary: bool,
}
