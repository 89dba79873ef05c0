//! Instructions with their constants, texts and loop limits by value.

use cse_image_parts::instruction::Op;

/// An instruction that has no place in a table yet.
#[derive(Clone, Copy)]
pub enum Wide<'a> {
    Constant(i64),
    /// A text with its quotes.
    Quoted(&'a str),
    /// The empty text.
    Blank,
    /// The opener of a counting loop: its most turns, and its end.
    Turns(u32, usize),
    /// Any other, by its fields.
    Plain(Op, u8, u16, usize),
}
