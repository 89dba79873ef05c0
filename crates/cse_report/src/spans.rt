//! Where texts stand in a list of bytes.

/// The place of a text's first byte, and the place after its last, from 0.
#[derive(Clone, Copy)]
pub struct TextSpan {
    pub start: usize,
    pub end: usize,
}
