//! What the next line of a deck text must be.

/// What is due.
#[derive(Clone, Copy)]
pub enum Due {
    Heading,
    /// The line of an array, or the end.
    Opening,
    /// The cell of an array at a place.
    Cell(usize, usize),
    Nothing,
}
