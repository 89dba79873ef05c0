//! What names mean, and where logic stands.

use cse_logic_tree::{Owner, Variable};

/// What a name means.
#[derive(Clone, Copy)]
pub enum Meaning {
    /// A number: a global or a parameter.
    Variable(Variable),
    /// A global text.
    Text(usize),
    Array(usize),
    Function(usize),
    Record(u8),
    Item(u16),
    Set(u16),
    /// The name of the dictionary, which stands for the application's.
    Application,
    Level,
}

/// The routine in which logic stands.
#[derive(Clone, Copy)]
pub enum Routine {
    Procedure(Owner),
    Function(usize),
}
