//! A fault of logic.

ghost use Rattle.std.specs.Prelude.{◌≤◌};

/// A fault of logic: its number, from 40 to 49, and the index of its token.
#[derive(Clone, Copy)]
pub struct Fault {
    /// From 40 to 49.
    pub number: u8,
    /// The index of its token.
    pub token: usize,
    pub ghost least: { 40 ≤ number },
    pub ghost most: { number ≤ 49 },
}
