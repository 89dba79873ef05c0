//! The texts that an edit begins with.

/// The texts of an office, as bytes.
#[derive(Clone, Copy)]
pub struct Texts<'a> {
    /// The dictionary (`.dcf`).
    pub dictionary: &'a [u8],
    /// The edit logic (`.apc`).
    pub logic: &'a [u8],
    /// The message file (`.mgf`); empty where there is none.
    pub messages: &'a [u8],
    /// The order file; empty where there is none.
    pub order: &'a [u8],
    /// The hot decks that an earlier run saved, where there are some.
    pub decks: Option<&'a [u8]>,
}
