//! The tokens of a text.

ghost use Rattle.std.specs.Prelude.{◌≡◌, true};
ghost use Rattle.cse_syntax_tree.specs.Leaf.{is_token};

use crate::tree::{Jump, Special};

/// A reserved word or a symbol.
#[derive(Clone, Copy, PartialEq, Eq)]
pub enum Mark {
    Proc,
    Global,
    Preproc,
    Postproc,
    Numeric,
    Alpha,
    Array,
    Save,
    Function,
    End,
    If,
    Then,
    ElseIf,
    Else,
    EndIf,
    For,
    In,
    Do,
    EndDo,
    Varying,
    Until,
    By,
    Impute,
    PutDeck,
    GetDeck,
    ErrMsg,
    Summary,
    TotOcc,
    MaxOcc,
    CurOcc,
    Int,
    Special,
    InValueSet,
    And,
    Or,
    Not,
    Semicolon,
    Comma,
    Open,
    Close,
    Equals,
    Differs,
    Less,
    AtMost,
    More,
    AtLeast,
    Plus,
    Minus,
    Star,
    Slash,
    Percent,
}

/// What a token is.
#[derive(Clone, Copy, PartialEq, Eq)]
pub enum Kind {
    /// A word of at most 32 characters that isn't reserved.
    Name,
    Number,
    /// A text, its quotes included.
    Text,
    /// A special value.
    Special(Special),
    /// What leaves a turn, a loop or a routine.
    Jump(Jump),
    Mark(Mark),
    /// A word of CSPro's logic that this language leaves out.
    LeftOut,
    /// A word of more than 32 characters, which is no name.
    LongWord,
}

/// A token: the bytes of the source from `start` up to `end`.
#[derive(Clone, Copy)]
pub struct Token<'a> {
    /// How many tokens stand before it.
    pub index: usize,
    pub kind: Kind,
    pub start: usize,
    pub end: usize,
    pub text: &'a str,
    // A name is written as names are, a number as numbers, a text as texts.
    pub ghost is_token: { is_token kind text.now ≡ true },
}
