//! The tokens of a text that may be faulty.

/// What a token is.
#[derive(Clone, Copy)]
pub enum Sort {
    /// A letter, and letters, digits and `_`.
    Word,
    /// Digits.
    Number,
    /// A text, its quotes included.
    Text,
    /// A symbol of logic.
    Symbol,
    /// Something that no token has.
    Odd,
    /// A comment without an end.
    OpenComment,
    /// A text without an end on its line.
    OpenText,
}

/// What a word or a symbol does in a text: how the text is taken apart is seen by it.
#[derive(Clone, Copy)]
pub enum Role {
    Proc,
    Global,
    /// `preproc` and `postproc`.
    Event,
    /// `numeric`, `alpha`, `array` and CSPro's `string`.
    Declares,
    Function,
    End,
    If,
    Then,
    ElseIf,
    Else,
    EndIf,
    For,
    In,
    Do,
    EndDo,
    While,
    Until,
    /// `and`, `or`, `not`, `by`: another word stands behind it.
    Joins,
    /// `recode` and `box`, which go up to a word of their own.
    Table,
    EndTable,
    /// Another word that is left out.
    LeftOut,
    Semicolon,
    Open,
    Close,
    /// A word that a statement begins with.
    Begins,
    /// A special value.
    Special,
    /// Another word of the language.
    Reserved,
    /// Anything else.
    Other,
}

/// A token: the bytes from `start` up to `end`.
#[derive(Clone, Copy)]
pub struct Token {
    pub sort: Sort,
    pub role: Role,
    pub start: usize,
    pub end: usize,
}

/// The bytes from here up to there; none where they aren't there.
pub fn part(text: &[u8], start: usize, end: usize) -> &[u8] {
    match text.get(start..end) {
        Some(part) => part,
        None => b"",
    }
}

/// The tokens from here up to there; none where they aren't there.
pub fn tokens_in(tokens: &[Token], first: usize, last: usize) -> &[Token] {
    match tokens.get(first..last) {
        Some(part) => part,
        None => &[],
    }
}

impl Token {
    /// Its bytes.
    pub fn of<'a>(&self, text: &'a [u8]) -> &'a [u8] {
        part(text, self.start, self.end)
    }

    /// Whether it is a name.
    pub fn is_name(&self) -> bool {
        self.sort == Sort::Word && self.role == Role::Other
    }

    /// Whether it is this word, in any letter case.
    pub fn is(&self, text: &[u8], word: &[u8]) -> bool {
        self.of(text).eq_ignore_ascii_case(word)
    }
}
