//! A token and those around it.

use crate::token::{Role, Sort, Token};

/// The tokens of a text, and one of them, which may be the one behind the last.
#[derive(Clone, Copy)]
pub struct Spot<'a> {
    pub text: &'a [u8],
    pub tokens: &'a [Token],
    pub index: usize,
}

impl<'a> Spot<'a> {
    /// The token so many behind it.
    pub fn ahead(&self, count: usize) -> Option<&'a Token> {
        self.tokens.get(self.index.saturating_add(count))
    }

    /// The token so many before it.
    pub fn before(&self, count: usize) -> Option<&'a Token> {
        let index = self.index.checked_sub(count)?;
        self.tokens.get(index)
    }

    /// The bytes of the token so many behind it; none where there is none.
    pub fn word(&self, count: usize) -> &'a [u8] {
        match self.ahead(count) {
            Some(token) => token.of(self.text),
            None => b"",
        }
    }

    /// What it does.
    pub fn role(&self, count: usize) -> Role {
        match self.ahead(count) {
            Some(token) => token.role,
            None => Role::Proc,
        }
    }

    /// Whether the token so many behind it is this word.
    pub fn is(&self, count: usize, word: &[u8]) -> bool {
        self.word(count).eq_ignore_ascii_case(word)
    }

    /// What the token so many before it does.
    pub fn role_before(&self, count: usize) -> Role {
        match self.before(count) {
            Some(token) => token.role,
            None => Role::Semicolon,
        }
    }

    /// Whether the token so many before it is this word.
    pub fn was(&self, count: usize, word: &[u8]) -> bool {
        match self.before(count) {
            Some(token) => token.is(self.text, word),
            None => false,
        }
    }

    /// The number that stands so many behind it, with its sign; how many tokens it takes.
    pub fn number(&self, count: usize) -> Option<(i64, usize)> {
        let is_negative = self.is(count, b"-");
        let len = if is_negative { 2 } else { 1 };
        let token = self.ahead(count.saturating_add(len).saturating_sub(1))?;
        if token.sort != Sort::Number {
            return None;
        }
        let value = i64::from(small_number(token.of(self.text)));
        Some((if is_negative { -value } else { value }, len))
    }
}

/// The number that digits spell, and no more than 4,294,967,295.
fn small_number(digits: &[u8]) -> u32 {
    let mut number = 0u32;
    for digit in digits {
        let value = u32::from(digit.saturating_sub(b'0'));
        number = number.saturating_mul(10).saturating_add(value);
    }
    number
}
