//! Logic of which what is at fault is left out, so that the rest can be looked at.

use crate::cut::{Kind, Piece};
use crate::found::Finding;
use crate::gathered::Gathered;
use crate::syntax::fault_between;
use crate::token::{Role, Sort, Token, part, tokens_in};
use cse_fault_numbers::{LEFT_OUT, NO_END, UNEXPECTED, UNREADABLE, WANT_OF_MEMORY};
use std::alloc::{AllocError, Global};

/// A text of logic, what is left of it, and the faults of syntax that were found.
#[derive(Drop)]
pub struct Mending<'a> {
    pub(crate) alloc: Global,
    pub(crate) text: &'a [u8],
    pub(crate) tokens: &'a [Token],
    /// The text, with blanks in place of what is at fault.
    pub mended: Vec<u8>,
    pub found: Gathered<Finding>,
    /// What declarations that are at fault declare.
    pub excused: Gathered<&'a [u8]>,
}

/// What stands before a piece that is read by itself.
pub fn before_piece(kind: Kind) -> &'static [u8] {
    match kind {
        Kind::Declaration | Kind::Function => b"PROC GLOBAL\n",
        Kind::Front | Kind::Globals | Kind::Procedure => b"",
    }
}

/// The number of what no text of logic may have; `in` is one, but in the head of a loop.
fn odd_number(token: &Token, is_loop: bool) -> Option<u8> {
    match token.sort {
        Sort::Odd => return Some(UNREADABLE),
        Sort::OpenComment | Sort::OpenText => return Some(NO_END),
        _ => {}
    }
    match token.role {
        Role::While | Role::Table | Role::LeftOut => Some(LEFT_OUT),
        Role::In if !is_loop => Some(UNEXPECTED),
        _ => None,
    }
}

/// Blanks in place of what stands from here up to there, but for line feeds.
fn blank(text: &mut [u8], start: usize, end: usize) {
    for at in start..end.min(text.len()) {
        if text[at] != b'\n' {
            text[at] = b' ';
        }
    }
}

impl<'a> Mending<'a> {
    /// A text with its tokens, of which nothing is left out yet.
    pub fn new(
        alloc: Global,
        text: &'a [u8],
        tokens: &'a [Token],
        found: Gathered<Finding>,
    ) -> Result<Mending<'a>, AllocError> {
        let mended = Vec::from_slice(alloc, text)?;
        Ok(Mending {
            alloc,
            text,
            tokens,
            mended,
            found,
            excused: Gathered::new(alloc),
        })
    }

    /// Where a token begins; the end of the text for one that isn't there.
    pub(crate) fn start(&self, token: usize) -> usize {
        match self.tokens.get(token) {
            Some(token) => token.start,
            None => self.text.len(),
        }
    }

    /// Where the token before this one ends.
    pub(crate) fn end(&self, token: usize) -> usize {
        match self.tokens.get(token.saturating_sub(1)) {
            Some(token) => token.end,
            None => self.text.len(),
        }
    }

    /// A fault more.
    pub fn tell(&mut self, number: u8, start: usize) {
        self.found.add(Finding { start, number });
    }

    /// Whether a text that begins here has a fault, which is told.
    pub(crate) fn tell_fault(&mut self, begin: usize, fault: Option<Finding>) -> bool {
        let Some(Finding { start, number }) = fault else {
            return false;
        };
        if number == WANT_OF_MEMORY {
            self.found.give_up();
            return false;
        }
        self.tell(number, begin.saturating_add(start));
        true
    }

    /// The fault of the text from a token up to another, which is told.
    pub(crate) fn misread(
        &mut self,
        before: &[u8],
        first: usize,
        last: usize,
        behind: &[u8],
    ) -> bool {
        let start = self.start(first);
        let piece = part(self.text, start, self.start(last));
        let fault = fault_between(self.alloc, before, piece, behind);
        self.tell_fault(start, fault)
    }

    /// Blanks in place of what stands from here up to there.
    pub(crate) fn blank(&mut self, start: usize, end: usize) {
        blank(&mut self.mended, start, end);
    }

    /// Blanks in place of tokens.
    pub(crate) fn blank_tokens(&mut self, first: usize, last: usize) {
        let (start, end) = (self.start(first), self.end(last));
        self.blank(start, end);
    }

    /// What no token has, and words that are left out. What stands between `in` and its end, or between `[` and `]`, is told
    /// once; of a `recode` or a `box` the first is.
    pub(crate) fn tell_odd(&mut self, first: usize, last: usize, is_loop: bool) {
        let mut is_open = false;
        for token in tokens_in(self.tokens, first, last) {
            let Some(number) = odd_number(token, is_loop) else {
                continue;
            };
            let sign = token.of(self.text);
            let follows = is_open && (sign == b":".as_slice() || sign == b"]".as_slice());
            is_open = is_open || number == UNEXPECTED || sign == b"[".as_slice();
            if !follows {
                self.tell(number, token.start);
            }
            if token.role == Role::Table {
                return;
            }
        }
    }

    /// The names of a declaration are not unknown elsewhere.
    pub(crate) fn excuse(&mut self, first: usize, last: usize) {
        let mut depth = 0usize;
        for token in tokens_in(self.tokens, first, last) {
            match token.role {
                Role::Open => depth = depth.saturating_add(1),
                Role::Close => depth = depth.saturating_sub(1),
                Role::Other if token.sort == Sort::Word && depth == 0 => {
                    self.excused.add(token.of(self.text));
                }
                _ => {}
            }
        }
    }

    /// Whether what is left of a piece is at fault, which is told.
    fn is_still_faulty(&mut self, piece: &Piece) -> bool {
        let start = self.start(piece.first);
        let end = match self.tokens.get(piece.last) {
            Some(token) => token.start,
            None => self.mended.len(),
        };
        let rest = part(&self.mended, start, end);
        let fault = fault_between(self.alloc, before_piece(piece.kind), rest, b"");
        self.tell_fault(start, fault)
    }

    /// Nothing is left of a piece. What it declares is not unknown elsewhere.
    fn leave_out(&mut self, piece: &Piece) {
        match piece.kind {
            Kind::Procedure => {}
            Kind::Function => {
                let head = self.head_end(piece);
                self.excuse(piece.first, head);
            }
            _ => self.excuse(piece.first, piece.last),
        }
        self.blank_tokens(piece.first, piece.last);
    }

    /// A piece of the text, of which what is at fault is told and left out.
    fn take_piece(&mut self, piece: &Piece) {
        if !self.misread(before_piece(piece.kind), piece.first, piece.last, b"") {
            return;
        }
        if piece.kind != Kind::Procedure && piece.kind != Kind::Function {
            self.tell_odd(piece.first, piece.last, false);
        } else if self.take_body(piece) && !self.is_still_faulty(piece) {
            return;
        }
        self.leave_out(piece);
    }

    /// `PROC GLOBAL` behind another procedure, and its declarations.
    fn take_late(&mut self, piece: &Piece) {
        if piece.kind == Kind::Globals {
            let global = self.start(piece.first.saturating_add(1));
            self.tell(UNEXPECTED, global);
        }
        self.leave_out(piece);
    }

    /// The pieces of the text.
    pub fn take_pieces(&mut self, pieces: &[Piece]) {
        let mut is_late = false;
        let mut has_globals = false;
        for piece in pieces {
            match piece.kind {
                Kind::Procedure => is_late = false,
                Kind::Globals => is_late = has_globals,
                _ => {}
            }
            has_globals = has_globals || piece.kind != Kind::Front;
            if is_late {
                self.take_late(piece);
            } else {
                self.take_piece(piece);
            }
        }
    }
}
