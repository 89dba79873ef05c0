//! A text taken apart: its procedures, and the declarations of `PROC GLOBAL`.

use crate::gathered::Gathered;
use crate::token::{Role, Token};
use std::alloc::{AllocError, Global};

/// What a piece of a text is.
#[derive(Clone, Copy)]
pub enum Kind {
    /// What stands before the first `PROC`.
    Front,
    /// `PROC GLOBAL`.
    Globals,
    Declaration,
    Function,
    Procedure,
}

/// A piece of a text: its tokens from `first` up to `last`.
#[derive(Clone, Copy)]
pub struct Piece {
    pub kind: Kind,
    pub first: usize,
    pub last: usize,
}

/// Where the next token stands.
#[derive(Clone, Copy)]
enum State {
    Front,
    /// It is the first of a procedure.
    Proc,
    /// It is the `GLOBAL` of `PROC GLOBAL`.
    Globals,
    /// Between declarations.
    Between,
    Declaration,
    Function,
    /// Behind the `end` of a function.
    Ended,
    Procedure,
}

/// The pieces so far, and where the next one begins.
#[derive(Drop)]
struct Cutter {
    pieces: Gathered<Piece>,
    state: State,
    first: usize,
}

/// What ends where the next token stands here; none between declarations.
fn kind_of(state: State) -> Option<Kind> {
    match state {
        State::Front => Some(Kind::Front),
        State::Proc | State::Globals => Some(Kind::Globals),
        State::Between => None,
        State::Declaration => Some(Kind::Declaration),
        State::Function | State::Ended => Some(Kind::Function),
        State::Procedure => Some(Kind::Procedure),
    }
}

/// Whether a piece ends before a token of this role, if it has begun so many tokens before it.
fn ends_before(state: State, role: Role, len: usize) -> bool {
    match state {
        State::Declaration => len > 1 && (role == Role::Declares || role == Role::Function),
        State::Function => len > 1 && role == Role::Function,
        State::Ended => role != Role::Semicolon,
        _ => false,
    }
}

/// Where the token behind one of this role stands.
fn state_behind(state: State, role: Role) -> State {
    match state {
        State::Proc if role == Role::Global => State::Globals,
        State::Proc => State::Procedure,
        State::Between if role == Role::Function => State::Function,
        State::Between => State::Declaration,
        State::Function if role == Role::End => State::Ended,
        _ => state,
    }
}

/// Whether a piece ends with a token of this role, behind which the next one stands here.
fn ends_with(state: State, role: Role) -> bool {
    match state {
        State::Globals => true,
        State::Declaration | State::Ended => role == Role::Semicolon,
        _ => false,
    }
}

impl Cutter {
    /// The piece that ends before this token.
    fn close(&mut self, last: usize, behind: State) {
        let first = self.first;
        if let Some(kind) = kind_of(self.state) {
            if first < last {
                self.pieces.add(Piece { kind, first, last });
            }
        }
        self.first = last;
        self.state = behind;
    }

    /// The next token.
    fn take(&mut self, at: usize, role: Role) {
        if role == Role::Proc {
            self.close(at, State::Proc);
            return;
        }
        if ends_before(self.state, role, at.saturating_sub(self.first)) {
            self.close(at, State::Between);
        }
        self.state = state_behind(self.state, role);
        if ends_with(self.state, role) {
            self.close(at.saturating_add(1), State::Between);
        }
    }

    /// All tokens of a text.
    fn take_all(&mut self, tokens: &[Token]) {
        for at in 0..tokens.len() {
            self.take(at, tokens[at].role);
        }
        self.close(tokens.len(), State::Front);
    }
}

/// The pieces of a text.
pub fn pieces_of(alloc: Global, tokens: &[Token]) -> Result<Vec<Piece>, AllocError> {
    let mut cutter = Cutter {
        pieces: Gathered::new(alloc),
        state: State::Front,
        first: 0,
    };
    cutter.take_all(tokens);
    let Cutter { pieces, .. } = cutter;
    pieces.finish()
}
