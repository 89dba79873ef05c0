//! The statements of a procedure or a function that is at fault: the heads of those that hold others, and the others whole.

use crate::gathered::Gathered;
use crate::token::{Role, Sort, Token, tokens_in};
use std::alloc::{AllocError, Global};

/// What a clause is.
#[derive(Clone, Copy)]
pub enum Form {
    /// `if .. then`.
    If,
    /// `elseif .. then`.
    ElseIf,
    /// `else`, `endif`, `preproc`, `postproc` and the `end` of a function.
    Mark,
    /// The head of a loop.
    Loop,
    EndLoop,
    /// A declaration.
    Local,
    /// `recode` or `box`, up to its end.
    Table,
    /// The head of something that has no `then` or `do`.
    Broken,
    /// A statement that holds no others.
    Simple,
}

/// Tokens from `first` up to `last`.
#[derive(Clone, Copy)]
pub struct Clause {
    pub form: Form,
    pub first: usize,
    pub last: usize,
}

/// What the next token stands in.
#[derive(Clone, Copy)]
enum State {
    Between,
    /// Up to a `then`.
    Condition(Form),
    /// Up to a `do`.
    Head,
    /// A `do`, before its `until`.
    Do,
    /// A `do`, behind its `until`.
    Until,
    /// Up to a `;`.
    Statement(Form),
    /// A statement of a word that is left out, up to a `;`.
    LeftOut,
    Table,
    /// A `;` may come.
    Ended(Form),
}

/// The clauses so far, and the one that has begun.
#[derive(Drop)]
struct Reader {
    clauses: Gathered<Clause>,
    state: State,
    first: usize,
    /// Whether a value may have ended.
    may_end: bool,
}

/// What a token begins.
fn begun(role: Role) -> State {
    match role {
        Role::If => State::Condition(Form::If),
        Role::ElseIf => State::Condition(Form::ElseIf),
        Role::Else | Role::EndIf | Role::End | Role::Event => State::Ended(Form::Mark),
        Role::For | Role::While => State::Head,
        Role::Do => State::Do,
        Role::EndDo => State::Ended(Form::EndLoop),
        Role::Declares => State::Statement(Form::Local),
        Role::Table => State::Table,
        Role::LeftOut => State::LeftOut,
        _ => State::Statement(Form::Simple),
    }
}

/// Whether a word begins something that stands in no other statement.
fn begins(role: Role) -> bool {
    match role {
        Role::If | Role::ElseIf | Role::Else | Role::EndIf => true,
        Role::For | Role::EndDo | Role::End | Role::Event => true,
        _ => false,
    }
}

/// Whether a clause ends before a token, which is no part of it.
fn ends_before(state: State, token: &Token, may_end: bool) -> bool {
    let role = token.role;
    match state {
        State::Between | State::Table => false,
        State::Ended(_) => role != Role::Semicolon,
        State::LeftOut | State::Do | State::Head => begins(role),
        State::Condition(_) | State::Statement(_) => begins(role) || role == Role::Begins,
        State::Until if role == Role::Joins || role == Role::In => false,
        State::Until => begins(role) || (may_end && token.sort == Sort::Word),
    }
}

/// What a clause is that ends before a token.
fn form_before(state: State) -> Form {
    match state {
        State::Ended(form) | State::Statement(form) => form,
        State::Until => Form::Loop,
        State::LeftOut => Form::Simple,
        _ => Form::Broken,
    }
}

/// What a clause is that ends with a token, if it does.
fn form_with(state: State, token: &Token) -> Option<Form> {
    let is_end = token.role == Role::Semicolon;
    match state {
        State::Condition(form) if token.role == Role::Then => Some(form),
        State::Head if token.role == Role::Do => Some(Form::Loop),
        State::Between | State::Table if is_end => None,
        // Behind an open text the line is over.
        _ if is_end || token.sort == Sort::OpenText => Some(form_before(state)),
        _ => None,
    }
}

/// What a token leads to in a clause, or begins.
fn state_with(state: State, role: Role) -> State {
    match state {
        State::Between => begun(role),
        State::Do if role == Role::Until || role == Role::While => State::Until,
        State::Table if role == Role::EndTable => State::Ended(Form::Table),
        _ => state,
    }
}

/// Whether a value may end with this token.
fn may_end(token: &Token) -> bool {
    match token.role {
        Role::Close | Role::Special | Role::Reserved => true,
        Role::Other => token.sort != Sort::Symbol && token.sort != Sort::Odd,
        _ => false,
    }
}

impl Reader {
    /// The clause that ends before this token.
    fn close(&mut self, form: Form, last: usize) {
        let first = self.first;
        if first < last {
            self.clauses.add(Clause { form, first, last });
        }
        self.first = last;
        self.state = State::Between;
    }

    /// The next token.
    fn take(&mut self, at: usize, token: &Token) {
        if ends_before(self.state, token, self.may_end) {
            let form = form_before(self.state);
            self.close(form, at);
        }
        self.may_end = may_end(token);
        self.state = state_with(self.state, token.role);
        if let Some(form) = form_with(self.state, token) {
            self.close(form, at.saturating_add(1));
        }
    }

    /// The tokens from `first` up to `last`, behind which a clause ends.
    fn take_all(&mut self, tokens: &[Token], first: usize, last: usize) {
        let mut at = first;
        for token in tokens_in(tokens, first, last) {
            self.take(at, token);
            at = at.saturating_add(1);
        }
        let form = form_before(self.state);
        self.close(form, last);
    }
}

/// The clauses of the tokens from `first` up to `last`.
pub fn clauses_of(
    alloc: Global,
    tokens: &[Token],
    first: usize,
    last: usize,
) -> Result<Vec<Clause>, AllocError> {
    let mut reader = Reader {
        clauses: Gathered::new(alloc),
        state: State::Between,
        first,
        may_end: false,
    };
    reader.take_all(tokens, first, last);
    let Reader { clauses, .. } = reader;
    clauses.finish()
}
