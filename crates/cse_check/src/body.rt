//! A procedure or a function that is at fault: each of its statements is read by itself.

use crate::clause::{Clause, Form, clauses_of};
use crate::cut::{Kind, Piece};
use crate::mend::{Mending, before_piece};
use crate::token::{Role, tokens_in};
use cse_fault_numbers::UNEXPECTED;

/// A loop that is open: where its head begins, and whether that is at fault.
#[derive(Clone, Copy)]
struct Open {
    start: usize,
    is_faulty: bool,
}

/// What stands before a clause that is read by itself.
fn before(form: Form) -> &'static [u8] {
    match form {
        Form::ElseIf => b"PROC A if 0 then\n",
        _ => b"PROC A\n",
    }
}

/// What stands behind it.
fn behind(form: Form) -> &'static [u8] {
    match form {
        Form::If | Form::ElseIf => b" endif;",
        Form::Loop => b" enddo;",
        _ => b"",
    }
}

impl Mending<'_> {
    /// A byte in place of a blank.
    fn put(&mut self, place: usize, byte: u8) {
        if let Some(there) = self.mended.get_mut(place) {
            *there = byte;
        }
    }

    /// A condition that is at fault becomes 0. Answers whether there is room for that.
    fn mend_condition(&mut self, clause: &Clause) -> bool {
        let start = self.start(clause.first.saturating_add(1));
        let end = self.end(clause.last.saturating_sub(1));
        self.blank(start, end);
        let last = end.saturating_sub(1);
        if start >= last {
            return false;
        }
        self.put(last, b'0');
        true
    }

    /// What is left of a clause that is at fault. Answers whether the rest can still be read.
    fn mend_clause(&mut self, clause: &Clause) -> bool {
        match clause.form {
            Form::If | Form::ElseIf => return self.mend_condition(clause),
            Form::Broken => return false,
            Form::Local => self.excuse(clause.first, clause.last),
            _ => {}
        }
        self.blank_tokens(clause.first, clause.last);
        true
    }

    /// A loop that ends here; where its head is at fault, nothing of it is left.
    fn end_loop(&mut self, open: &mut Vec<Open>, last: usize) {
        if let Some(open) = open.pop() {
            if open.is_faulty {
                let end = self.end(last);
                self.blank(open.start, end);
            }
        }
    }

    /// An end without its `;`, which is told and put in.
    fn end_block(&mut self, clause: &Clause) {
        let [token] = tokens_in(self.tokens, clause.first, clause.last) else {
            return;
        };
        match token.role {
            Role::EndIf | Role::EndDo | Role::End => {
                let next = self.start(clause.last);
                self.tell(UNEXPECTED, next);
                if token.end >= self.mended.len() && self.mended.push(b' ').is_err() {
                    self.found.give_up();
                }
                self.put(token.end, b';');
            }
            _ => {}
        }
    }

    /// A clause, of which what is at fault is told and left out. Answers whether the rest can still be read.
    fn take_clause(&mut self, clause: &Clause, open: &mut Vec<Open>) -> bool {
        let form = clause.form;
        if form == Form::Mark || form == Form::EndLoop {
            self.end_block(clause);
            if form == Form::EndLoop {
                self.end_loop(open, clause.last);
            }
            return true;
        }
        let is_faulty = self.misread(before(form), clause.first, clause.last, behind(form));
        if form == Form::Loop {
            let start = self.start(clause.first);
            if open.push(Open { start, is_faulty }).is_err() {
                self.found.give_up();
            }
        }
        if !is_faulty {
            return true;
        }
        self.tell_odd(clause.first, clause.last, form == Form::Loop);
        self.mend_clause(clause)
    }

    /// The clauses of a procedure or a function. Answers whether the rest can still be read.
    fn take_clauses(&mut self, first: usize, last: usize) -> bool {
        let Ok(clauses) = clauses_of(self.alloc, self.tokens, first, last) else {
            self.found.give_up();
            return false;
        };
        let mut open = Vec::new(self.alloc);
        let mut can_read = true;
        for clause in &clauses {
            let goes_on = self.take_clause(clause, &mut open);
            can_read = can_read && goes_on;
        }
        can_read && open.is_empty()
    }

    /// The token behind the head of a piece: its `PROC` and name, or what stands up to the first `)`.
    pub(crate) fn head_end(&self, piece: &Piece) -> usize {
        let mut end = piece.first;
        for token in tokens_in(self.tokens, piece.first, piece.last) {
            end = end.saturating_add(1);
            let is_head = match piece.kind {
                Kind::Procedure => token.role != Role::Proc,
                _ => token.role == Role::Close,
            };
            if is_head {
                return end;
            }
        }
        end
    }

    /// A procedure or a function that is at fault. Answers whether the rest can still be read.
    pub(crate) fn take_body(&mut self, piece: &Piece) -> bool {
        let before = before_piece(piece.kind);
        let behind: &[u8] = if piece.kind == Kind::Function {
            b" end;"
        } else {
            b""
        };
        let body = self.head_end(piece);
        let has_head = !self.misread(before, piece.first, body, behind);
        let has_body = self.take_clauses(body, piece.last);
        has_head && has_body
    }
}
