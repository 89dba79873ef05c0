//! The items that logic may change, of a tree that is made here: the call gives them where memory is ample.

use crate::persons::persons;
use cse_dict::Dictionary;
use cse_edit::items_written;
use cse_logic_tree::{
    Body, Field, Found, Number, NumberKind, Owner, Procedure, Statement, StatementKind, Tree, Which,
};
use cse_syntax_tree::{Lexeme, Special};
use std::alloc::{AllocError, Global};

/// AGE, the fourth item of the dictionary.
const AGE: Field = Field { owner: 0, item: 3 };

// The name comes from the caller: a call that takes a tree of a lifetime that is known, as that of a static text, takes ten
// times as long to prove.

/// Whether there is room. What finds none comes back, and is let go here, whatever it is, and not where it is made.
fn is_pushed<T: Drop>(list: &mut Vec<T>, one: T) -> bool {
    list.push(one).is_ok()
}

/// `impute(AGE, notappl);`
fn imputes<'a>(alloc: Global, text: &'a str) -> Result<Statement<'a>, AllocError> {
    let name = Lexeme { token: 4, text };
    let value = Number::new(alloc, NumberKind::Special(6, Special::NotAppl))?;
    Statement::new(
        alloc,
        StatementKind::Impute(name, AGE, Which::Here(Found::Event), value),
    )
}

/// Puts `PROC AGE` with this statement into a source.
fn add<'a>(alloc: Global, procedures: &mut Vec<Procedure<'a>>, text: &'a str) -> bool {
    let name = Lexeme { token: 1, text };
    let mut body = Vec::new(alloc);
    let is_filled = match imputes(alloc, text) {
        Ok(statement) => is_pushed(&mut body, statement),
        Err(_) => false,
    };
    let procedure = Procedure {
        name,
        owner: Owner::Item(AGE),
        body: Body::Plain(body),
    };
    is_pushed(procedures, procedure) & is_filled
}

/// Whether AGE, by this name, is the one item that logic may change which imputes it.
fn is_written<'a>(alloc: Global, dictionary: &Dictionary, text: &'a str) -> bool {
    let mut tree = Tree {
        globals: None,
        procedures: Vec::new(alloc),
        messages: Vec::new(alloc),
    };
    let is_made = add(alloc, &mut tree.procedures, text);
    match items_written(alloc, &tree, dictionary) {
        Ok(items) => is_made & (items.as_slice() == [3u16].as_slice()),
        Err(_) => false,
    }
}

/// Whether it is so under the dictionary of persons.
pub(crate) fn are_right(alloc: Global) -> bool {
    match persons(alloc) {
        Ok(dictionary) => is_written(alloc, &dictionary, "AGE"),
        Err(_) => false,
    }
}
