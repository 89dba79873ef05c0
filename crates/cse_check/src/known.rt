//! The names that logic may use.

use crate::cut::{Kind, Piece};
use crate::gathered::Gathered;
use crate::items::item_of;
use crate::near::nearest;
use crate::sets::is_among;
use crate::token::{Role, Token, tokens_in};
use cse_dict::Dictionary;
use std::alloc::{AllocError, Global};

/// How many names are looked for that are nearly alike.
const MOST: u32 = 200;

/// The names of a dictionary, and those that are declared.
#[derive(Drop)]
pub struct Known<'a> {
    dictionary: Option<&'a Dictionary>,
    names: Vec<&'a [u8]>,
    /// How many names may still be looked for.
    left: u32,
}

/// The names of a dictionary.
fn add_dictionary<'a>(dictionary: &'a Dictionary, names: &mut Gathered<&'a [u8]>) {
    names.add(dictionary.name().as_bytes());
    names.add(dictionary.level_name().as_bytes());
    let shape = dictionary.shape();
    for number in 0..shape.records.len() {
        names.add(dictionary.record_name(number as u16).as_bytes());
    }
    for number in 0..shape.items.len() {
        names.add(dictionary.item_name(number as u16).as_bytes());
    }
    for number in 0..shape.sets.len() {
        names.add(dictionary.set_name(number as u16).as_bytes());
    }
}

/// The names of a declaration, or of a function and its parameters.
fn add_declared<'a>(text: &'a [u8], tokens: &[Token], end: Role, names: &mut Gathered<&'a [u8]>) {
    for token in tokens {
        if token.role == end {
            return;
        }
        if token.is_name() {
            names.add(token.of(text));
        }
    }
}

impl<'a> Known<'a> {
    /// Those of a dictionary, and those that a text declares.
    pub fn new(
        alloc: Global,
        dictionary: Option<&'a Dictionary>,
        text: &'a [u8],
        tokens: &[Token],
        pieces: &[Piece],
    ) -> Result<Known<'a>, AllocError> {
        let mut names = Gathered::new(alloc);
        if let Some(dictionary) = dictionary {
            add_dictionary(dictionary, &mut names);
        }
        for piece in pieces {
            let own = tokens_in(tokens, piece.first, piece.last);
            match piece.kind {
                Kind::Declaration => add_declared(text, own, Role::Semicolon, &mut names),
                Kind::Function => add_declared(text, own, Role::Close, &mut names),
                _ => {}
            }
        }
        let names = names.finish()?;
        Ok(Known {
            dictionary,
            names,
            left: MOST,
        })
    }

    /// Whether something has this name.
    pub fn has(&self, name: &[u8]) -> bool {
        is_among(&self.names, name)
    }

    /// The name that is nearest, if it is near; else nothing.
    pub fn nearest(&mut self, name: &[u8]) -> &'a [u8] {
        if self.left == 0 {
            return b"";
        }
        self.left = self.left.saturating_sub(1);
        nearest(name, &self.names)
    }

    /// The name of the dictionary.
    pub fn application(&self) -> &'a [u8] {
        match self.dictionary {
            Some(dictionary) => dictionary.name().as_bytes(),
            None => b"",
        }
    }

    /// The record of an item of this name; nothing where there is none.
    pub fn record_of(&self, name: &[u8]) -> &'a [u8] {
        match self.dictionary {
            Some(dictionary) => record_of(dictionary, name),
            None => b"",
        }
    }
}

/// The record of an item of this name; nothing where there is none.
fn record_of<'a>(dictionary: &'a Dictionary, name: &[u8]) -> &'a [u8] {
    let shape = dictionary.shape();
    let owner = match item_of(dictionary, name) {
        Some(item) => match shape.items.get(usize::from(item)) {
            Some(item) => u16::from(item.owner),
            None => return b"",
        },
        None => return b"",
    };
    if usize::from(owner) < shape.records.len() {
        dictionary.record_name(owner).as_bytes()
    } else {
        b""
    }
}
