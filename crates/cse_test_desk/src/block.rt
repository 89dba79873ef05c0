//! Rows in a text: blocks of lines with an empty line between two of them. In a block a line begins with a word and a
//! colon, and goes on in lines that are indented by four blanks.
//!
//! A block whose first line is a comment (`#`) says what rows share: the first block what all rows of the text do, and
//! another one what those below it do. Each other block is a row, and its first line is the row's name. What it doesn't say
//! is as those below the comment above it share it, or else as all do, or else empty.
//!
//! `words`, `files`, `amiss`, `opened`, `made`, `printed`, `told` and `status` are those of a row. `words` has a line for each
//! command; the greatest status counts. In `files` and `made` `DICT=sample/SAMPLE.dcf` is a file and the stored one that has its
//! bytes. `DICT` alone is the text `DICT` of the row, or else that of `stored`, or else a text that it shares. `LOGIC=FRONT+REST`
//! is one text behind the other.
//!
//! `text DICT:` is a text, and `DICT` may stand for a stored file. Its lines are indented by four blanks and `|` (`text`).
//! `text printed:` and `text told:` are what a row prints and tells, byte by byte.

use crate::cut::{before, behind, parts, word_at, words};
use std::alloc::Global;

/// The heads of the blocks: what is stored before the commands of a row.
pub const STORED: &str = "\nstored:";

/// The words of a command line.
pub const WORDS: &str = "\nwords:";

/// The files that are there.
pub const FILES: &str = "\nfiles:";

/// What is amiss with a file.
pub const AMISS: &str = "\namiss:";

/// What is opened, in order.
pub const OPENED: &str = "\nopened:";

/// What is made.
pub const MADE: &str = "\nmade:";

/// What is printed.
pub const PRINTED: &str = "\nprinted:";

/// What is told of faults.
pub const TOLD: &str = "\ntold:";

/// The status.
pub const STATUS: &str = "\nstatus:";

const TEXT: &str = "\ntext ";

/// The lines of a row, those that it shares with rows below a comment, and those that it shares with all. It keeps copies, since
/// what holds a text by reference is proved at more cost wherever it is handed on.
#[derive(Drop)]
pub struct Row {
    own: String,
    part: String,
    all: String,
    usage: String,
}

/// Makes a text another one. Answers whether there is memory for it.
fn set(text: &mut String, other: &str) -> bool {
    text.clear();
    text.push_str(other).is_ok()
}

/// How many bytes a value has that a text begins with: its first line, and those behind it that are indented.
fn value_len(text: &str) -> usize {
    let mut len = before(text, "\n").len();
    let mut rest = behind(text, "\n");
    for _ in 1..parts(text, "\n") {
        if !rest.starts_with("    ") {
            return len;
        }
        len = len
            .saturating_add(before(rest, "\n").len())
            .saturating_add(1);
        rest = behind(rest, "\n");
    }
    len
}

/// The value that a text begins with.
fn value_of(text: &str) -> &str {
    match text.split_at_checked(value_len(text)) {
        Some((value, _)) => value.trim(),
        None => "",
    }
}

/// What stands behind the first line of a text of a block.
fn text_in<'a>(block: &'a str, name: &str) -> Option<&'a str> {
    let mut rest = block;
    for _ in 1..parts(block, TEXT) {
        rest = behind(rest, TEXT);
        if before(rest, ":") == name {
            return Some(behind(before(rest, TEXT), ":"));
        }
    }
    None
}

impl Row {
    /// A row without lines.
    pub fn new(alloc: Global) -> Row {
        Row {
            own: String::new(alloc),
            part: String::new(alloc),
            all: String::new(alloc),
            usage: String::new(alloc),
        }
    }

    /// Takes lines that it shares with all rows, and what `usage` stands for. Answers whether there is memory for them.
    pub fn set_all(&mut self, all: &str, usage: &str) -> bool {
        set(&mut self.all, all) && set(&mut self.usage, usage)
    }

    /// Takes lines that it shares with rows below a comment. Answers whether there is memory for them.
    pub fn set_part(&mut self, part: &str) -> bool {
        set(&mut self.part, part)
    }

    /// Takes lines of its own. Answers whether there is memory for them.
    pub fn set_own(&mut self, own: &str) -> bool {
        set(&mut self.own, own)
    }

    /// Whether each line that it shares with rows below a comment begins as one of a block.
    pub fn has_words(&self) -> bool {
        has_words(&self.part)
    }

    /// The lines among which a word stands: those of the row, or else those that it shares.
    fn lines_with(&self, word: &str) -> &str {
        if self.own.contains(word) {
            self.own.as_str()
        } else if self.part.contains(word) {
            self.part.as_str()
        } else {
            self.all.as_str()
        }
    }

    /// What stands behind a word: that of the row, or else of what it shares.
    pub fn of(&self, word: &str) -> &str {
        value_of(behind(self.lines_with(word), word))
    }

    /// What `usage` stands for in what is told.
    pub fn usage(&self) -> &str {
        &self.usage
    }

    /// How many files stand behind a word.
    pub fn count(&self, word: &str) -> usize {
        words(self.of(word))
    }

    /// The file at a place behind a word, from 0 on.
    pub fn file(&self, word: &str, place: usize) -> &str {
        word_at(self.of(word), place)
    }

    /// The text of a name: that of the row, or else of what it shares.
    pub fn text(&self, name: &str) -> Option<&str> {
        match text_in(&self.own, name) {
            Some(text) => Some(text),
            None => self.shared_text(name),
        }
    }

    /// The text of a name that it shares.
    fn shared_text(&self, name: &str) -> Option<&str> {
        match text_in(&self.part, name) {
            Some(text) => Some(text),
            None => text_in(&self.all, name),
        }
    }

    /// The text of a name that the row alone has.
    pub fn own_text(&self, name: &str) -> Option<&str> {
        text_in(&self.own, name)
    }

    /// Its first line.
    pub fn name(&self) -> &str {
        before(&self.own, "\n")
    }

    /// The stored file or the text that has the bytes of a file.
    pub fn stored<'a>(&'a self, file: &'a str) -> &'a str {
        if file.contains('=') {
            behind(file, "=")
        } else if self.own_text(file).is_some() {
            file
        } else {
            stored_in(self.of(STORED), file)
        }
    }
}

/// The path of a file of a row.
pub fn path_of(file: &str) -> &str {
    before(file, "=")
}

/// The stored file of a file among several; the file itself where none has its name.
fn stored_in<'a>(stored: &'a str, file: &'a str) -> &'a str {
    for place in 0..words(stored) {
        let named = word_at(stored, place);
        if before(named, "=") == file && named.contains('=') {
            return behind(named, "=");
        }
    }
    file
}

/// 1 where a block has a word, and else 0.
fn has(block: &str, word: &str) -> u8 {
    u8::from(block.contains(word))
}

/// How many words of rows a block has, each counted once.
fn kinds_in(block: &str) -> u8 {
    has(block, STORED)
        .saturating_add(has(block, WORDS))
        .saturating_add(has(block, FILES))
        .saturating_add(has(block, AMISS))
        .saturating_add(has(block, OPENED))
        .saturating_add(has(block, MADE))
        .saturating_add(has(block, PRINTED))
        .saturating_add(has(block, TOLD))
        .saturating_add(has(block, STATUS))
}

/// How many words of rows a block has, each counted once, and texts.
fn words_in(block: &str) -> usize {
    usize::from(kinds_in(block)).saturating_add(block.matches(TEXT).count())
}

/// Whether a line of a block is neither empty nor a comment, nor indented.
fn is_own(line: &str) -> bool {
    !line.is_empty() && !line.starts_with('#') && !line.starts_with("    ")
}

/// Whether each line of a block, but for its first, is a comment or indented, or begins with a word of rows, which no other does,
/// or a text.
pub fn has_words(block: &str) -> bool {
    let mut lines = 0usize;
    let mut rest = block;
    for _ in 1..parts(block, "\n") {
        rest = behind(rest, "\n");
        lines = lines.saturating_add(usize::from(is_own(before(rest, "\n"))));
    }
    lines == words_in(block)
}

/// Whether a block is a row: a name, and words.
pub fn is_row(block: &str) -> bool {
    !block.starts_with('\n') && !block.starts_with(' ') && has_words(block)
}
