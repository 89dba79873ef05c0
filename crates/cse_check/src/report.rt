//! From the texts of the files to what is printed of them.

use crate::advice::{Advice, advice_of, by_key, by_number};
use crate::cursor::Cursor;
use crate::cut::{Piece, pieces_of};
use crate::dictionary::dictionary_faults;
use crate::found::Finding;
use crate::gathered::Gathered;
use crate::known::Known;
use crate::line::{as_utf8, mark_len};
use crate::lines::{message_faults, order_faults};
use crate::logic::{Beside, logic_faults};
use crate::print::{Place, Printed};
use crate::scan::tokens_of;
use crate::shown::line_end;
use crate::spot::Spot;
use crate::token::{Role, Sort as TokenSort, Token, tokens_in};
use crate::unused::unused_messages;
use crate::warnings::warnings_of;
use cse_dict::Dictionary;
use cse_types::Messages;
use std::alloc::{AllocError, Global};

/// A file that was read.
#[derive(Clone, Copy)]
pub struct File<'a> {
    pub path: &'a str,
    pub bytes: &'a [u8],
}

/// The files of `check`.
#[derive(Clone, Copy)]
pub struct Files<'a> {
    pub dict: File<'a>,
    pub logic: File<'a>,
    pub messages: Option<File<'a>>,
    pub order: Option<File<'a>>,
    pub has_warnings: bool,
}

/// What was printed, and how many faults that are.
#[derive(Drop)]
pub struct Report {
    pub printed: Printed,
    pub faults: u64,
    pub warnings: u64,
}

impl Report {
    /// A fault more, or a warning, whose numbers are above 100.
    fn tell(&mut self, place: &Place<'_>, advice: &Advice<'_>) {
        if place.number > 100 {
            self.warnings = self.warnings.saturating_add(1);
        } else {
            self.faults = self.faults.saturating_add(1);
        }
        self.printed.tell(place, advice);
    }
}

/// A file beside logic.
#[derive(Clone, Copy)]
enum Sort {
    Dictionary,
    Messages,
    Order,
}

/// What is said of a line of such a file.
fn advice_of_line(sort: Sort, number: u8) -> Advice<'static> {
    match (sort, number) {
        (Sort::Messages, 30) => by_key(b"30-message"),
        (Sort::Messages, 35) => by_key(b"35-message"),
        (Sort::Messages, 103) => by_key(b"103-message"),
        (Sort::Order, _) => by_key(b"40-order"),
        _ => by_number(number),
    }
}

/// The faults of such a file.
fn tell_lines(file: &File<'_>, sort: Sort, found: &[Finding], report: &mut Report) {
    let mut cursor = Cursor::new(mark_len(file.bytes));
    for finding in found {
        let Finding { start, number } = *finding;
        cursor.move_to(file.bytes, start);
        let place = Place {
            path: file.path,
            text: file.bytes,
            cursor,
            end: line_end(file.bytes, start),
            is_named: false,
            number,
        };
        report.tell(&place, &advice_of_line(sort, number));
    }
}

/// The dictionary, or its faults, which are told.
fn read_dictionary(alloc: Global, file: &File<'_>, report: &mut Report) -> Option<Dictionary> {
    match Dictionary::read(alloc, file.bytes) {
        Ok(dictionary) => Some(dictionary),
        Err(error) => {
            match dictionary_faults(alloc, file.bytes, error) {
                Ok(found) => tell_lines(file, Sort::Dictionary, &found, report),
                Err(_) => report.printed.give_up(),
            }
            None
        }
    }
}

/// The messages of a file, without its faulty lines, which are told. Answers whether there are any.
fn read_messages(
    alloc: Global,
    file: &File<'_>,
    kept: &mut Gathered<u8>,
    report: &mut Report,
) -> bool {
    match message_faults(alloc, file.bytes, kept) {
        Ok(found) => {
            tell_lines(file, Sort::Messages, &found, report);
            !found.is_empty()
        }
        Err(_) => {
            report.printed.give_up();
            false
        }
    }
}

/// The faults of an order file.
fn read_order(alloc: Global, file: &File<'_>, dictionary: &Dictionary, report: &mut Report) {
    match order_faults(alloc, dictionary, file.bytes) {
        Ok(found) => tell_lines(file, Sort::Order, &found, report),
        Err(_) => report.printed.give_up(),
    }
}

/// Where the token ends that a fault stands at, and whether it is one, or the end of the text. What has no end is its first sign.
fn token_at(spot: &Spot<'_>, start: usize) -> (usize, bool) {
    match spot.ahead(0) {
        Some(token) if token.start == start => match token.sort {
            TokenSort::OpenComment | TokenSort::OpenText => (start.saturating_add(1), true),
            _ => (token.end, true),
        },
        _ => (start, start >= spot.text.len()),
    }
}

/// On to the first token that isn't before a place. Answers the name of the procedure that it stands in, if the one before it
/// stood in this one.
fn move_on<'a>(spot: &mut Spot<'a>, start: usize, owner: &'a [u8]) -> &'a [u8] {
    let mut owner = owner;
    let mut is_behind_proc = spot.role_before(1) == Role::Proc;
    for token in tokens_in(spot.tokens, spot.index, spot.tokens.len()) {
        if token.start >= start {
            return owner;
        }
        if is_behind_proc {
            owner = token.of(spot.text);
        }
        is_behind_proc = token.role == Role::Proc;
        spot.index = spot.index.saturating_add(1);
    }
    owner
}

/// The faults of logic.
fn tell_logic(
    file: &File<'_>,
    spot: &mut Spot<'_>,
    found: &[Finding],
    known: &mut Known<'_>,
    report: &mut Report,
) {
    let mut cursor = Cursor::new(mark_len(file.bytes));
    let mut owner: &[u8] = b"";
    for finding in found {
        let Finding { start, number } = *finding;
        cursor.move_to(spot.text, start);
        owner = move_on(spot, start, owner);
        let (end, is_named) = token_at(spot, start);
        let place = Place {
            path: file.path,
            text: spot.text,
            cursor,
            end,
            is_named,
            number,
        };
        let advice = if is_named {
            advice_of(number, spot, owner, known)
        } else {
            by_key(b"30-bytes")
        };
        report.tell(&place, &advice);
    }
}

/// Messages that no logic names, which are told.
fn tell_unused(
    alloc: Global,
    text: &[u8],
    tokens: &[Token],
    messages: &File<'_>,
    report: &mut Report,
) {
    match unused_messages(alloc, text, tokens, messages.bytes) {
        Ok(found) => tell_lines(messages, Sort::Messages, &found, report),
        Err(_) => report.printed.give_up(),
    }
}

/// The warnings of logic, if they are wanted.
fn add_warnings(
    alloc: Global,
    files: &Files<'_>,
    dictionary: Option<&Dictionary>,
    spot: &Spot<'_>,
    pieces: &[Piece],
    found: &mut Gathered<Finding>,
) {
    if let (true, Some(dictionary)) = (files.has_warnings, dictionary) {
        let source = files.dict.bytes;
        warnings_of(
            alloc,
            dictionary,
            source,
            spot.text,
            spot.tokens,
            pieces,
            found,
        );
    }
}

/// What was found in logic, which is told.
fn tell_found(
    alloc: Global,
    file: &File<'_>,
    dictionary: Option<&Dictionary>,
    spot: &mut Spot<'_>,
    pieces: &[Piece],
    found: &[Finding],
    report: &mut Report,
) -> Result<(), AllocError> {
    let (text, tokens) = (spot.text, spot.tokens);
    match Known::new(alloc, dictionary, text, tokens, pieces) {
        Ok(mut known) => {
            tell_logic(file, spot, found, &mut known, report);
            Ok(())
        }
        Err(refused) => Err(refused),
    }
}

/// The faults of the pieces of logic behind some that were found, which are told.
fn read_pieces(
    alloc: Global,
    files: &Files<'_>,
    beside: &Beside<'_>,
    spot: &mut Spot<'_>,
    pieces: &[Piece],
    found: Gathered<Finding>,
    report: &mut Report,
) -> Result<(), AllocError> {
    match logic_faults(alloc, spot.text, spot.tokens, pieces, beside, found) {
        Ok(found) => tell_found(
            alloc,
            &files.logic,
            beside.dictionary,
            spot,
            pieces,
            &found,
            report,
        ),
        Err(refused) => Err(refused),
    }
}

/// The same of its tokens and pieces, and its warnings, if they are wanted.
fn read_tokens(
    alloc: Global,
    files: &Files<'_>,
    beside: &Beside<'_>,
    spot: &mut Spot<'_>,
    pieces: &[Piece],
    found: Gathered<Finding>,
    report: &mut Report,
) -> Result<(), AllocError> {
    let (text, tokens) = (spot.text, spot.tokens);
    let mut found = found;
    add_warnings(alloc, files, beside.dictionary, spot, pieces, &mut found);
    let done = read_pieces(alloc, files, beside, spot, pieces, found, report);
    if let (true, Some(messages)) = (files.has_warnings, &files.messages) {
        tell_unused(alloc, text, tokens, messages, report);
    }
    done
}

/// The same of its text with its tokens.
fn read_with(
    alloc: Global,
    files: &Files<'_>,
    beside: &Beside<'_>,
    spot: &mut Spot<'_>,
    found: Gathered<Finding>,
    report: &mut Report,
) -> Result<(), AllocError> {
    match pieces_of(alloc, spot.tokens) {
        Ok(pieces) => read_tokens(alloc, files, beside, spot, &pieces, found, report),
        Err(refused) => Err(refused),
    }
}

/// The faults of logic without what is no UTF-8, behind some that were found, which are told, and its warnings, if they are
/// wanted.
fn read_text(
    alloc: Global,
    files: &Files<'_>,
    beside: &Beside<'_>,
    text: &[u8],
    found: Gathered<Finding>,
    report: &mut Report,
) -> Result<(), AllocError> {
    match tokens_of(alloc, text) {
        Ok(tokens) => {
            let mut spot = Spot {
                text,
                tokens: &tokens,
                index: 0,
            };
            read_with(alloc, files, beside, &mut spot, found, report)
        }
        Err(refused) => Err(refused),
    }
}

/// All faults of logic, which are told, and its warnings, if they are wanted.
fn read_logic(alloc: Global, files: &Files<'_>, beside: &Beside<'_>, report: &mut Report) {
    let mut found = Gathered::new(alloc);
    let done = match as_utf8(alloc, files.logic.bytes, &mut found) {
        Ok(text) => read_text(alloc, files, beside, &text, found, report),
        Err(refused) => Err(refused),
    };
    if done.is_err() {
        report.printed.give_up();
    }
}

/// The faults of the files beside a dictionary, if it has none, which are told.
fn tell_beside(
    alloc: Global,
    files: &Files<'_>,
    dictionary: Option<&Dictionary>,
    report: &mut Report,
) {
    let mut kept = Gathered::new(alloc);
    let lacks_messages = match &files.messages {
        Some(file) => read_messages(alloc, file, &mut kept, report),
        None => false,
    };
    if let (Some(file), Some(dictionary)) = (&files.order, dictionary) {
        read_order(alloc, file, dictionary, report);
    }
    match Messages::read(alloc, kept.items()) {
        Ok(messages) => {
            let beside = Beside {
                dictionary,
                messages: &messages,
                lacks_messages,
            };
            read_logic(alloc, files, &beside, report);
        }
        Err(_) => report.printed.give_up(),
    }
}

/// All faults of the files, which are told.
fn tell_files(alloc: Global, files: &Files<'_>, report: &mut Report) {
    let dictionary = read_dictionary(alloc, &files.dict, report);
    tell_beside(alloc, files, dictionary.as_ref(), report);
}

/// All faults of the files.
pub fn report_of(alloc: Global, files: &Files<'_>, is_json: bool) -> Report {
    let mut report = Report {
        printed: Printed::new(alloc, is_json),
        faults: 0,
        warnings: 0,
    };
    tell_files(alloc, files, &mut report);
    let (faults, warnings) = (report.faults, report.warnings);
    report.printed.tell_count(faults, warnings);
    report
}
