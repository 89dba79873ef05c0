//! The files of the commands.

ghost use Rattle.std.specs.Prelude.{◌≡◌, [], false, None, IfErr, IfOk, IfSome, option_copied, option_map};
ghost use Rattle.cse_value.specs.Sound.{are_given};
ghost use Rattle.cse_files.specs.Whole.{IsAll, IsWhole};
ghost use Rattle.cse_command_parts.specs.Stops.{HasNumber, IsNotOpened, TellsUnwritten};
ghost use Rattle.cse_command_parts.specs.Named.{IsNamed, text_or_none};
ghost use Rattle.cse_command_parts.specs.Unread.{TellsNoText, TellsNoTextIfNamed, TellsUnread, TellsUnreadIfNamed};

use crate::outcome::{Asked, Stop};
use cse_files::{
    OpenedInput, OpenedOutput, Replaced, WholeFile, create_output, open_input, read_where_there,
    read_whole, replace,
};
use cse_value::{Input, Output, Reads, Writes};
use std::rt::Files;

/// The most bytes of an image: its header, 12 counts and what they count, and its instructions.
pub const MOST_IMAGE: u64 = 156_358_936;
/// The most bytes of a deck file: its first line and its last, 4,096 headings, and 1,000,000 cells.
pub const MOST_DECKS: u64 = 21_233_489;
/// The most bytes of a dictionary, of logic, of messages and of an edit order (own).
pub const MOST_TEXT: u64 = 268_435_456;

/// A file that is read: 72 where it can't be opened.
pub fn opened<'a, R: Files>(rt: &R, path: &'a str) -> Result<OpenedInput<'a, R::File>, Stop>
    ensures path { IfOk result (λ f. f.path.now ≡ path.now) }
    ensures given { IfOk result (λ f. ⟦<Reads<R::File> as Input>⟧.given f.device ≡ are_given [] false 0) }
    ensures not_opened { IfErr result IsNotOpened }
    ensures fault { IfErr result HasNumber }
{
    match open_input(rt, path) {
        Ok(file) => Ok(file),
        Err(error) => Err(Stop::of_failure(Asked::Open, error.kind())),
    }
}

/// A file that is written from its beginning, and synced later, if that is asked: 72 where it can't be opened.
pub fn created<'a, R: Files>(
    rt: &R,
    path: &'a str,
    sync: bool,
) -> Result<OpenedOutput<'a, R::File>, Stop>
    ensures path { IfOk result (λ f. f.path.now ≡ path.now) }
    ensures taken { IfOk result (λ f. ⟦<Writes<R::File> as Output>⟧.taken f.device ≡ []) }
    ensures unsynced { sync ≡ false → IfOk result (λ f. f.same ≡ None) }
    ensures not_opened { IfErr result IsNotOpened }
    ensures fault { IfErr result HasNumber }
{
    match create_output(rt, path, sync) {
        Ok(file) => Ok(file),
        Err(error) => Err(Stop::of_failure(Asked::Open, error.kind())),
    }
}

/// A file and its bytes, and one more than these at most: 72 where it can't be opened, 70 where a read fails.
pub fn file_bytes<'a, R: Files + AllocGlobal>(
    rt: &R,
    path: &'a str,
    most: u64,
) -> Result<WholeFile<'a, R::File>, Stop>
    ensures path { IfOk result (λ f. f.input.path.now ≡ path.now) }
    ensures whole { IfOk result (λ f. IsWhole (⟦<Reads<R::File> as Input>⟧.given f.input.device) f.bytes.items most) }
    ensures fault { IfErr result HasNumber }
    ensures unread { IfErr result (TellsUnread (⟦<Reads<R::File> as Input>⟧.given) path.now) }
{
    match read_whole(rt, path, most) {
        Ok(file) => Ok(file),
        Err(fault) => Err(Stop::of_read(fault)),
    }
}

/// A file and all bytes of its text: 72 where it can't be opened, 70 where a read fails, and a fault of its own above
/// `MOST_TEXT` bytes.
pub fn file_text<'a, R: Files + AllocGlobal>(
    rt: &R,
    path: &'a str,
    too_long: u8,
) -> Result<WholeFile<'a, R::File>, Stop>
    ensures path { IfOk result (λ f. f.input.path.now ≡ path.now) }
    ensures all { IfOk result (λ f. IsAll (⟦<Reads<R::File> as Input>⟧.given f.input.device) f.bytes.items) }
    ensures fault { IfErr result HasNumber }
    ensures no_text { IfErr result (TellsNoText (⟦<Reads<R::File> as Input>⟧.given) path.now too_long) }
{
    let text = file_bytes(rt, path, MOST_TEXT)?;
    if text.bytes().len() as u64 > MOST_TEXT {
        return Err(Stop::of_number(too_long));
    }
    Ok(text)
}

/// A file and all bytes of its text, if it is named.
pub fn text_where_named<'a, R: Files + AllocGlobal>(
    rt: &R,
    path: Option<&'a str>,
    too_long: u8,
) -> Result<Option<WholeFile<'a, R::File>>, Stop>
    ensures path { IfOk result (λ text. option_map (λ f. f.input.path.now) text ≡ option_map (λ p. p.now) path.entry) }
    ensures all { IfOk result (λ text. IfSome text (λ f. IsAll (⟦<Reads<R::File> as Input>⟧.given f.input.device) f.bytes.items)) }
    ensures fault { IfErr result HasNumber }
    ensures no_text { IfErr result (TellsNoTextIfNamed (⟦<Reads<R::File> as Input>⟧.given) (option_map (λ p. p.now) path.entry) too_long) }
{
    match path {
        Some(path) => Ok(Some(file_text(rt, path, too_long)?)),
        None => Ok(None),
    }
}

/// A file and its bytes, and one more than these at most, where one is named and there.
pub fn bytes_where_there<'a, R: Files + AllocGlobal>(
    rt: &R,
    path: Option<&'a str>,
    most: u64,
) -> Result<Option<WholeFile<'a, R::File>>, Stop>
    ensures path { IfOk result (λ read. IsNamed (option_map (λ p. p.now) path.entry) (option_map (λ f. f.input.path.now) read)) }
    ensures whole { IfOk result (λ read. IfSome read (λ f. IsWhole (⟦<Reads<R::File> as Input>⟧.given f.input.device) f.bytes.items most)) }
    ensures fault { IfErr result HasNumber }
    ensures unread { IfErr result (TellsUnreadIfNamed (⟦<Reads<R::File> as Input>⟧.given) (option_map (λ p. p.now) path.entry)) }
{
    let Some(path) = path else {
        return Ok(None);
    };
    match read_where_there(rt, path, most) {
        Ok(read) => Ok(read),
        Err(fault) => Err(Stop::of_read(fault)),
    }
}

/// The bytes of a file that may be there.
pub fn bytes_of<'b, F: Drop>(file: &'b Option<WholeFile<'_, F>>) -> Option<&'b [u8]>
    ensures { option_copied result ≡ option_map (λ f. f.bytes.items) file.now }
{
    match file {
        Some(file) => Some(file.bytes()),
        None => None,
    }
}

/// The text of a file that may be named; an empty one, where none is.
pub fn text_of<'b, F: Drop>(file: &'b Option<WholeFile<'_, F>>) -> &'b [u8]
    ensures { result.now ≡ text_or_none (option_map (λ f. f.bytes.items) file.now) }
{
    match file {
        Some(file) => file.bytes(),
        None => &[],
    }
}

/// Makes these the bytes of a file: 72 where it can't be opened, 71 where they can't be written. Then a file that was
/// there is as it was, as far as `cse_files::replace` can see to it.
pub fn write_file<'a, R: Files + AllocGlobal>(
    rt: &R,
    path: &'a str,
    bytes: &[u8],
) -> Result<Replaced<'a, R::File>, Stop>
    ensures path { IfOk result (λ f. f.path.now ≡ path.now) }
    ensures taken { IfOk result (λ f. ⟦<Writes<R::File> as Output>⟧.taken f.device ≡ bytes.now) }
    ensures fault { IfErr result HasNumber }
    ensures unwritten { IfErr result TellsUnwritten }
{
    match replace(rt, path, bytes) {
        Ok(file) => Ok(file),
        Err(fault) => Err(Stop::of_write(fault)),
    }
}
