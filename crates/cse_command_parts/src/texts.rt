//! The texts of an office: a dictionary, and logic with its messages and its edit order.

ghost use Rattle.std.specs.Prelude.{◌≡◌, [], IfErr, IfOk, IfSome, option_map};
ghost use Rattle.cse_sections.specs.Sections.{sections_of};
ghost use Rattle.cse_dict.specs.Dictionary.{dictionary_of};
ghost use Rattle.cse_dict.specs.Reading.{text_faults};
ghost use Rattle.cse_files.specs.Whole.{IsAll};
ghost use Rattle.cse_command_parts.specs.Halts.{StopsDict};
ghost use Rattle.cse_command_parts.specs.Unread.{StopsTexts};

use crate::fault::Fault;
use crate::files::{file_text, text_where_named};
use crate::outcome::Stop;
use cse_dict::Dictionary;
use cse_fault_numbers::{TOO_LARGE, TOO_MANY};
use cse_files::WholeFile;
use cse_value::{Input, Reads};
use std::rt::Files;

/// A dictionary, and the file that gave its text.
pub struct DictFile<'a, F> {
    pub file: WholeFile<'a, F>,
    pub dictionary: Dictionary,
}

// Written out, so that one who owns it calls this drop and does not prove one for each part.
impl<'a, F: Drop> Drop for DictFile<'a, F> {
    fn drop(self) {
        let DictFile {
            file: _file,
            dictionary: _dictionary,
        } = self;
    }
}

impl<'a, F: Drop> DictFile<'a, F> {
    /// The file, once the dictionary is done with.
    pub fn into_file(self) -> WholeFile<'a, F>
        ensures { result ≡ self.entry.file }
    {
        let DictFile {
            file,
            dictionary: _dictionary,
        } = self;
        file
    }
}

/// The files of logic, of its messages and of its edit order, with the texts that they gave.
pub struct LogicFiles<'a, F> {
    pub logic: WholeFile<'a, F>,
    pub messages: Option<WholeFile<'a, F>>,
    pub order: Option<WholeFile<'a, F>>,
}

// Written out, so that one who owns it calls this drop and does not prove one for each part.
impl<'a, F: Drop> Drop for LogicFiles<'a, F> {
    fn drop(self) {
        let LogicFiles {
            logic: _logic,
            messages: _messages,
            order: _order,
        } = self;
    }
}

impl<'a, F: Drop> LogicFiles<'a, F> {
    /// The file of logic, and those of its messages and of its edit order, if they are named.
    pub fn into_parts(
        self,
    ) -> (
        WholeFile<'a, F>,
        Option<WholeFile<'a, F>>,
        Option<WholeFile<'a, F>>,
    )
        ensures { result ≡ (self.entry.logic, self.entry.messages, self.entry.order) }
    {
        let LogicFiles {
            logic,
            messages,
            order,
        } = self;
        (logic, messages, order)
    }
}

/// Reads a dictionary, and checks it: its faults are 10 to 18; 72 where its file can't be opened, 70 where a read fails,
/// and 90.
pub fn dict_file<'a, R: Files + AllocGlobal>(
    rt: &R,
    path: &'a str,
) -> Result<DictFile<'a, R::File>, Stop>
    ensures path { IfOk result (λ d. d.file.input.path.now ≡ path.now) }
    ensures all { IfOk result (λ d. IsAll (⟦<Reads<R::File> as Input>⟧.given d.file.input.device) d.file.bytes.items) }
    ensures dictionary { IfOk result (λ d. d.dictionary ≡ dictionary_of (sections_of d.file.bytes.items)) }
    ensures sound { IfOk result (λ d. text_faults d.file.bytes.items ≡ []) }
    ensures stops { IfErr result (StopsDict (⟦<Reads<R::File> as Input>⟧.given) path.now) }
{
    let file = file_text(rt, path, TOO_MANY)?;
    match Dictionary::read(rt.alloc(), file.bytes()) {
        Ok(dictionary) => Ok(DictFile { file, dictionary }),
        Err(error) => Err(Stop::Refused(Fault::of_dictionary(error))),
    }
}

/// Reads logic, the messages and the edit order, one after the other: 72 where a file can't be opened, 70 where a read
/// fails, 64 for a text that is too long, and 90.
pub fn logic_files<'a, R: Files + AllocGlobal>(
    rt: &R,
    logic: &'a str,
    messages: Option<&'a str>,
    order: Option<&'a str>,
) -> Result<LogicFiles<'a, R::File>, Stop>
    ensures path { IfOk result (λ f. f.logic.input.path.now ≡ logic.now) }
    ensures messages_path { IfOk result (λ f. option_map (λ m. m.input.path.now) f.messages ≡ option_map (λ p. p.now) messages.entry) }
    ensures order_path { IfOk result (λ f. option_map (λ o. o.input.path.now) f.order ≡ option_map (λ p. p.now) order.entry) }
    ensures all { IfOk result (λ f. IsAll (⟦<Reads<R::File> as Input>⟧.given f.logic.input.device) f.logic.bytes.items) }
    ensures messages { IfOk result (λ f. IfSome f.messages (λ m. IsAll (⟦<Reads<R::File> as Input>⟧.given m.input.device) m.bytes.items)) }
    ensures order { IfOk result (λ f. IfSome f.order (λ o. IsAll (⟦<Reads<R::File> as Input>⟧.given o.input.device) o.bytes.items)) }
    ensures stops { IfErr result (StopsTexts (⟦<Reads<R::File> as Input>⟧.given) logic.now
        (option_map (λ p. p.now) messages.entry) (option_map (λ p. p.now) order.entry)) }
{
    let logic = file_text(rt, logic, TOO_LARGE)?;
    let messages = text_where_named(rt, messages, TOO_LARGE)?;
    let order = text_where_named(rt, order, TOO_LARGE)?;
    Ok(LogicFiles {
        logic,
        messages,
        order,
    })
}
