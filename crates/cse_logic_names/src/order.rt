//! An order file: the records whose events come first, one name a line (own).

ghost use Rattle.std.specs.Prelude.{◌≡◌, ℕ, List, nat_eq, IfOk};
ghost use Rattle.std.specs.List.{list_any};
ghost use Rattle.cse_sections.specs.Sections.{after_mark, lines_of};
ghost use Rattle.cse_logic_names.specs.MessageFile.{file_lines};
ghost use Rattle.cse_logic_names.specs.OrderFile.{IsOrderOf, ReadsOrder, TakesRecord, record_in};

use crate::error::{FileStop, TypeError, error_at};
use cse_dict::Dictionary;
use cse_fault_numbers::UNKNOWN_NAME;
use cse_sections::sections::{after_mark, first_line};
use std::alloc::Global;
use std::marker::Model;

/// The record that a line names.
#[tactic(auto, unfolding(crate::specs::OrderFile::record_in))]
fn record_in(dictionary: &Dictionary, line: &[u8]) -> Option<u16>
    ensures { result ≡ record_in dictionary.now line.now }
{
    match str::from_utf8(line) {
        Ok(name) => dictionary.find_record(name),
        Err(_) => None,
    }
}

/// The records that an order file names, in its order, each once.
#[derive(Drop)]
pub struct Order {
    records: Vec<u16>,
}

impl Model for Order {
    ghost Value = { List ℕ };

    ghost view = { λ o. o.records.items };
}

impl Order {
    fn has(&self, number: u16) -> bool
        ensures { result ≡ list_any (λ x. nat_eq x number) self.now }
    {
        self.records.iter().any(|x| *x == number)
    }

    /// Takes the record that a line names.
    #[tactic(auto, unfolding(crate::specs::OrderFile::order_line))]
    fn take_line(&mut self, dictionary: &Dictionary, line: &[u8]) -> Result<(), FileStop>
        ensures { TakesRecord result self.old self.new dictionary.now line.now }
    {
        if line.is_empty() {
            return Ok(());
        }
        let Some(record) = record_in(dictionary, line) else {
            return Err(FileStop::Fault(UNKNOWN_NAME));
        };
        if self.has(record) {
            return Err(FileStop::Fault(UNKNOWN_NAME));
        }
        match self.records.push(record) {
            Ok(()) => Ok(()),
            Err(_) => Err(FileStop::Memory),
        }
    }

    /// The records that the lines of a text name.
    fn read_lines(alloc: Global, dictionary: &Dictionary, text: &[u8]) -> Result<Order, TypeError>
        ensures { ReadsOrder dictionary.now result (lines_of text.now) }
    {
        let mut order = Order {
            records: Vec::new(alloc),
        };
        let mut rest = text;
        let mut number = 0u64;
        'lines: while !rest.is_empty() {
            let (line, more) = first_line(rest);
            number += 1;
            match order.take_line(dictionary, line) {
                Ok(()) => {}
                Err(stop) => return Err(error_at(stop, number)),
            }
            rest = more;
        }
        Ok(order)
    }

    /// The records that an order file names: one name a line, in any letter case, without blanks around it, each
    /// record at most once; empty lines say nothing. Else the first line that names no record, or one that was
    /// named before (40), at its column 1; or want of memory (90).
    pub fn read(alloc: Global, dictionary: &Dictionary, text: &[u8]) -> Result<Order, TypeError>
        ensures reads { ReadsOrder dictionary.now result (file_lines text.now) }
        ensures order { IfOk result (λ o. IsOrderOf dictionary.now o) }
    {
        Order::read_lines(alloc, dictionary, after_mark(text))
    }

    /// The numbers of the records, in the order of the file.
    pub fn records(&self) -> &[u16]
        ensures { result.now ≡ self.now }
    {
        self.records.as_slice()
    }
}
