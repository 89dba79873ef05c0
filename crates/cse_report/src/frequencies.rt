//! The frequencies of a run: how often which values were imputed, item by item.

ghost use Rattle.std.specs.Prelude.{◌≡◌, ◌<◌, ◌≤◌, [], OnOk, OnErr, IfOk, length, map, replicate};
ghost use Rattle.cse_value.specs.Writing.{WritesAll, FailsAtErr};
ghost use Rattle.cse_dict.specs.Dictionary.{item_names};
ghost use Rattle.cse_value.specs.Gathering.{behind, Puts};
ghost use Rattle.cse_report.specs.Frequency.{imputed, items_lines, frequencies_text};

use crate::counts::{ValueCounts, put_item};
use cse_dict::Dictionary;
use cse_value::{Failed, Gatherer, Num, OutOfMemory, Output};
use std::alloc::{AllocError, Global};
use std::marker::Model;

/// How often which values were imputed to each item of a program, in order of first imputation.
#[derive(Drop)]
pub struct Frequencies {
    items: Vec<ValueCounts>,
}

impl Model for Frequencies {
    ghost use Rattle.std.specs.Prelude.{List};
    ghost use Rattle.cse_report.specs.Frequency.{Table};

    ghost Value = { List Table };

    ghost view = { λ s. s.items.items };
}

impl Frequencies {
    /// Nothing was imputed to any of so many items.
    pub(crate) fn new(alloc: Global, count: usize) -> Result<Frequencies, AllocError>
        ensures { IfOk result (λ f. f ≡ replicate count []) }
    {
        let mut items = Vec::new(alloc);
        'items: for _item in 0..count {
            items.push(ValueCounts::new(alloc))?;
        }
        Ok(Frequencies { items })
    }

    /// How many items there are. Takes no memory.
    pub fn len(&self) -> usize
        ensures { result ≡ length self.now }
    {
        self.items.len()
    }

    /// A value was imputed to an item. A count stays at 2^64 - 1. After want of memory nothing has changed.
    pub fn imputed(&mut self, item: usize, value: Num) -> Result<(), OutOfMemory>
        requires { item < length self.old }
        ensures ok { OnOk result (self.new ≡ imputed self.old item value) }
        ensures err { OnErr result (self.new ≡ self.old) }
    {
        self.items[item].tally(value)
    }

    /// Writes the frequencies (own): a heading, for each item of the dictionary to which a value was imputed
    /// a line with its name and total and a line for each value, and an end. Takes no memory.
    pub fn write_to<W: Output>(&self, dictionary: &Dictionary, out: &mut W) -> Result<(), Failed>
        ensures bytes { WritesAll result (W.taken out.old) (W.taken out.new) (frequencies_text (item_names dictionary.now) self.now) }
        ensures failed { FailsAtErr result (W.has_failed out.old) (W.has_failed out.new) }
    {
        let mut gatherer = Gatherer::new();
        gatherer.put_line(out, b"CSEB FREQUENCIES 1");
        put_items(&mut gatherer, out, dictionary, &self.items);
        gatherer.put_line(out, b"END");
        gatherer.finish(out)
    }
}

/// Puts the lines of all items.
fn put_items<W: Output>(
    gatherer: &mut Gatherer,
    out: &mut W,
    dictionary: &Dictionary,
    items: &[ValueCounts],
)
    ensures { Puts (behind W.taken W.has_failed out.old gatherer.old) (behind W.taken W.has_failed out.new gatherer.new)
        (items_lines (item_names dictionary.now) items.now) }
{
    let count = dictionary.shape().items.len().min(items.len());
    'items: for item in 0..count {
        put_item(
            gatherer,
            out,
            dictionary.item_name(item as u16),
            &items[item],
        );
    }
}
