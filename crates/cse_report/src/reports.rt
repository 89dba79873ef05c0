//! What a run reports.

ghost use Rattle.std.specs.Prelude.{◌≡◌, ◌<◌, ◌≤◌, List, [], not, false, OnOk, OnErr, IfOk, IsOk, length, replicate};
ghost use Rattle.cse_image_parts.specs.Image.{Image};
ghost use Rattle.cse_report.specs.declared.argument.Arg.{Arg};
ghost use Rattle.cse_report.specs.MessageText.{HasArguments};
ghost use Rattle.cse_report.specs.Listing.{is_listed, text_of, BeginsRun, BeginsCase, LeavesUnseen, Gives};
ghost use Rattle.cse_report.specs.Held.{begun, reported};
ghost use Rattle.cse_report.specs.Frequency.{imputed};

use crate::argument::Arg;
use crate::frequencies::Frequencies;
use crate::listing::Listing;
use cse_dict::Unseen;
use cse_image::{Code, Program};
use cse_value::{Num, OutOfMemory};
use std::alloc::Global;

/// What a run reports: its listing, and how often values were imputed.
pub struct Reports {
    pub listing: Listing,
    pub frequencies: Frequencies,
}

impl Drop for Reports {
    fn drop(self) {
        let Reports {
            listing: _listing,
            frequencies: _frequencies,
        } = self;
    }
}

impl Reports {
    ghost use Rattle.cse_report.specs.Reports.{ReportsFit};

    /// The reports of a run of the program, in which nothing was reported yet.
    pub fn new<C: Code>(alloc: Global, program: &Program<C>) -> Result<Reports, OutOfMemory>
        ensures listing { IfOk result (λ r. r.listing ≡ begun program.now.lists.messages) }
        ensures frequencies { IfOk result (λ r. r.frequencies ≡ replicate (length program.now.lists.items) []) }
        ensures fits { IfOk result (ReportsFit program.now) }
    {
        let listing = Listing::new(alloc, program.messages())?;
        let frequencies = Frequencies::new(alloc, program.items().len())?;
        Ok(Reports {
            listing,
            frequencies,
        })
    }

    /// The application's preproc or postproc begins. Takes no memory.
    pub fn begin_run(&mut self)
        ensures listing { self.new.listing ≡ reported self.old.listing BeginsRun }
        ensures frequencies { self.new.frequencies ≡ self.old.frequencies }
        ensures fits { (x : Image) → ReportsFit x self.old → ReportsFit x self.new }
    {
        self.listing.begin_run();
    }

    /// A run of data lines with these id columns begins. After want of memory nothing has changed.
    pub fn begin_case(&mut self, ids: &[char]) -> Result<(), OutOfMemory>
        ensures ok { OnOk result (self.new.listing ≡ reported self.old.listing (BeginsCase ids.now)) }
        ensures frequencies { self.new.frequencies ≡ self.old.frequencies }
        ensures err { OnErr result (self.new ≡ self.old) }
        ensures fits { (x : Image) → ReportsFit x self.old → ReportsFit x self.new }
    {
        self.listing.begin_case(ids)
    }

    /// A data line, counted from 1, is no occurrence of its run. After want of memory nothing has changed.
    pub fn unseen(&mut self, line: u64, what: Unseen) -> Result<(), OutOfMemory>
        ensures ok { OnOk result (self.new.listing ≡ reported self.old.listing (LeavesUnseen line what)) }
        ensures frequencies { self.new.frequencies ≡ self.old.frequencies }
        ensures err { OnErr result (self.new ≡ self.old) }
        ensures fits { (x : Image) → ReportsFit x self.old → ReportsFit x self.new }
    {
        self.listing.unseen(line, what)
    }

    /// The message of this number, from 0, is given with its arguments: it is counted, and listed unless it
    /// is one of the summary. After want of memory nothing has changed; a message of the summary takes no
    /// memory.
    pub fn message(&mut self, index: usize, args: &[Arg]) -> Result<(), OutOfMemory>
        requires there { index < length self.old.listing.messages }
        requires kinds { HasArguments (text_of self.old.listing.messages index) args.now }
        ensures ok { OnOk result (self.new.listing ≡ reported self.old.listing (Gives index args.now)) }
        ensures frequencies { self.new.frequencies ≡ self.old.frequencies }
        ensures err { OnErr result (self.new ≡ self.old) }
        ensures summary { is_listed self.old.listing.messages index ≡ false → IsOk result }
        ensures fits { (x : Image) → ReportsFit x self.old → ReportsFit x self.new }
    {
        self.listing.message(index, args)
    }

    /// Whether the message of this number, from 0, is only counted. Takes no memory.
    pub fn is_summary(&self, index: usize) -> bool
        requires { index < length self.now.listing.messages }
        ensures { result ≡ not (is_listed self.now.listing.messages index) }
    {
        self.listing.is_summary(index)
    }

    /// The message of this number, from 0, is given, which is only counted, whatever its arguments. Takes no
    /// memory.
    pub fn summary_message(&mut self, index: usize)
        requires there { index < length self.old.listing.messages }
        requires summary { is_listed self.old.listing.messages index ≡ false }
        ensures listing { (args : List Arg) → self.new.listing ≡ reported self.old.listing (Gives index args) }
        ensures frequencies { self.new.frequencies ≡ self.old.frequencies }
        ensures fits { (x : Image) → ReportsFit x self.old → ReportsFit x self.new }
    {
        self.listing.summary_message(index);
    }

    /// A value was imputed to an item. After want of memory nothing has changed.
    pub fn imputed(&mut self, item: usize, value: Num) -> Result<(), OutOfMemory>
        requires { item < length self.old.frequencies }
        ensures ok { OnOk result (self.new.frequencies ≡ imputed self.old.frequencies item value) }
        ensures listing { self.new.listing ≡ self.old.listing }
        ensures err { OnErr result (self.new ≡ self.old) }
        ensures fits { (x : Image) → ReportsFit x self.old → ReportsFit x self.new }
    {
        self.frequencies.imputed(item, value)
    }
}
