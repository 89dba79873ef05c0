//! What a data file is before it is edited.

ghost use Rattle.std.specs.Prelude.{◌≡◌, true};
ghost use Rattle.cse_value.specs.Device.{IsAtEnd};

use crate::columns::line_at;
use crate::field::Found;
use crate::item::column_at;
use crate::names::Names;
use crate::record::Record;
use cse_case::layout::{ColumnSpan, id_blocks};
use cse_case::{Columns, DataError, Lines, RunReader};
use cse_dict::Dictionary;
use cse_value::Input;
use std::alloc::{AllocError, Global};
use std::collections::HashSet;

/// How many ids are remembered, so that one that comes back is seen.
const MOST_IDS: usize = 4_194_304;

/// What was found so far.
pub struct Look {
    /// All lines.
    pub(crate) lines: u64,
    /// The runs with a seen line.
    pub(crate) cases: u64,
    /// The records, by number.
    pub(crate) records: Vec<Record>,
    /// Lines of no record, and lines past the most occurrences of their record.
    pub(crate) unknown: Found,
    pub(crate) extra: Found,
    /// Runs whose ids come back after others came between.
    pub(crate) returns: Found,
    ids: Vec<ColumnSpan>,
    known: HashSet<u64>,
    lacks_memory: bool,
}

// Written out, so that one who owns it calls this drop and does not prove one for each part.
impl Drop for Look {
    fn drop(self) {
        let Look {
            lines: _lines,
            cases: _cases,
            records: _records,
            unknown: _unknown,
            extra: _extra,
            returns: _returns,
            ids: _ids,
            known: _known,
            lacks_memory: _lacks_memory,
        } = self;
    }
}

/// Adds the records, of which no line was looked at.
fn add_records(
    records: &mut Vec<Record>,
    alloc: Global,
    names: &Names<'_>,
) -> Result<(), AllocError> {
    let shapes = names.dictionary.shape().records.as_slice();
    for number in 0..shapes.len() {
        records.push(Record::new(alloc, names, number, &shapes[number])?)?;
    }
    Ok(())
}

/// A sum of the columns of the ids: other ids have another one, but for one of 18,446,744,073,709,551,616 pairs.
fn sum_of(ids: &[ColumnSpan], columns: Columns<'_>) -> u64 {
    let mut sum = 14_695_981_039_346_656_037u64;
    for id in ids {
        let first = (id.start as usize).saturating_sub(1);
        for place in first..first.saturating_add(id.len as usize) {
            sum ^= u64::from(column_at(columns, place) as u32);
            sum = sum.wrapping_mul(1_099_511_628_211);
        }
    }
    sum
}

/// Want of memory.
const LACKS_MEMORY: DataError = DataError {
    number: 90,
    line: 0,
};

impl Look {
    /// Nothing is read so far.
    fn new(alloc: Global, names: &Names<'_>) -> Result<Look, AllocError> {
        let ids = id_blocks(alloc, names.dictionary)?;
        let mut look = Look {
            lines: 0,
            cases: 0,
            records: Vec::new(alloc),
            unknown: Found::NONE,
            extra: Found::NONE,
            returns: Found::NONE,
            ids,
            known: HashSet::new(alloc),
            lacks_memory: false,
        };
        match add_records(&mut look.records, alloc, names) {
            Ok(()) => Ok(look),
            Err(error) => Err(error),
        }
    }

    /// Begins a run, whose ids are a sum.
    fn begin_run(&mut self, sum: u64) {
        for record in self.records.iter_mut() {
            record.begin_run();
        }
        if self.known.contains(&sum) {
            self.returns.add(self.lines.saturating_add(1));
        } else if self.known.len() < MOST_IDS {
            self.lacks_memory |= self.known.insert(sum).is_err();
        }
    }

    /// Looks at a line. Tells whether it is seen.
    fn look_at_line(
        &mut self,
        dictionary: &Dictionary,
        record: Option<u16>,
        columns: Columns<'_>,
    ) -> bool {
        self.lines = self.lines.saturating_add(1);
        let line = self.lines;
        let Some(number) = record else {
            self.unknown.add(line);
            return false;
        };
        let is_seen = match self.records.get_mut(number as usize) {
            Some(record) => record.look(dictionary, columns, line),
            None => false,
        };
        if !is_seen {
            self.extra.add(line);
        }
        is_seen
    }

    /// Looks at the lines of a run.
    fn look_at_lines(&mut self, dictionary: &Dictionary, lines: &Lines) {
        let mut has_seen = false;
        for place in 0..lines.lines.len() {
            if let Some((columns, record)) = line_at(lines, place) {
                has_seen |= self.look_at_line(dictionary, record, columns);
            }
        }
        if has_seen {
            self.cases = self.cases.saturating_add(1);
        }
    }

    /// Looks at a run.
    fn look_at_run(&mut self, dictionary: &Dictionary, lines: &Lines) {
        if let Some((columns, _)) = line_at(lines, 0) {
            let sum = sum_of(&self.ids, columns);
            self.begin_run(sum);
        }
        self.look_at_lines(dictionary, lines);
    }

    /// Whether no line is seen, or ids come back.
    pub fn is_amiss(&self) -> bool {
        self.cases == 0 || self.returns.count > 0
    }
}

/// Looks at the next run. Tells whether there was one.
fn look_at_next<R: Input>(
    look: &mut Look,
    dictionary: &Dictionary,
    reader: &mut RunReader<'_>,
    input: &mut R,
) -> Result<bool, DataError>
    requires { reader.old.ended ≡ true → IsAtEnd (R.given input.old) }
    ensures { reader.new.ended ≡ true → IsAtEnd (R.given input.new) }
{
    let run = match reader.next(input) {
        Ok(Some(run)) => run,
        Ok(None) => return Ok(false),
        Err(error) => return Err(error),
    };
    let (lines, _, _) = run.into_parts();
    if let Some(lines) = lines {
        look.look_at_run(dictionary, &lines);
        reader.take_back(lines);
    }
    if look.lacks_memory {
        return Err(LACKS_MEMORY);
    }
    Ok(true)
}

/// Looks at all runs.
fn look_at_all<R: Input>(
    look: &mut Look,
    alloc: Global,
    dictionary: &Dictionary,
    input: &mut R,
) -> Result<(), DataError> {
    let mut reader = RunReader::new(alloc, dictionary);
    'runs: for _ in 0..u64::MAX {
        match look_at_next(look, dictionary, &mut reader, input) {
            Ok(true) => {}
            Ok(false) => return Ok(()),
            Err(error) => return Err(error),
        }
    }
    Ok(())
}

/// Looks at a data file. It is read once, and a run of it is held.
pub fn look_at<R: Input>(
    alloc: Global,
    names: &Names<'_>,
    input: &mut R,
) -> Result<Look, DataError> {
    let Ok(mut look) = Look::new(alloc, names) else {
        return Err(LACKS_MEMORY);
    };
    match look_at_all(&mut look, alloc, names.dictionary, input) {
        Ok(()) => Ok(look),
        Err(error) => Err(error),
    }
}
