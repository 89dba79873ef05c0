//! The lines of a record, and what was found in the fields of its items.

use crate::field::Field;
use crate::names::Names;
use cse_case::Columns;
use cse_dict::Dictionary;
use cse_value::shape::{ID_OWNER, RecordShape};
use std::alloc::{AllocError, Global};

/// A record, and what was found so far.
pub struct Record {
    /// How many seen lines it has.
    pub lines: u64,
    /// Its items.
    pub fields: Vec<Field>,
    /// How many of its lines the run has so far, and the most that a run may have.
    seen: u16,
    most: u16,
}

// Written out, so that one who owns it calls this drop and does not prove one for each part.
impl Drop for Record {
    fn drop(self) {
        let Record {
            lines: _lines,
            fields: _fields,
            seen: _seen,
            most: _most,
        } = self;
    }
}

/// Adds the items of a record. Id items have none.
fn add_fields(
    fields: &mut Vec<Field>,
    alloc: Global,
    names: &Names<'_>,
    owner: usize,
) -> Result<(), AllocError> {
    let items = names.dictionary.shape().items.as_slice();
    for item in 0..items.len() {
        let shape = &items[item];
        if shape.owner as usize == owner && shape.owner != ID_OWNER {
            fields.push(Field::new(alloc, names, item, shape)?)?;
        }
    }
    Ok(())
}

impl Record {
    /// A record of which no line was looked at.
    pub fn new(
        alloc: Global,
        names: &Names<'_>,
        number: usize,
        shape: &RecordShape,
    ) -> Result<Record, AllocError> {
        let mut record = Record {
            lines: 0,
            fields: Vec::new(alloc),
            seen: 0,
            most: shape.max_records,
        };
        match add_fields(&mut record.fields, alloc, names, number) {
            Ok(()) => Ok(record),
            Err(error) => Err(error),
        }
    }

    /// Begins a run.
    pub fn begin_run(&mut self) {
        self.seen = 0;
    }

    /// Looks at a line, if it is no more than the run may have. Tells whether it was looked at.
    #[inline(never)]
    pub fn look(&mut self, dictionary: &Dictionary, columns: Columns<'_>, line: u64) -> bool {
        if self.seen >= self.most {
            return false;
        }
        self.seen = self.seen.saturating_add(1);
        self.lines = self.lines.saturating_add(1);
        for field in self.fields.iter_mut() {
            field.look(dictionary, columns, line);
        }
        true
    }
}
