//! Cases in and out: the lines of a data file with equal id columns, read by a dictionary.
//!
//! - `field`: the columns of an item in a line.
//! - `items`: a dictionary, and which numbers are no codes of its items.
//! - `number`: the number in a few columns.
//! - `text`: the text of columns, copied, and compared where it stands.
//! - `span`: where the columns of an item stand in the lines of its record.
//! - `seen`: which lines of a run are seen, and as which occurrence of their record.
//! - `case`: a case, and its fields.
//! - `write`: how the lines of a run are written.
//! - `source`: the id columns of a run.
//! - `stream`, `reader`: the reader of cases.
//! - `laws`: what a write changes and leaves alone, and which lines are seen.
//! - `line`: a line of a run, and how it ends.
//! - `columns`: columns that are lent, as bytes, with the characters of those beyond ASCII beside them.
//! - `filled`: columns that are kept so.
//! - `few`: a number that is written into a few columns.
//! - `run`: consecutive lines with equal id columns (CSPro Users Guide, data files; the limits are own).
//! - `run_bytes`: the bytes of these lines.
//! - `error`: what a data file can be refused by.
//! - `layout`: the columns that a dictionary names on each line.
//! - `untouched`: the law that a line which was not set is written as it came.
#![tactic(auto)]

mod alike;
mod beyond;
mod buffer;
mod case;
pub mod columns;
mod copy;
mod cut;
mod decode;
pub mod error;
mod few;
mod field;
mod fill;
mod filled;
mod gather;
mod items;
mod laws;
pub mod layout;
pub mod line;
mod next;
mod number;
mod reader;
pub mod run;
pub mod run_bytes;
pub mod run_reader;
mod same;
mod seen;
mod source;
mod span;
mod stream;
mod take;
mod text;
pub mod untouched;
mod write;

pub use case::Case;
pub use columns::{Columns, put_columns};
pub use error::DataError;
pub use filled::Filled;
pub use laws::{
    column_stays, fit_stays, ids_and_types_stay, occurrences_stay, others_stay, reads_what_was_set,
    seen_or_unseen,
};
pub use line::{Ending, Line};
pub use reader::CaseReader;
pub use run::{Lines, Run};
pub use run_bytes::RunBytes;
pub use run_reader::{Kept, RunReader};
pub use span::ItemSpan;
pub use stream::CaseStream;
pub use text::{compare_columns, read_columns};
pub use untouched::untouched_line_stays;
