//! The values of a batch editor: whole numbers with the special values, texts, fields of columns, the
//! shape of a dictionary, and the devices that give and take bytes.
//!
//! - `number`: numbers, their arithmetic and relations (CSPro Users Guide, special values; whole numbers
//!   are own).
//! - `text`: texts of at most 255 characters, and their relations.
//! - `field`: fields, read as numbers and texts and written back, and the text of a number in a message.
//! - `digits`: the columns of a number that has no sign.
//! - `shape`: what a program must know of a dictionary.
//! - `device`: inputs and outputs, and those of std's readers and writers.
//! - `record`, `history`: what devices remember, which clauses alone read: what an output took; what an input gave, whether it
//!   was at its end, and how often it failed.
//! - `slice`, `gathered`: devices of memory. One gives the bytes of a slice, one gathers what it takes.
//! - `gatherer`, `waiting`: bytes that are gathered in a buffer on the stack before a device takes them.
//! - `memory`: the error of calls that can only lack memory.
#![tactic(auto)]

pub mod device;
mod digits;
pub mod field;
mod gathered;
mod gatherer;
mod history;
pub mod memory;
pub mod number;
mod record;
pub mod shape;
mod slice;
pub mod text;
mod waiting;

pub use device::{Failed, Input, Output, Reads, Writes, write_all};
pub use digits::filler_of;
pub use field::{keeps_width, put_num, put_text, read_num, read_text, round_trip, show_num};
pub use gathered::Gathered;
pub use gatherer::Gatherer;
pub use history::History;
pub use memory::OutOfMemory;
pub use number::{Num, Rel, add, compare, mul, neg, quo, rem, sub, truth};
pub use record::Record;
pub use slice::FromSlice;
pub use text::{TEXT_LEN, Text, compare_text};
pub use waiting::Waiting;
