//! The entries of a program image, the table of its instructions, and the rules of single fields. And fields of a binary
//! format (`fields`, `lists`, `writing`): little-endian numbers read from the front of bytes, each fault with its place, and
//! written at the end of a list of bytes.
#![tactic(auto)]

pub mod codes;
pub mod entries;
mod fault;
mod fields;
pub mod instruction;
mod laws;
pub mod limits;
mod lists;
pub mod opcodes;
pub mod placeholders;
pub mod rules;
pub mod texts;
pub mod version;
mod writing;

pub use fault::{FieldFault, ReadStop, Rule};
pub use fields::{
    broken, bytes_at, count_at, ended, i64_at, u8_at, u16_at, u32_at, zero_u8_at, zero_u16_at,
    zero_u24_at,
};
pub use laws::{
    number_after_others, number_read_again, number_written_again, signed_read_again,
    signed_written_again,
};
pub use lists::{i64s_at, u32s_at};
pub use writing::{put_bytes, put_i64, put_i64s, put_u8, put_u16, put_u32, put_u32s};
