//! A text cut into sections: headings `[Name]` and the lines `Key=Value` below them, with the numbers
//! of their lines, and the numbers that values spell.
//!
//! - `text`: blanks, letter case, and characters of a text.
//! - `sections`: the sections of a text, as CSPro writes its dictionaries (CSPro Users Guide, data
//!   dictionary files; what is skipped is own).
//! - `number`: whole numbers of 64 bits, as a value spells them.
#![tactic(auto)]

pub mod number;
pub mod sections;
pub mod text;
