//! Sources of logic that are checked: from trees of syntax to typed ones.
//!
//! - `reading`: what the types of tokens hold.
//! - `fresh`: names that are taken one after the other. `parameters`, `table`, `owners`: those of a function's parameters,
//!   of declarations, of procedures. `new_names`: the faults of those that are not new.
//! - `told`: the messages of a source, and `entries` with their numbers and texts. `owner`: what procedures belong to.
//!   `array`, `arrays`: arrays, and the dimensions of all of them. `start`: what is known before the first function ends.
//! - `counted_parts`: how many parameters and dimensions are declared. `declared_faults`, `owned`: the faults of a declaration
//!   without its names, and of procedures.
//! - `statement`: statements.
//! - `facts`: what is known of a function behind its end: whether it needs a case, and which globals it may assign. It is gathered from
//!   what the statements use, one use after the other (`specs/Uses` of `cse_logic_names`).
//! - `function`, `declaration`: functions, and declarations, one after the other. `procedure`: procedures.
//! - `parts`: a source's declarations and procedures, joined to the typed tree.
//! - `declared`, `collected`: all faults of names and kinds of declarations, and of a whole source that is refused.
//! - `checked`, `typed`: a source that was checked.
//! - `told_laws`: an expression or statements have a fault exactly where they are not sound; `specs/Counted.antt` says what is known
//!   of the arrays and the functions in scope. `judged_laws`: a source is judged to be sound exactly where it is, and has faults
//!   exactly where it is not.
#![tactic(auto)]

mod array;
mod arrays;
mod checked;
mod collected;
mod counted_parts;
mod declaration;
mod declared;
mod declared_faults;
mod entries;
mod facts;
mod fresh;
mod function;
mod judged_laws;
mod new_names;
mod owned;
mod owner;
mod owners;
mod parameters;
mod parts;
mod procedure;
mod reading;
mod start;
mod statement;
mod table;
mod told;
mod told_laws;
mod typed;

pub use checked::check;
pub use collected::faults;
pub use cse_logic_expressions::expressions_are_judged;
pub use cse_logic_names::error::TypeError;
pub use cse_logic_names::meaning::{Meaning, Routine};
pub use cse_logic_names::messages::Messages;
pub use cse_logic_names::order::Order;
pub use judged_laws::{sources_are_judged, statements_are_judged, unsound_sources_have_faults};
pub use told_laws::{unsound_expressions_have_faults, unsound_statements_have_faults};
pub use typed::Typed;
