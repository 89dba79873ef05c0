//! The compiler: from typed logic to a verified program.
//!
//! - `error`: why no program is made.
//! - `coding`: the code of all routines.
//! - `resolve`: from instructions with constants, texts and limits by value to those of an image.
//! - `pooled`: the code with the tables in which its entries stand.
//! - `routes`: the routines with their code, and the events that run them.
//! - `parts`: all sections of the image.
//! - `compiling`: the program, which may run with its dictionary.
//! - `laws`: what holds of the program of a source.
//! - `wide`: instructions with their constants, texts and loop limits by value.
//! - `setting`: what code depends on besides its tree.
//! - `sizes`: how many instructions expressions have.
//! - `block_sizes`: how many instructions statements have.
//! - `emitter`: code that grows at its end.
//! - `items`, `decks`, `numbers`: the code of expressions.
//! - `places`: the code of statements that hold no others.
//! - `heads`: the heads of loops.
//! - `statements`: the code of statements.
//! - `routines`: the code of routines, and how many instructions they have.
//! - `globals`, `arrays`, `messages`: what the declarations and the `errmsg` statements say.
//! - `order`: the records in edit order.
//! - `outlines`: the routines, each with its statements, and the events that run them.
//! - `events`: the events in ascending order.
//! - `pools`: the constants, the loop limits and the texts of a program, each once.
#![tactic(auto)]

mod arrays;
mod block_sizes;
mod coding;
mod compiling;
mod decks;
mod emitter;
mod error;
mod events;
mod globals;
mod heads;
mod items;
mod laws;
mod messages;
mod numbers;
mod order;
mod outlines;
mod parts;
mod places;
mod pooled;
mod pools;
mod resolve;
mod routes;
mod routines;
mod setting;
mod sizes;
mod statements;
mod wide;

pub use arrays::arrays_of;
pub use compiling::program_of;
pub use emitter::Emitter;
pub use error::CompileError;
pub use events::{EventTable, event_table};
pub use globals::globals_of;
pub use laws::handlers_keep_numbers;
pub use messages::messages_of;
pub use order::edit_order;
pub use outlines::{Handler, Outline, RoutineSort, function_outlines, handlers_of};
pub use pools::{PoolError, Pools};
pub use routines::routine_size;
pub use setting::{Loop, Setting};
pub use wide::Wide;
