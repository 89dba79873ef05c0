//! What `compile` came to, with the files that it opened.

use cse_files::{Replaced, WholeFile};

/// An image that was made, with each file that was opened.
#[derive(Drop)]
pub struct CompiledFiles<'a, F> {
    pub dict: WholeFile<'a, F>,
    pub logic: WholeFile<'a, F>,
    pub messages: Option<WholeFile<'a, F>>,
    pub order: Option<WholeFile<'a, F>>,
    pub image: Replaced<'a, F>,
    /// How many bytes the image has.
    pub len: usize,
}
