//! What an edit over files came to, with the files that it opened.

use crate::ran::RanFrom;
use cse_files::WholeFile;

/// What an edit came to, with each file that was opened.
#[derive(Drop)]
pub struct EditedFiles<'a, F> {
    pub dict: WholeFile<'a, F>,
    pub logic: WholeFile<'a, F>,
    pub messages: Option<WholeFile<'a, F>>,
    pub order: Option<WholeFile<'a, F>>,
    pub run: RanFrom<'a, F>,
}
