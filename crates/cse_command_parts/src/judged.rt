//! What `verify` and `try` judged, with the files that they opened.

use cse_files::WholeFile;

/// An image that may run with a dictionary, and the files of both.
#[derive(Drop)]
pub struct VerifiedFiles<'a, F> {
    pub dict: WholeFile<'a, F>,
    pub image: WholeFile<'a, F>,
}

/// An image whose preproc ran, and its file.
#[derive(Drop)]
pub struct TriedFile<'a, F> {
    pub image: WholeFile<'a, F>,
}
