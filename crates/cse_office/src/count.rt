//! How often an item occurs, and how often it was changed.

/// How often an item occurs, and in how many of these lines it was changed.
#[derive(Clone, Copy)]
pub struct Count {
    pub occurrences: u64,
    pub changed: u64,
}
