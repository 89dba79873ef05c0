//! Texts cut at marks.

/// What stands before a mark; all where there is none.
pub fn before<'a>(text: &'a str, mark: &str) -> &'a str {
    match text.split_once(mark) {
        Some((front, _)) => front,
        None => text,
    }
}

/// What stands behind a mark; nothing where there is none.
pub fn behind<'a>(text: &'a str, mark: &str) -> &'a str {
    match text.split_once(mark) {
        Some((_, rest)) => rest,
        None => "",
    }
}

/// How many parts a text has, with a mark between two of them. They are gone through by `before` and `behind`.
pub fn parts(text: &str, mark: &str) -> usize {
    text.matches(mark).count().saturating_add(1)
}

/// How many words a text has, with blanks or line ends between two of them.
pub fn words(text: &str) -> usize {
    text.split_ascii_whitespace().count()
}

/// The word at a place, from 0 on; nothing behind the last.
pub fn word_at(text: &str, place: usize) -> &str {
    text.split_ascii_whitespace().nth(place).unwrap_or("")
}
