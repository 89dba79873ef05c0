//! The files of a command whose reads are told.

use crate::plan::{Command, RunPaths, plan};
use std::alloc::{AllocError, Global};
use std::env;
use std::rt::Env;

/// The words after the program's name, where a terminal is told; else none. Where memory lacks, words are missing.
pub fn words_if<R: Env + AllocGlobal>(rt: &R, is_terminal: bool) -> Vec<String> {
    let mut words = Vec::new(rt.alloc());
    if is_terminal {
        if let Ok(given) = env::args(rt) {
            for word in given.skip(1) {
                let _ = words.push(word);
            }
        }
    }
    words
}

/// The words as texts. Where memory lacks, words are missing.
fn texts_of<'a>(alloc: Global, words: &'a [String]) -> Vec<&'a str> {
    let mut texts = Vec::new(alloc);
    for word in words {
        let _ = texts.push(word.as_str());
    }
    texts
}

/// The files of a command whose reads are told.
#[derive(Drop)]
pub struct WatchedPaths {
    pub dictionary: String,
    pub data: String,
}

/// Paths of their own.
fn owned(alloc: Global, paths: &RunPaths<'_>) -> Result<WatchedPaths, AllocError> {
    Ok(WatchedPaths {
        dictionary: String::from_str(alloc, paths.dict)?,
        data: String::from_str(alloc, paths.data)?,
    })
}

/// The files of a run or an edit, unless it is to be quiet; none of other words, and where memory lacks.
fn paths_of(alloc: Global, words: &[&str]) -> Option<WatchedPaths> {
    if words.is_empty() {
        return None;
    }
    match plan(alloc, words) {
        Ok(Command::Run(paths)) if !paths.quiet => owned(alloc, &paths).ok(),
        Ok(Command::Edit(paths)) if !paths.run.quiet => owned(alloc, &paths.run).ok(),
        _ => None,
    }
}

/// The files of the run or the edit that these words ask for, unless it is to be quiet; none of other words.
pub fn watched_paths(alloc: Global, words: &[String]) -> Option<WatchedPaths> {
    paths_of(alloc, &texts_of(alloc, words))
}
