//! Where a path leads.

use std::fs;
use std::fs::Metadata;
use std::os::unix::fs::{FileTypeExt, MetadataExt};
use std::rt::Files;

/// Where a path leads: a file or a folder of the system, by its device and its number there, and what of the path
/// stands behind it. That is nothing where the path's file is there, its name where only its folder is, and the whole
/// path, behind 0 and 0, where neither is.
#[derive(Clone, Copy, Debug)]
pub struct Place<'a> {
    pub device: u64,
    pub number: u64,
    pub rest: &'a str,
    /// Whether a regular file is there.
    pub is_regular: bool,
    /// Whether a device is there, as a terminal or `/dev/null`.
    pub is_device: bool,
}

/// Where a path leads, through links.
pub fn place_of<'a, R: Files>(rt: &R, path: &'a str) -> Place<'a> {
    match fs::metadata(rt, path) {
        Ok(found) => behind(&found, "", path),
        Err(_) => place_to_be(rt, path),
    }
}

/// Where a file would be made: in its folder, by its name.
fn place_to_be<'a, R: Files>(rt: &R, path: &'a str) -> Place<'a> {
    let (folder, name) = match path.rsplit_once('/') {
        Some(("", name)) => ("/", name),
        Some((folder, name)) => (folder, name),
        None => (".", path),
    };
    match fs::metadata(rt, folder) {
        Ok(found) => behind(&found, name, path),
        Err(_) => unknown(path),
    }
}

/// What stands behind a file or a folder. A system that numbers none tells nothing by it.
fn behind<'a>(found: &Metadata, rest: &'a str, path: &'a str) -> Place<'a> {
    let (device, number) = (found.dev(), found.ino());
    if device == 0 && number == 0 {
        return unknown(path);
    }
    let kind = found.file_type();
    Place {
        device,
        number,
        rest,
        is_regular: found.is_file(),
        is_device: kind.is_char_device(),
    }
}

/// A path of which nothing else is known.
fn unknown(path: &str) -> Place<'_> {
    Place {
        device: 0,
        number: 0,
        rest: path,
        is_regular: false,
        is_device: false,
    }
}
