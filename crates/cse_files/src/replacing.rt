//! A file that is written whole, or stays as it was.

ghost use Rattle.std.specs.Prelude.{◌≡◌, IfOk, IfSome};

use crate::fault::WriteFault;
use crate::opened::sync;
use cse_value::{Output, Writes, write_all};
use std::fs;
use std::fs::{File, Metadata, OpenFile, OpenOptions};
use std::io::{ErrorKind, Write};
use std::os::unix::fs::{MetadataExt, chown};
use std::rt::Files;

/// How many names are tried for the file beside an old one.
const NAMES: u8 = 9;

/// A file that was written whole, and its path.
pub struct Replaced<'a, F> {
    path: &'a str,
    /// What it took.
    device: Writes<F>,
}

// Written out, so that a crate that owns a file calls this drop and does not prove one for each part.
impl<'a, F: Drop> Drop for Replaced<'a, F> {
    fn drop(self) {
        let Replaced {
            path: _path,
            device: _device,
        } = self;
    }
}

/// Makes these the bytes of the file at a path. After a fault a file that was there is as it was. Nothing else makes a
/// `Replaced`.
///
/// The bytes go to a new file beside it (the path, `.csbatch-`, and a number from 1), which gets the owner and the
/// rights of the old one, is synced, and takes its name. A link stays a link: the file that it leads to is replaced.
/// What is no regular file, has several names, or lies where no such file can be made or can take its name, is
/// written over as it stands; there a fault leaves a front of the bytes.
pub fn replace<'a, R: Files + AllocGlobal>(
    rt: &R,
    path: &'a str,
    bytes: &[u8],
) -> Result<Replaced<'a, R::File>, WriteFault>
    ensures path { IfOk result (λ f. f.path.now ≡ path.now) }
    ensures taken { IfOk result (λ f. ⟦<Writes<R::File> as Output>⟧.taken f.device ≡ bytes.now) }
{
    let device = replace_named(rt, path, bytes)?;
    Ok(Replaced { path, device })
}

/// The file that took the bytes.
fn replace_named<R: Files + AllocGlobal>(
    rt: &R,
    path: &str,
    bytes: &[u8],
) -> Result<Writes<R::File>, WriteFault>
    ensures { IfOk result (λ d. ⟦<Writes<R::File> as Output>⟧.taken d ≡ bytes.now) }
{
    match fs::symlink_metadata(rt, path) {
        Ok(found) if found.is_symlink() => replace_behind(rt, path, bytes),
        Ok(found) => replace_file(rt, path, &found, bytes),
        Err(error) if error.kind() == ErrorKind::NotFound => replace_by(rt, path, None, bytes),
        Err(_) => write_over(rt, path, bytes),
    }
}

/// The same for the file that a link leads to.
fn replace_behind<R: Files + AllocGlobal>(
    rt: &R,
    link: &str,
    bytes: &[u8],
) -> Result<Writes<R::File>, WriteFault>
    ensures { IfOk result (λ d. ⟦<Writes<R::File> as Output>⟧.taken d ≡ bytes.now) }
{
    let Ok(path) = fs::canonicalize(rt, link) else {
        return write_over(rt, link, bytes);
    };
    let path = path.as_path().as_str();
    match fs::symlink_metadata(rt, path) {
        Ok(found) => replace_file(rt, path, &found, bytes),
        Err(_) => write_over(rt, link, bytes),
    }
}

/// The same for what stands at a path. What may not be written is not replaced.
fn replace_file<R: Files + AllocGlobal>(
    rt: &R,
    path: &str,
    old: &Metadata,
    bytes: &[u8],
) -> Result<Writes<R::File>, WriteFault>
    ensures { IfOk result (λ d. ⟦<Writes<R::File> as Output>⟧.taken d ≡ bytes.now) }
{
    if !old.is_file() || old.nlink() > 1 {
        return write_over(rt, path, bytes);
    }
    match OpenOptions::new().write(true).open(rt, path) {
        Ok(_) => replace_by(rt, path, Some(old), bytes),
        Err(error) => Err(WriteFault::of_open(error.kind())),
    }
}

/// Writes a file beside the path that takes its name, or, where there can be none, writes over the path.
fn replace_by<R: Files + AllocGlobal>(
    rt: &R,
    path: &str,
    old: Option<&Metadata>,
    bytes: &[u8],
) -> Result<Writes<R::File>, WriteFault>
    ensures { IfOk result (λ d. ⟦<Writes<R::File> as Output>⟧.taken d ≡ bytes.now) }
{
    match put_beside(rt, path, old, bytes)? {
        Some(written) => Ok(written),
        None => write_over(rt, path, bytes),
    }
}

/// Writes a new file beside the path, which takes its name. None where none can be made or can take the name; then
/// nothing is left of it, as after a fault.
fn put_beside<R: Files + AllocGlobal>(
    rt: &R,
    path: &str,
    old: Option<&Metadata>,
    bytes: &[u8],
) -> Result<Option<Writes<R::File>>, WriteFault>
    ensures { IfOk result (λ put. IfSome put (λ d. ⟦<Writes<R::File> as Output>⟧.taken d ≡ bytes.now)) }
{
    for number in 1..=NAMES {
        let name = format!(in rt.alloc(); "{path}.csbatch-{number}")?;
        match File::create_new(rt, name.as_str()) {
            Ok(file) => return put_new(rt, file, name.as_str(), path, old, bytes),
            Err(error) if error.kind() == ErrorKind::AlreadyExists => {}
            Err(_) => return Ok(None),
        }
    }
    Ok(None)
}

/// Writes a new file, and gives it the path's name. It is removed where that fails.
fn put_new<R: Files>(
    rt: &R,
    file: R::File,
    name: &str,
    path: &str,
    old: Option<&Metadata>,
    bytes: &[u8],
) -> Result<Option<Writes<R::File>>, WriteFault>
    ensures { IfOk result (λ put. IfSome put (λ d. ⟦<Writes<R::File> as Output>⟧.taken d ≡ bytes.now)) }
{
    let filled = fill(rt, file, name, old, bytes);
    if let Ok(Some(_)) = &filled
        && fs::rename(rt, name, path).is_ok()
    {
        return filled;
    }
    let _ = fs::remove_file(rt, name);
    match filled {
        Ok(_) => Ok(None),
        Err(fault) => Err(fault),
    }
}

/// Writes these bytes to a new file, and syncs it. None where it can't be as an old one.
fn fill<R: Files>(
    rt: &R,
    file: R::File,
    name: &str,
    old: Option<&Metadata>,
    bytes: &[u8],
) -> Result<Option<Writes<R::File>>, WriteFault>
    ensures { IfOk result (λ put. IfSome put (λ d. ⟦<Writes<R::File> as Output>⟧.taken d ≡ bytes.now)) }
{
    if let Some(old) = old
        && !takes_after(rt, &file, name, old)
    {
        return Ok(None);
    }
    Ok(Some(write_and_sync(file, bytes)?))
}

/// Whether a new file has the owner and the rights of an old one, or takes them.
fn takes_after<R: Files>(rt: &R, file: &R::File, name: &str, old: &Metadata) -> bool {
    let Ok(new) = file.metadata() else {
        return false;
    };
    let is_owned = new.uid() == old.uid() && new.gid() == old.gid();
    if !is_owned && chown(rt, name, Some(old.uid()), Some(old.gid())).is_err() {
        return false;
    }
    (is_owned && new.mode() == old.mode()) || file.set_permissions(old.permissions()).is_ok()
}

/// Writes these bytes to the file at a path, from its beginning.
fn write_over<R: Files>(rt: &R, path: &str, bytes: &[u8]) -> Result<Writes<R::File>, WriteFault>
    ensures { IfOk result (λ d. ⟦<Writes<R::File> as Output>⟧.taken d ≡ bytes.now) }
{
    match fs::create(rt, path) {
        Ok(file) => write_and_sync(file, bytes),
        Err(error) => Err(WriteFault::of_open(error.kind())),
    }
}

/// Writes bytes, and sees that the disk has them.
fn write_and_sync<F: OpenFile + Write + Drop>(
    file: F,
    bytes: &[u8],
) -> Result<Writes<F>, WriteFault>
    ensures { IfOk result (λ d. ⟦<Writes<F> as Output>⟧.taken d ≡ bytes.now) }
{
    let same = match file.try_clone() {
        Ok(same) => same,
        Err(error) => return Err(WriteFault::of_open(error.kind())),
    };
    let mut written = Writes::new(file);
    match write_all(&mut written, bytes) {
        Ok(()) => {}
        Err(_) => return Err(WriteFault::NotWritten),
    }
    sync(&same)?;
    Ok(written)
}
