//! Files that were opened, each with the path that it was opened by.

ghost use Rattle.std.specs.Prelude.{◌≡◌, ◌≢◌, false, IfErr, IfOk, [], None, Ok};
ghost use Rattle.cse_value.specs.Sound.{are_given};
ghost use Rattle.cse_files.specs.declared.fault.WriteFault.TheVariants.{NotOpened};

use crate::fault::WriteFault;
use cse_value::{Input, Output, Reads, Writes};
use std::fs::OpenFile;
use std::rt::Files;
use std::{fs, io};

/// A file that is read, and its path.
pub struct OpenedInput<'a, F> {
    path: &'a str,
    /// What it gave.
    pub device: Reads<F>,
}

// Written out, so that a crate that owns a file calls this drop and does not prove one for each part.
impl<'a, F: Drop> Drop for OpenedInput<'a, F> {
    fn drop(self) {
        let OpenedInput {
            path: _path,
            device: _device,
        } = self;
    }
}

/// Opens a file to read it. Nothing else makes an `OpenedInput`.
pub fn open_input<'a, R: Files>(rt: &R, path: &'a str) -> io::Result<OpenedInput<'a, R::File>>
    ensures path { IfOk result (λ f. f.path.now ≡ path.now) }
    ensures given { IfOk result (λ f. ⟦<Reads<R::File> as Input>⟧.given f.device ≡ are_given [] false 0) }
{
    let file = fs::open(rt, path)?;
    let device = Reads::new(file);
    Ok(OpenedInput { path, device })
}

/// A file that is written, and its path.
pub struct OpenedOutput<'a, F> {
    path: &'a str,
    /// What it took.
    pub device: Writes<F>,
    /// The same open file, where it is to be synced.
    same: Option<F>,
}

// Written out, so that a crate that owns a file calls this drop and does not prove one for each part.
impl<'a, F: Drop> Drop for OpenedOutput<'a, F> {
    fn drop(self) {
        let OpenedOutput {
            path: _path,
            device: _device,
            same: _same,
        } = self;
    }
}

/// Opens a file to write it from its beginning. Nothing else makes an `OpenedOutput`. It can be synced only if that is asked.
pub fn create_output<'a, R: Files>(
    rt: &R,
    path: &'a str,
    sync: bool,
) -> io::Result<OpenedOutput<'a, R::File>>
    ensures path { IfOk result (λ f. f.path.now ≡ path.now) }
    ensures taken { IfOk result (λ f. ⟦<Writes<R::File> as Output>⟧.taken f.device ≡ []) }
    ensures sound { IfOk result (λ f. ⟦<Writes<R::File> as Output>⟧.has_failed f.device ≡ false) }
    ensures unsynced { sync ≡ false → IfOk result (λ f. f.same ≡ None) }
{
    let file = fs::create(rt, path)?;
    let same = if sync { Some(file.try_clone()?) } else { None };
    let device = Writes::new(file);
    Ok(OpenedOutput { path, device, same })
}

impl<'a, F: io::Write + OpenFile> OpenedOutput<'a, F> {
    /// Sees that the disk has what it took, where that was asked.
    pub fn sync(&self) -> Result<(), WriteFault>
        ensures unsynced { self.now.same ≡ None → result ≡ Ok tt }
        ensures unkept { IfErr result (λ fault. fault ≢ NotOpened) }
    {
        match &self.same {
            Some(file) => sync(file),
            None => Ok(()),
        }
    }
}

/// Sees that the disk has what a regular file took, so that what a disk or a quota refuses late is told. What is no
/// regular file has no such answer.
pub(crate) fn sync<F: OpenFile>(file: &F) -> Result<(), WriteFault>
    ensures { IfErr result (λ fault. fault ≢ NotOpened) }
{
    match file.metadata() {
        Ok(found) if found.is_file() => {}
        _ => return Ok(()),
    }
    match file.sync_all() {
        Ok(()) => Ok(()),
        Err(error) => Err(WriteFault::of_write(error.kind())),
    }
}
