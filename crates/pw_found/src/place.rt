//! Where a store's two files lie.

ghost use Rattle.std.specs.Prelude.{◌≡◌, IsTrue, IfErr, IfOk};
ghost use Rattle.sqlite_wal.specs.Files.{seen_image};
ghost use Rattle.sqlite_wal.specs.Reads.{AreClean, OnlyReads};
ghost use Rattle.sqlite_std_file.specs.File.{file_is_usable};
ghost use Rattle.pw_found.specs.Files.{IsNoDatabase, NeedsNoLog};

use crate::cause::{Cause, refusal_of};
use crate::files::{Found, LONGEST_EMPTY_LOG, look};
use crate::verdict::{Refusal, found_by_sizes};
use sqlite_disk::{Disk, Files};
use sqlite_std_file::{FileFrom, Start, open};
use std::alloc::Global;
use std::fs;
use std::io::{self, ErrorKind};

/// Where a store's two files lie, and whether a log is there.
#[derive(Drop)]
pub struct Place {
    file: String,
    log: String,
    has_log: bool,
}

impl Place {
    /// The place of the store at a path; where a link stands there, of that to which it leads.
    pub fn at(rt: &HostRuntime, path: &str) -> Result<Place, Refusal>
        ensures { IfErr result (λ refusal. refusal ≡ Refusal.Memory) }
    {
        match place_at(rt, path) {
            Ok(place) => Ok(place),
            Err(_) => Err(Refusal::Memory),
        }
    }

    /// What the files are, by their sizes. Nothing is opened.
    pub fn found(&self, rt: &HostRuntime) -> Found {
        match (
            size_at(rt, self.file.as_str()),
            size_at(rt, self.log.as_str()),
        ) {
            (Some(file), Some(log)) => found_by_sizes(file, log),
            _ => Found::File,
        }
    }

    /// Opens both files, and locks them; those that aren't there are made. A name that SQLite takes for no file isn't
    /// opened.
    pub fn open<S: Start>(&self, rt: &HostRuntime, start: S) -> Result<Files<FileFrom<S>>, Refusal>
        ensures log { IfOk result (λ files. IsTrue (file_is_usable S.Start files.log)) }
        ensures db { IfOk result (λ files. IsTrue (file_is_usable S.Start files.db)) }
    {
        if self.file.as_str() == ":memory:" || self.file.as_str().starts_with("file:") {
            return Err(Refusal::Unopened(Cause::NoFile));
        }
        match open(rt, self.file.as_str(), start) {
            Ok(files) => Ok(files),
            Err(error) => Err(refusal_of(error)),
        }
    }

    /// Closes files whose opening was refused. A log that the opening made is taken away first, while both are locked,
    /// unless it may have a commit, or a first opening goes on with it.
    pub fn leave<D: Disk + Drop>(&self, rt: &HostRuntime, mut files: Files<D>) {
        if !self.has_log && needs_no_log(rt.alloc(), &mut files) {
            let _ = fs::remove_file(rt, self.log.as_str());
        }
    }
}

// The place of the store at a path, unless memory is refused.
fn place_at(rt: &HostRuntime, path: &str) -> io::Result<Place> {
    let file = match fs::canonicalize(rt, path) {
        Ok(real) => format!(in rt.alloc(); "{}", real.as_str())?,
        Err(error) if error.kind() == ErrorKind::OutOfMemory => return Err(error),
        Err(_) => format!(in rt.alloc(); "{path}")?,
    };
    let log = format!(in rt.alloc(); "{}-wal", file.as_str())?;
    let has_log = fs::symlink_metadata(rt, log.as_str()).is_ok();
    Ok(Place { file, log, has_log })
}

// The size of a file in bytes, 0 where none is; `None` where that can't be told, or something else is there.
fn size_at(rt: &HostRuntime, path: &str) -> Option<u64> {
    match fs::metadata(rt, path) {
        Ok(found) if found.is_file() => Some(found.len()),
        Err(error) if error.kind() == ErrorKind::NotFound => Some(0),
        _ => None,
    }
}

/// Whether the log has no commit, and the file needs none: where the log is empty, or the file isn't one that a first
/// opening goes on with.
pub fn needs_no_log<D: Disk>(alloc: Global, files: &mut Files<D>) -> bool
    ensures { IsTrue result → AreClean D.Disk files.new.log files.new.db
        → NeedsNoLog (seen_image D.Disk files.old.log files.old.db) }
{
    if !files.may_be_used() {
        return false;
    }
    match files.log.len() {
        Ok(0) => true,
        Ok(size) if size <= LONGEST_EMPTY_LOG => is_file(alloc, files),
        _ => false,
    }
}

// Whether the file isn't one that is still to be made.
fn is_file<D: Disk>(alloc: Global, files: &mut Files<D>) -> bool
    requires log { IsTrue (D.Disk.is_usable files.old.log) }
    requires db { IsTrue (D.Disk.is_usable files.old.db) }
    ensures file { IsTrue result → AreClean D.Disk files.new.log files.new.db
        → ¬ IsNoDatabase (seen_image D.Disk files.old.log files.old.db) }
    ensures log { OnlyReads D.Disk files.old.log files.new.log }
    ensures db { OnlyReads D.Disk files.old.db files.new.db }
{
    match look(alloc, files) {
        Ok(Found::File) => true,
        _ => false,
    }
}
