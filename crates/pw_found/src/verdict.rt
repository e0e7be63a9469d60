//! What a command may do with what it finds.

ghost use Rattle.std.specs.Prelude.{◌≡◌, IsTrue, OnOk};
ghost use Rattle.sqlite_wal.specs.Files.{seen_image};
ghost use Rattle.sqlite_wal.specs.Reads.{AreClean, OnlyReads};
ghost use Rattle.pw_found.specs.Files.{IsLogAlone};
ghost use Rattle.pw_found.specs.Verdicts.{MayOpen, found_by_sizes as the_found_by_sizes, refused as the_refused};

use crate::cause::Cause;
use crate::files::{Found, LONGEST_EMPTY_LOG, look};
use sqlite_disk::{Disk, Files};
use std::alloc::Global;

/// What a command opens a store for.
#[derive(Clone, Copy, Debug, PartialEq, Eq)]
pub enum Purpose {
    /// To take uploads: where no store is, one is made.
    Take,
    /// To ask: nothing is made.
    Ask,
}

/// Why a command has no store.
#[derive(Clone, Copy, Debug, PartialEq, Eq)]
pub enum Refusal {
    /// No store is there, and the command makes none.
    NoSuchStore,
    /// Memory was refused.
    Memory,
    /// The store can't be opened.
    Unopened(Cause),
}

/// What the files are, by their sizes in bytes: 0 where nothing is.
pub fn found_by_sizes(file: u64, log: u64) -> Found
    ensures { result ≡ the_found_by_sizes file log }
{
    if file > 0 {
        return Found::File;
    }
    if log > LONGEST_EMPTY_LOG as u64 {
        return Found::LogAlone;
    }
    Found::Nothing
}

/// Why a command goes no further with what it found; `None` where it opens it, or makes a store.
pub fn refused(found: Found, purpose: Purpose) -> Option<Refusal>
    ensures { result ≡ the_refused found purpose }
{
    match (found, purpose) {
        (Found::File, _) | (Found::Nothing, Purpose::Take) => None,
        (Found::Nothing, Purpose::Ask) => Some(Refusal::NoSuchStore),
        (Found::LogAlone, _) => Some(Refusal::Unopened(Cause::LogAlone)),
        (Found::Cut, _) => Some(Refusal::Unopened(Cause::Damaged)),
    }
}

/// Looks at both files, and tells why a command may not open them. Nothing is written.
pub fn admit<D: Disk>(alloc: Global, files: &mut Files<D>, purpose: Purpose) -> Result<(), Refusal>
    requires log { IsTrue (D.Disk.is_usable files.old.log) }
    requires db { IsTrue (D.Disk.is_usable files.old.db) }
    ensures kept { OnOk result (AreClean D.Disk files.new.log files.new.db
        → MayOpen purpose (seen_image D.Disk files.old.log files.old.db)) }
    ensures alone { result ≡ Err (Refusal.Unopened Cause.LogAlone)
        → AreClean D.Disk files.new.log files.new.db
        → IsLogAlone (seen_image D.Disk files.old.log files.old.db) }
    ensures log { OnlyReads D.Disk files.old.log files.new.log }
    ensures db { OnlyReads D.Disk files.old.db files.new.db }
{
    match refused(look(alloc, files)?, purpose) {
        None => Ok(()),
        Some(refusal) => Err(refusal),
    }
}
