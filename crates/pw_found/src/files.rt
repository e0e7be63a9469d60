//! A store's file and its log, looked at before anything is written.

ghost use Rattle.std.specs.Prelude.{◌≡◌, ◌↔◌, length, slice_index, IsTrue, IfOk, IfErr};
ghost use Rattle.sqlite_wal.specs.Files.{seen_image};
ghost use Rattle.sqlite_wal.specs.Reads.{AreClean, IsClean, OnlyReads};
ghost use Rattle.sqlite_pool.specs.Opening.{IsBlankFile};
ghost use Rattle.sqlite_pool.specs.Stored.{used_size};
ghost use Rattle.pw_found.specs.Files.{IsCut, IsLogAlone, IsNoDatabase, IsNothing};
ghost use Rattle.pw_found.specs.Verdicts.{IsOfLooking};

use crate::cause::{refusal_of_file, refusal_of_log};
use crate::verdict::Refusal;
use sqlite_disk::{Disk, Files};
use sqlite_pool::probe_blank;
use sqlite_wal::{Error, PageSize};
use std::alloc::Global;
use std::io;

/// A log of so many bytes has no commit.
pub const LONGEST_EMPTY_LOG: usize = 41;

// The size of a new store's pages, in bytes.
const PAGE: usize = 4_096;

/// What the two files are to an opening.
#[derive(Clone, Copy, Debug, PartialEq, Eq)]
pub enum Found {
    /// No store was made yet, or the first opening was stopped before its first page was there.
    Nothing,
    /// No database, beside a log that may have uploads.
    LogAlone,
    /// One byte, which is left of a database.
    Cut,
    /// A file that is judged as a database.
    File,
}

/// Tells what the two files are. Nothing is written.
pub fn look<D: Disk>(alloc: Global, files: &mut Files<D>) -> Result<Found, Refusal>
    requires log { IsTrue (D.Disk.is_usable files.old.log) }
    requires db { IsTrue (D.Disk.is_usable files.old.db) }
    ensures nothing { IfOk result (λ found. AreClean D.Disk files.new.log files.new.db
        → found ≡ Found.Nothing → IsNothing (seen_image D.Disk files.old.log files.old.db)) }
    ensures alone { IfOk result (λ found. AreClean D.Disk files.new.log files.new.db
        → found ≡ Found.LogAlone → IsLogAlone (seen_image D.Disk files.old.log files.old.db)) }
    ensures cut { IfOk result (λ found. AreClean D.Disk files.new.log files.new.db
        → found ≡ Found.Cut → IsCut (seen_image D.Disk files.old.log files.old.db)) }
    ensures file { IfOk result (λ found. AreClean D.Disk files.new.log files.new.db
        → found ≡ Found.File → ¬ IsNoDatabase (seen_image D.Disk files.old.log files.old.db)) }
    ensures cause { IfErr result IsOfLooking }
    ensures log { OnlyReads D.Disk files.old.log files.new.log }
    ensures db { OnlyReads D.Disk files.old.db files.new.db }
{
    if !is_no_database(alloc, files).map_err(refusal_of_log)? {
        return Ok(Found::File);
    }
    if files.log.len().map_err(refusal_of_file)? > LONGEST_EMPTY_LOG {
        return Ok(Found::LogAlone);
    }
    if is_cut(&mut files.db).map_err(refusal_of_file)? {
        return Ok(Found::Cut);
    }
    Ok(Found::Nothing)
}

// Whether no database is there yet.
fn is_no_database<D: Disk>(alloc: Global, files: &mut Files<D>) -> Result<bool, Error>
    requires log { IsTrue (D.Disk.is_usable files.old.log) }
    requires db { IsTrue (D.Disk.is_usable files.old.db) }
    ensures ok { IfOk result (λ found. AreClean D.Disk files.new.log files.new.db
        → (IsTrue found ↔ IsNoDatabase (seen_image D.Disk files.old.log files.old.db))) }
    ensures log { OnlyReads D.Disk files.old.log files.new.log }
    ensures db { OnlyReads D.Disk files.old.db files.new.db }
{
    Ok(is_blank(alloc, files, false)? || is_blank(alloc, files, true)?)
}

// Whether no database is there yet whose pages have sums, or have none.
fn is_blank<D: Disk>(alloc: Global, files: &mut Files<D>, has_sums: bool) -> Result<bool, Error>
    requires log { IsTrue (D.Disk.is_usable files.old.log) }
    requires db { IsTrue (D.Disk.is_usable files.old.db) }
    ensures ok { IfOk result (λ found. AreClean D.Disk files.new.log files.new.db
        → (IsTrue found ↔ IsBlankFile (used_size 4096 has_sums)
        (seen_image D.Disk files.old.log files.old.db))) }
    ensures log { OnlyReads D.Disk files.old.log files.new.log }
    ensures db { OnlyReads D.Disk files.old.db files.new.db }
{
    let page = PageSize::new(PAGE).unwrap();
    probe_blank(alloc, files, page, has_sums)
}

// Whether the file has one byte, the letter with which SQLite's begin.
fn is_cut<D: Disk>(db: &mut D) -> io::Result<bool>
    requires { IsTrue (D.Disk.is_usable db.old) }
    ensures ok { IfOk result (λ cut. IsClean D.Disk db.new
        → (IsTrue cut ↔ ((length (D.Disk.seen db.old) ≡ 1)
        × (slice_index (D.Disk.seen db.old) 0 ≡ 83)))) }
    ensures same { OnlyReads D.Disk db.old db.new }
{
    if db.len()? != 1 {
        return Ok(false);
    }
    let mut byte = [0];
    db.read_at(0, &mut byte)?;
    Ok(byte[0] == b'S')
}
