//! Why a store can't be opened, in words.

ghost use Rattle.std.specs.Prelude.{◌≡◌};
ghost use Rattle.pw_found.specs.Verdicts.{IsOfLooking};
ghost use Rattle.sqlite_wal.specs.declared.error.Error.TheVariants as log;

use crate::verdict::Refusal;
use sqlite_std_file::OpenError;
use sqlite_wal::Error;
use std::fmt;
use std::io::{self, ErrorKind};

/// Why a store can't be opened.
#[derive(Clone, Copy, Debug, PartialEq, Eq)]
pub enum Cause {
    /// Another process has it open.
    InUse,
    /// A file of it, or its folder, may not be written.
    NotWritable,
    /// SQLite left a rollback journal, or something else has the journal's name.
    Journal,
    /// What stands at the path is no file with one name, or there is no folder for it.
    NoFile,
    /// The file is gone or empty, and the log beside it may hold uploads.
    LogAlone,
    /// The file isn't read as a database.
    NoDatabase,
    /// The file is a database, but not a sound one.
    Damaged,
    /// A call of the system failed for another cause.
    Disk,
}

/// Which cause it is, and what to do, in a line without its end.
impl fmt::Display for Cause {
    ghost use Rattle.std.specs.Prelude.{Some};
    ghost use Rattle.pw_found.specs.Causes.{cause_text};

    ghost output = { λ cause. Some (cause_text cause) };

    fn fmt<W: fmt::Write>(&self, f: &mut fmt::Formatter<W>) -> fmt::Result {
        f.write_str(match *self {
            Cause::InUse =>
                "powerbook: the store is in use: ask the server that has it open, or stop it",
            Cause::NotWritable =>
                "powerbook: the store may not be written: see to the rights on its file, on the -wal file beside it and on their folder",
            Cause::Journal =>
                "powerbook: another program left a journal beside the store: open the store with sqlite3 first",
            Cause::NoFile =>
                "powerbook: no store can be at this path: its folder isn't there, or something else than a file with one name is",
            Cause::LogAlone =>
                "powerbook: the store's file is gone or empty, and the -wal file beside it may hold uploads: put the file back, or move both away",
            Cause::NoDatabase =>
                "powerbook: the store is no SQLite database, or is damaged: look at the path, else take the latest copy",
            Cause::Damaged =>
                "powerbook: the store is damaged: take the latest copy, or load a new store from the uploads",
            Cause::Disk => "powerbook: the store can't be read or written: look at the disk",
        })
    }
}

// Why the system doesn't open a file.
fn cause_of(kind: ErrorKind) -> Cause {
    match kind {
        ErrorKind::PermissionDenied | ErrorKind::ReadOnlyFilesystem => Cause::NotWritable,
        ErrorKind::NotFound
        | ErrorKind::NotADirectory
        | ErrorKind::IsADirectory
        | ErrorKind::FilesystemLoop
        | ErrorKind::InvalidFilename
        | ErrorKind::InvalidInput
        | ErrorKind::Unsupported => Cause::NoFile,
        _ => Cause::Disk,
    }
}

// What a file that isn't opened is to a command.
pub(crate) fn refusal_of(error: OpenError) -> Refusal
    ensures memory { error ≡ OpenError.OutOfMemory → result ≡ Refusal.Memory }
    ensures in_use { error ≡ OpenError.Busy → result ≡ Refusal.Unopened Cause.InUse }
    ensures journal { error ≡ OpenError.HotJournal → result ≡ Refusal.Unopened Cause.Journal }
{
    match error {
        OpenError::OutOfMemory => Refusal::Memory,
        OpenError::Busy => Refusal::Unopened(Cause::InUse),
        OpenError::HotJournal => Refusal::Unopened(Cause::Journal),
        OpenError::Io(error) if error.kind() == ErrorKind::OutOfMemory => Refusal::Memory,
        OpenError::Io(error) => Refusal::Unopened(cause_of(error.kind())),
    }
}

// What a log that can't be read is to a command.
pub(crate) fn refusal_of_log(error: Error) -> Refusal
    ensures cause { IsOfLooking result }
    ensures memory { error ≡ log.OutOfMemory → result ≡ Refusal.Memory }
{
    match error {
        Error::OutOfMemory => Refusal::Memory,
        _ => Refusal::Unopened(Cause::Disk),
    }
}

// What a file whose size or bytes can't be told is to a command.
pub(crate) fn refusal_of_file(_: io::Error) -> Refusal
    ensures { IsOfLooking result }
{
    Refusal::Unopened(Cause::Disk)
}
