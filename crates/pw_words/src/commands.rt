//! The commands of the program.

use pw_record::UploadKind;
use pw_report::{MonthPage, Table};
use pw_time::Clock;

/// Where the uploads of a load stand.
#[derive(Debug, Drop)]
pub enum Source<'a> {
    /// Files of one kind: one or more.
    Files {
        kind: UploadKind<'a>,
        files: Vec<&'a str>,
    },
    /// The files that a list names, with the kind of each.
    List {
        list: &'a str,
    },
}

/// What an account, a meter or a band of an office file is called in another one.
#[derive(Clone, Copy, Debug)]
pub struct Renamed<'a> {
    pub old: &'a str,
    pub new: &'a str,
}

/// Where uploads are loaded: the paths of the office file and of the store, and the most records of its book.
#[derive(Clone, Copy, Debug)]
pub struct Target<'a> {
    pub office: &'a str,
    pub store: &'a str,
    pub limit: u32,
}

/// What is loaded, and where.
#[derive(Debug, Drop)]
pub struct Loading<'a> {
    pub target: Target<'a>,
    pub source: Source<'a>,
}

/// What is to be adopted: the paths of the office file, the store and the new office file, and the names that are spelt
/// otherwise; where it is `dry`, nothing is changed.
#[derive(Debug, Drop)]
pub struct Adoption<'a> {
    pub office: &'a str,
    pub store: &'a str,
    pub new_office: &'a str,
    pub renamed: Vec<Renamed<'a>>,
    pub dry: bool,
}

/// What is to be carried: the paths of the office file, the store, the new office file and the new store.
#[derive(Clone, Copy, Debug)]
pub struct Carriage<'a> {
    pub office: &'a str,
    pub store: &'a str,
    pub new_office: &'a str,
    pub new_store: &'a str,
}

/// What is to be verified: the paths of the office file and of the store, the uploads; and whether records that stand
/// in none of these are told too.
#[derive(Debug, Drop)]
pub struct Verification<'a> {
    pub office: &'a str,
    pub store: &'a str,
    pub source: Source<'a>,
    pub all: bool,
}

/// What is to be exported.
#[derive(Clone, Copy, Debug)]
pub enum Exported<'a> {
    /// A table of the whole book.
    Table(Table),
    /// The readings of the meter with this id.
    MeterReadings(&'a str),
}

/// What the program's words ask for. Files are told by their paths; a limit is 1 to 10,000,000 records.
#[derive(Debug, Drop)]
pub enum Command<'a> {
    /// The frames of a body are printed, with the clock that readouts tell their time by.
    Read {
        clock: Clock,
    },
    /// The size of an office is printed; where it is `verbose`, each period too.
    Check {
        office: &'a str,
        verbose: bool,
    },
    /// Requests are read and replies written; without an office file, of the sample office.
    Pipe {
        office: Option<&'a str>,
        limit: u32,
    },
    /// Uploads are taken into a store.
    Load(Loading<'a>),
    /// The statement of the account with this name is printed.
    Statement {
        office: &'a str,
        store: &'a str,
        account: &'a str,
    },
    /// A page of the account with this name is printed for the month of this text.
    Month {
        what: MonthPage,
        office: &'a str,
        store: &'a str,
        account: &'a str,
        month: &'a str,
    },
    /// A table is printed, or the readings of a meter.
    Export {
        office: &'a str,
        store: &'a str,
        what: Exported<'a>,
    },
    /// Connections to a port of this machine are served: `count` of them, where that is stated, and where
    /// `until_input_ends` says so until standard input ends. Pages of these origins, as their words stand, may ask too; and
    /// each upload that was answered is told, where `tells` says so.
    Serve {
        office: &'a str,
        store: &'a str,
        count: Option<u32>,
        until_input_ends: bool,
        port: u16,
        limit: u32,
        origins: Vec<&'a str>,
        tells: bool,
    },
    /// A store gets another office file in the place of its own, or what would change is told alone.
    Adopt(Adoption<'a>),
    /// All records of a store are taken into a new store of another office file.
    Carry(Carriage<'a>),
    /// Uploads are read again, and those of their records told that a store lacks; or those of the store too that stand
    /// in no upload.
    Verify(Verification<'a>),
}
