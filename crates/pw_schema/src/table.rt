//! The tables of a store, as values.

ghost use Rattle.std.specs.Prelude.{◌≡◌, ◌<◌, map};
ghost use Rattle.pw_schema.specs.Tables.{schema_of};
ghost use Rattle.pw_schema.specs.inner.Stages.{index_at, stored, text_of, tree_of};

use crate::kind::StoreVersion;

// The tables of stores of all versions; the text that makes each, its name, its tree and its key are told from here.
#[derive(Clone, Copy, Debug, PartialEq, Eq)]
pub(crate) enum StoreTable {
    Office,
    Readings,
    Assignments,
    TopUps,
    Points,
    Starts,
    Totals,
    TotalTopUps,
    WithdrawnReadings,
    WithdrawnAssignments,
    WithdrawnTopUps,
    PeriodTotals,
}

impl StoreTable {
    // The tables in the order in which they are made.
    pub(crate) const ALL: [StoreTable; 12] = [
        StoreTable::Office,
        StoreTable::Readings,
        StoreTable::Assignments,
        StoreTable::TopUps,
        StoreTable::Points,
        StoreTable::Starts,
        StoreTable::Totals,
        StoreTable::TotalTopUps,
        StoreTable::WithdrawnReadings,
        StoreTable::WithdrawnAssignments,
        StoreTable::WithdrawnTopUps,
        StoreTable::PeriodTotals,
    ];

    // Those whose key has an index: the others' keys are rowids.
    pub(crate) const INDEXED: [StoreTable; 10] = [
        StoreTable::Readings,
        StoreTable::Assignments,
        StoreTable::TopUps,
        StoreTable::Points,
        StoreTable::Starts,
        StoreTable::Totals,
        StoreTable::WithdrawnReadings,
        StoreTable::WithdrawnAssignments,
        StoreTable::WithdrawnTopUps,
        StoreTable::PeriodTotals,
    ];

    // The tables of a version, and those of them whose key has an index.
    pub(crate) fn of(version: StoreVersion) -> (&'static [StoreTable], &'static [StoreTable])
        ensures tables { map stored result.0.now ≡ (schema_of version).tables }
        ensures indexes { map index_at result.1.now ≡ (schema_of version).indexes }
    {
        match version {
            StoreVersion::First => (&StoreTable::ALL[..8], &StoreTable::INDEXED[..6]),
            StoreVersion::Second => (&StoreTable::ALL[..11], &StoreTable::INDEXED[..9]),
            StoreVersion::Third => (StoreTable::ALL.as_slice(), StoreTable::INDEXED.as_slice()),
        }
    }

    // The text that makes the table.
    pub(crate) fn text(self) -> &'static str
        ensures { result.now ≡ text_of self }
    {
        match self {
            StoreTable::Office => {
                "CREATE TABLE office (id INTEGER PRIMARY KEY CHECK (id = 1), version INTEGER NOT NULL, body BLOB NOT NULL) STRICT"
            }
            StoreTable::Readings => {
                "CREATE TABLE record_reading (meter INTEGER NOT NULL, register INTEGER NOT NULL, instant INTEGER NOT NULL, wh INTEGER NOT NULL, PRIMARY KEY (meter, register, instant, wh)) STRICT"
            }
            StoreTable::Assignments => {
                "CREATE TABLE record_assignment (meter INTEGER NOT NULL, start INTEGER NOT NULL, owner INTEGER NOT NULL, PRIMARY KEY (meter, start, owner)) STRICT"
            }
            StoreTable::TopUps => {
                "CREATE TABLE record_topup (reference TEXT NOT NULL, account INTEGER NOT NULL, cents INTEGER NOT NULL, instant INTEGER NOT NULL, PRIMARY KEY (reference, account, cents, instant)) STRICT"
            }
            StoreTable::Points => {
                "CREATE TABLE point (meter INTEGER NOT NULL, register INTEGER NOT NULL, instant INTEGER NOT NULL, wh INTEGER NOT NULL, PRIMARY KEY (meter, register, instant)) STRICT"
            }
            StoreTable::Starts => {
                "CREATE TABLE start (meter INTEGER NOT NULL, start INTEGER NOT NULL, owner INTEGER NOT NULL, PRIMARY KEY (meter, start)) STRICT"
            }
            StoreTable::Totals => {
                "CREATE TABLE total (owner INTEGER NOT NULL, band INTEGER NOT NULL, direction INTEGER NOT NULL, wh INTEGER NOT NULL, PRIMARY KEY (owner, band, direction)) STRICT"
            }
            StoreTable::TotalTopUps => {
                "CREATE TABLE total_topup (account INTEGER PRIMARY KEY, cents INTEGER NOT NULL) STRICT"
            }
            StoreTable::WithdrawnReadings => {
                "CREATE TABLE withdrawn_reading (meter INTEGER NOT NULL, register INTEGER NOT NULL, instant INTEGER NOT NULL, wh INTEGER NOT NULL, PRIMARY KEY (meter, register, instant, wh)) STRICT"
            }
            StoreTable::WithdrawnAssignments => {
                "CREATE TABLE withdrawn_assignment (meter INTEGER NOT NULL, start INTEGER NOT NULL, owner INTEGER NOT NULL, PRIMARY KEY (meter, start, owner)) STRICT"
            }
            StoreTable::WithdrawnTopUps => {
                "CREATE TABLE withdrawn_topup (reference TEXT NOT NULL, account INTEGER NOT NULL, cents INTEGER NOT NULL, instant INTEGER NOT NULL, PRIMARY KEY (reference, account, cents, instant)) STRICT"
            }
            StoreTable::PeriodTotals => {
                "CREATE TABLE period_total (owner INTEGER NOT NULL, period INTEGER NOT NULL, band INTEGER NOT NULL, direction INTEGER NOT NULL, wh INTEGER NOT NULL, PRIMARY KEY (owner, period, band, direction)) STRICT"
            }
        }
    }

    // The name that the file lists it by.
    pub(crate) fn name(self) -> &'static [u8]
        ensures { result.now ≡ (stored self).name }
    {
        match self {
            StoreTable::Office => b"office".as_slice(),
            StoreTable::Readings => b"record_reading".as_slice(),
            StoreTable::Assignments => b"record_assignment".as_slice(),
            StoreTable::TopUps => b"record_topup".as_slice(),
            StoreTable::Points => b"point".as_slice(),
            StoreTable::Starts => b"start".as_slice(),
            StoreTable::Totals => b"total".as_slice(),
            StoreTable::TotalTopUps => b"total_topup".as_slice(),
            StoreTable::WithdrawnReadings => b"withdrawn_reading".as_slice(),
            StoreTable::WithdrawnAssignments => b"withdrawn_assignment".as_slice(),
            StoreTable::WithdrawnTopUps => b"withdrawn_topup".as_slice(),
            StoreTable::PeriodTotals => b"period_total".as_slice(),
        }
    }

    // The tree at which the table stands in a store.
    pub(crate) fn tree(self) -> u32
        ensures is { result ≡ tree_of self }
        ensures low { result < 100 }
    {
        match self {
            StoreTable::Office => 0,
            StoreTable::Readings => 1,
            StoreTable::Assignments => 3,
            StoreTable::TopUps => 5,
            StoreTable::Points => 7,
            StoreTable::Starts => 9,
            StoreTable::Totals => 11,
            StoreTable::TotalTopUps => 13,
            StoreTable::WithdrawnReadings => 14,
            StoreTable::WithdrawnAssignments => 16,
            StoreTable::WithdrawnTopUps => 18,
            StoreTable::PeriodTotals => 20,
        }
    }

    // The places of the columns that are the table's key: 0 is the rowid.
    pub(crate) fn key(self) -> &'static [usize]
        ensures { result.now ≡ (stored self).primary }
    {
        match self {
            StoreTable::Office | StoreTable::TotalTopUps => [0].as_slice(),
            StoreTable::Starts => [1, 2].as_slice(),
            StoreTable::Assignments
            | StoreTable::Points
            | StoreTable::Totals
            | StoreTable::WithdrawnAssignments => [1, 2, 3].as_slice(),
            StoreTable::Readings
            | StoreTable::TopUps
            | StoreTable::WithdrawnReadings
            | StoreTable::WithdrawnTopUps
            | StoreTable::PeriodTotals => [1, 2, 3, 4].as_slice(),
        }
    }
}
