//! The listings of whole tables, as values: those of records asked for whole, and each handed to a judge row by row.

ghost use Rattle.std.specs.Prelude.{◌≡◌, [], Err, IfOk, OnErr, OnOk};
ghost use Rattle.sqlite.specs.Held.{state};
ghost use Rattle.sqlite.specs.State.{HasCleanDisk};
ghost use Rattle.pw_schema.specs.Calls.{Looks};
ghost use Rattle.pw_schema.specs.inner.Calls.{Asks, HasOurTables};
ghost use Rattle.pw_store.specs.inner.Listings.{ShowsAll, kept_as, text_of};
ghost use Rattle.pw_store.specs.inner.Scanning.{HasRefused, HasTaken, IsOther};

use crate::fault::OpenFault;
use crate::scan::judge_each;
use pw_schema::{Judge, RecordKind, TotalKind};
use sqlite::{Alter, Connection, Error, Row};

// What is kept of counting records, each in a table of its own.
#[derive(Clone, Copy)]
pub(crate) enum KeptKind {
    Points,
    Starts,
}

impl KeptKind {
    // The kind of records as which it is kept.
    pub(crate) fn kind(self) -> RecordKind
        ensures { result ≡ kept_as self }
    {
        match self {
            KeptKind::Points => RecordKind::Readings,
            KeptKind::Starts => RecordKind::Assignments,
        }
    }
}

// A listing of a whole table: of its rows in the order of their keys, or of their rowids alone. Old totals are those by band
// alone, of which version 3 has none.
#[derive(Clone, Copy)]
pub(crate) enum Listing {
    Records(RecordKind),
    Kept(KeptKind),
    Totals(TotalKind),
    KeptRowids(KeptKind),
    EnergyRowids,
    OldTotals,
}

impl Listing {
    // The text that asks for it.
    pub(crate) fn text(self) -> &'static str
        ensures { result.now ≡ text_of self }
    {
        match self {
            Listing::Records(RecordKind::Readings) => {
                "SELECT meter, register, instant, wh FROM record_reading ORDER BY meter, register, instant, wh"
            }
            Listing::Records(RecordKind::Assignments) => {
                "SELECT meter, start, owner FROM record_assignment ORDER BY meter, start, owner"
            }
            Listing::Records(RecordKind::TopUps) => {
                "SELECT reference, account, cents, instant FROM record_topup ORDER BY reference, account, cents, instant"
            }
            Listing::Records(RecordKind::WithdrawnReadings) => {
                "SELECT meter, register, instant, wh FROM withdrawn_reading ORDER BY meter, register, instant, wh"
            }
            Listing::Records(RecordKind::WithdrawnAssignments) => {
                "SELECT meter, start, owner FROM withdrawn_assignment ORDER BY meter, start, owner"
            }
            Listing::Records(RecordKind::WithdrawnTopUps) => {
                "SELECT reference, account, cents, instant FROM withdrawn_topup ORDER BY reference, account, cents, instant"
            }
            Listing::Kept(KeptKind::Points) => {
                "SELECT meter, register, instant, wh FROM point ORDER BY meter, register, instant"
            }
            Listing::Kept(KeptKind::Starts) => {
                "SELECT meter, start, owner FROM start ORDER BY meter, start"
            }
            Listing::Totals(TotalKind::Energies) => {
                "SELECT owner, period, band, direction, wh FROM period_total ORDER BY owner, period, band, direction"
            }
            Listing::Totals(TotalKind::Payments) => {
                "SELECT account, cents FROM total_topup ORDER BY account"
            }
            Listing::KeptRowids(KeptKind::Points) => "SELECT rowid FROM point ORDER BY rowid",
            Listing::KeptRowids(KeptKind::Starts) => "SELECT rowid FROM start ORDER BY rowid",
            Listing::EnergyRowids => "SELECT rowid FROM period_total ORDER BY rowid",
            Listing::OldTotals => "SELECT rowid FROM total ORDER BY rowid",
        }
    }
}

// The rows of all records of a kind, in order.
pub(crate) fn record_rows<S: Alter>(
    conn: &mut Connection<S>,
    kind: RecordKind,
) -> Result<Vec<Row>, Error>
    requires ours { HasOurTables (state S.Store conn.old) }
    ensures rows { HasCleanDisk (state S.Store conn.new)
        → IfOk result (λ rows. ShowsAll (Listing.Records kind) (state S.Store conn.old).now.trees
        rows.items) }
    ensures asks { Asks result (state S.Store conn.old) (state S.Store conn.new) }
{
    conn.query_all(Listing::Records(kind).text(), &[])
}

// Hands each row of a listing to a judge, up to the first that it refuses, and answers how many they were.
pub(crate) fn judge_listing<S: Alter, J: Judge>(
    conn: &mut Connection<S>,
    listing: Listing,
    judge: &mut J,
) -> Result<usize, OpenFault>
    requires ours { HasOurTables (state S.Store conn.old) }
    requires start { J.took judge.old [] judge.old }
    ensures took { OnOk result (HasTaken J.took
        (λ rows. HasCleanDisk (state S.Store conn.new)
        → ShowsAll listing (state S.Store conn.old).now.trees rows) judge.old judge.new) }
    ensures refused { HasCleanDisk (state S.Store conn.new) → result ≡ Err OpenFault.Unclean
        → HasRefused J.refuses (ShowsAll listing (state S.Store conn.old).now.trees) judge.old }
    ensures others { OnErr result (IsOther result) }
    ensures looks { Looks result (state S.Store conn.old) (state S.Store conn.new) }
{
    judge_each(conn, listing.text(), judge)
}
