//! Totals, each statement run by its own text.

ghost use Rattle.std.specs.Prelude.{◌≡◌, ◌<◌, ◌≤◌, ◌^◌, [], ◌∷◌, Some, IfOk, IfSome, IsTrue, OnOk, length};
ghost use Rattle.sqlite.specs.Held.{state};
ghost use Rattle.sqlite.specs.State.{HasCleanDisk, Survives};
ghost use Rattle.sqlite.specs.Values.{bound};
ghost use Rattle.pw_schema.specs.Calls.{CommitStays, IsWithinVersion, LeavesVersion, Writes};
ghost use Rattle.pw_schema.specs.declared.kind.StoreVersion.TheVariants.{Third};
ghost use Rattle.pw_schema.specs.inner.Calls.{Asks, HasOurTables, KeepsLasting};
ghost use Rattle.pw_store.specs.Content.{total_in};
ghost use Rattle.pw_store.specs.inner.Changing.{Fits, IsFree, IsTaken, Makes, PutsEnergy, changed, text_by, total_row};
ghost use Rattle.pw_store.specs.inner.Connections.{HasBegun, HoldsStore};
ghost use Rattle.pw_store.specs.inner.Filling.{TellsMore, is_of_energy};
ghost use Rattle.pw_store.specs.inner.Given.{values_of};
ghost use Rattle.pw_store.specs.inner.Seconds.{first_amount};

use crate::changes::Change;
use crate::given::Given;
use pw_model::TotalKey;
use pw_schema::{direction_place, integer, owner_place, wide};
use sqlite::types::ValueRef;
use sqlite::{Alter, Connection, Error, ErrorCode, Row};

// No column takes it, nor more.
const TOO_WIDE: u64 = 0x8000_0000_0000_0000;

// Takes the row of a total away, if there is one.
pub(crate) fn take_total<S: Alter>(conn: &mut Connection<S>, key: TotalKey) -> Result<usize, Error>
    requires inside { HasBegun (state S.Store conn.old) }
    requires store { HoldsStore (state S.Store conn.old) }
    ensures done { HasCleanDisk (state S.Store conn.new)
        → IfOk result (λ rows. Makes (changed (Change.TakeTotal key) rows)
        (state S.Store conn.old) (state S.Store conn.new)) }
    ensures writes { Writes result (state S.Store conn.old) (state S.Store conn.new) }
{
    let text = text_of(
        &key,
        "DELETE FROM period_total WHERE owner = ?1 AND period = ?2 AND band = ?3 AND direction = ?4",
        "DELETE FROM total_topup WHERE account = ?1",
    );
    conn.execute(text, columns_of(&key, None).values())
}

// Sets a total in its row, if there is one, and tells how many rows there were.
pub(crate) fn set_total<S: Alter>(
    conn: &mut Connection<S>,
    key: TotalKey,
    amount: u64,
) -> Result<usize, Error>
    requires inside { HasBegun (state S.Store conn.old) }
    requires store { HoldsStore (state S.Store conn.old) }
    requires fits { Fits (Change.SetTotal key amount) }
    ensures done { HasCleanDisk (state S.Store conn.new)
        → IfOk result (λ rows. Makes (changed (Change.SetTotal key amount) rows)
        (state S.Store conn.old) (state S.Store conn.new)) }
    ensures taken { HasCleanDisk (state S.Store conn.new)
        → IfOk result (λ rows. IsTaken (Change.SetTotal key amount) rows
        (state S.Store conn.new).now.trees) }
    ensures writes { Writes result (state S.Store conn.old) (state S.Store conn.new) }
{
    let text = text_of(
        &key,
        "UPDATE period_total SET wh = ?5 WHERE owner = ?1 AND period = ?2 AND band = ?3 AND direction = ?4",
        "UPDATE total_topup SET cents = ?2 WHERE account = ?1",
    );
    conn.execute(text, columns_of(&key, Some(amount)).values())
}

// Puts the row of a total where none has its key.
pub(crate) fn put_total<S: Alter>(
    conn: &mut Connection<S>,
    key: TotalKey,
    amount: u64,
) -> Result<usize, Error>
    requires inside { HasBegun (state S.Store conn.old) }
    requires store { HoldsStore (state S.Store conn.old) }
    requires free { HasCleanDisk (state S.Store conn.old)
        → IsFree (Change.PutTotal key amount) (state S.Store conn.old).now.trees }
    requires fits { Fits (Change.PutTotal key amount) }
    ensures done { HasCleanDisk (state S.Store conn.new)
        → IfOk result (λ rows. Makes (changed (Change.PutTotal key amount) rows)
        (state S.Store conn.old) (state S.Store conn.new)) }
    ensures writes { Writes result (state S.Store conn.old) (state S.Store conn.new) }
{
    match key {
        TotalKey::Energy { .. } => put_energy(conn, &key, amount),
        TotalKey::TopUps { .. } => conn.execute(
            "INSERT INTO total_topup (account, cents) VALUES (?1, ?2)",
            columns_of(&key, Some(amount)).values(),
        ),
    }
}

// The rows of the total at a key: one at most.
pub(crate) fn total_rows<S: Alter>(
    conn: &mut Connection<S>,
    key: &TotalKey,
) -> Result<Vec<Row>, Error>
    requires store { HoldsStore (state S.Store conn.old) }
    ensures amount { HasCleanDisk (state S.Store conn.new)
        → IfOk result (λ rows. length rows.items ≤ 1
        → first_amount rows.items ≡ total_in (state S.Store conn.old).now.trees key.now) }
    ensures asks { Asks result (state S.Store conn.old) (state S.Store conn.new) }
{
    let text = text_of(
        key,
        "SELECT wh FROM period_total WHERE owner = ?1 AND period = ?2 AND band = ?3 AND direction = ?4",
        "SELECT cents FROM total_topup WHERE account = ?1",
    );
    conn.query_all(text, columns_of(key, None).values())
}

// The text for a total of energy, or the one for a total of top-ups, by the key.
fn text_of(key: &TotalKey, energy: &'static str, topups: &'static str) -> &'static str
    ensures { result.now ≡ text_by key.now energy.now topups.now }
{
    match key {
        TotalKey::Energy { .. } => energy,
        TotalKey::TopUps { .. } => topups,
    }
}

// What a statement on a total is given: the values of its key's columns, and an amount if there is one.
fn columns_of(key: &TotalKey, amount: Option<u64>) -> Given<'static>
    requires { IfSome amount (λ v. v < 2 ^ 63) }
    ensures values { bound (values_of result) ≡ total_row key.now amount }
    ensures few { result.count ≤ 5 }
{
    let (last, more) = match amount {
        Some(amount) => (wide(amount), 1),
        None => (ValueRef::Null, 0),
    };
    match key {
        TotalKey::Energy {
            owner,
            period,
            band,
            direction,
        } => Given {
            values: [
                integer(owner_place(*owner)),
                integer(u32::from(period.0)),
                integer(u32::from(band.0)),
                integer(direction_place(*direction)),
                last,
            ],
            count: 4 + more,
        },
        TotalKey::TopUps { account } => Given {
            values: [
                integer(u32::from(account.0)),
                last,
                ValueRef::Null,
                ValueRef::Null,
                ValueRef::Null,
            ],
            count: 1 + more,
        },
    }
}

// Puts a row of a total of energy, whatever rows there are.
fn put_energy<S: Alter>(conn: &mut Connection<S>, key: &TotalKey, wh: u64) -> Result<usize, Error>
    requires inside { HasBegun (state S.Store conn.old) }
    requires ours { HasOurTables (state S.Store conn.old) }
    requires energy { IsTrue (is_of_energy key.now) }
    requires fits { wh < 2 ^ 63 }
    ensures put { HasCleanDisk (state S.Store conn.new)
        → OnOk result (PutsEnergy (total_row key.now (Some wh)) (state S.Store conn.old)
        (state S.Store conn.new)) }
    ensures writes { Writes result (state S.Store conn.old) (state S.Store conn.new) }
{
    conn.execute(
        "INSERT INTO period_total (owner, period, band, direction, wh) VALUES (?1, ?2, ?3, ?4, ?5)",
        columns_of(key, Some(wh)).values(),
    )
}

// Puts a total where a store is brought to version 3, if it is one of energy.
pub(crate) fn fill_total<S: Alter>(
    conn: &mut Connection<S>,
    key: &TotalKey,
    amount: u64,
) -> Result<usize, Error>
    requires within { IsWithinVersion Third (state S.Store conn.old) }
    ensures within { LeavesVersion Third result (state S.Store conn.new) }
    ensures lasting { KeepsLasting result (state S.Store conn.old) (state S.Store conn.new) }
    ensures told { HasCleanDisk (state S.Store conn.new)
        → OnOk result (TellsMore ((key.now, amount) ∷ []) (state S.Store conn.old).now.trees
        (state S.Store conn.new).now.trees) }
    ensures kept { CommitStays (state S.Store conn.old) (state S.Store conn.new) }
    ensures crash { Survives (state S.Store conn.old) (state S.Store conn.new) (λ _. ⊥) }
{
    if amount >= TOO_WIDE {
        return Err(Error::SqliteFailure(ErrorCode::TooBig));
    }
    match key {
        TotalKey::Energy { .. } => put_energy(conn, key, amount),
        TotalKey::TopUps { .. } => Ok(0),
    }
}
