//! What is told of a key, by its kind.

ghost use Rattle.std.specs.Prelude.{◌≡◌, ◌≤◌, IfOk, IfSome, cond, map};
ghost use Rattle.sqlite.specs.Held.{state};
ghost use Rattle.sqlite.specs.State.{HasCleanDisk};
ghost use Rattle.sqlite.specs.Values.{bound};
ghost use Rattle.pw_model.specs.Counting.{contents_at};
ghost use Rattle.pw_model.specs.declared.records.Key.TheVariants as key;
ghost use Rattle.pw_model.specs.declared.records.Content.TheVariants as content;
ghost use Rattle.pw_model.specs.declared.records.Contents.TheVariants.{Nothing, One};
ghost use Rattle.pw_schema.specs.Rows.{contents_of, told_content};
ghost use Rattle.pw_schema.specs.inner.Calls.{Asks};
ghost use Rattle.pw_store.specs.Content.{records_of};
ghost use Rattle.pw_store.specs.inner.Connections.{HoldsStore};
ghost use Rattle.pw_store.specs.inner.Given.{values_of};
ghost use Rattle.pw_store.specs.inner.Keys.{at_row, at_text, key_of};
ghost use Rattle.pw_store.specs.inner.Lists.{kind_at};

use crate::forms::Form;
use crate::given::Given;
use crate::records::has_named;
use pw_model::{Content, Contents, Named, Reference, register_place};
use pw_obis::Register;
use pw_schema::{RecordKind, contents_in, integer, words};
use pw_tariff::MeterId;
use pw_time::Instant;
use sqlite::types::ValueRef;
use sqlite::{Alter, Connection, Error, Row};

// The key of a record: of a reading, an assignment or a top-up.
#[derive(Clone, Copy)]
pub(crate) enum RecordKey {
    Reading(MeterId, Register, Instant),
    Assignment(MeterId, Instant),
    TopUp(Reference),
}

impl RecordKey {
    // The kind of its records.
    fn kind(&self) -> RecordKind
        ensures { result ≡ kind_at (key_of self.now) }
    {
        match self {
            RecordKey::Reading(..) => RecordKind::Readings,
            RecordKey::Assignment(..) => RecordKind::Assignments,
            RecordKey::TopUp(_) => RecordKind::TopUps,
        }
    }

    // The text that asks for two rows at most of its records that no withdrawal names.
    fn text(&self) -> &'static str
        ensures { result.now ≡ at_text self.now }
    {
        match self {
            RecordKey::Reading(..) => {
                "SELECT wh FROM record_reading WHERE meter = ?1 AND register = ?2 AND instant = ?3 AND NOT EXISTS (SELECT 1 FROM withdrawn_reading WHERE withdrawn_reading.meter = record_reading.meter AND withdrawn_reading.register = record_reading.register AND withdrawn_reading.instant = record_reading.instant AND withdrawn_reading.wh = record_reading.wh) LIMIT 2"
            }
            RecordKey::Assignment(..) => {
                "SELECT owner FROM record_assignment WHERE meter = ?1 AND start = ?2 AND NOT EXISTS (SELECT 1 FROM withdrawn_assignment WHERE withdrawn_assignment.meter = record_assignment.meter AND withdrawn_assignment.start = record_assignment.start AND withdrawn_assignment.owner = record_assignment.owner) LIMIT 2"
            }
            RecordKey::TopUp(_) => {
                "SELECT account, cents, instant FROM record_topup WHERE reference = ?1 AND NOT EXISTS (SELECT 1 FROM withdrawn_topup WHERE withdrawn_topup.reference = record_topup.reference AND withdrawn_topup.account = record_topup.account AND withdrawn_topup.cents = record_topup.cents AND withdrawn_topup.instant = record_topup.instant) LIMIT 2"
            }
        }
    }

    // What that is given: the values of its columns.
    fn columns<'a>(&'a self) -> Given<'a>
        ensures values { bound (values_of result) ≡ at_row self.now }
        ensures few { result.count ≤ 5 }
    {
        let none = ValueRef::Null;
        match self {
            RecordKey::Reading(meter, register, instant) => Given {
                values: [
                    integer(u32::from(meter.0)),
                    integer(register_place(*register)),
                    integer(instant.seconds()),
                    none,
                    none,
                ],
                count: 3,
            },
            RecordKey::Assignment(meter, start) => Given {
                values: [
                    integer(u32::from(meter.0)),
                    integer(start.seconds()),
                    none,
                    none,
                    none,
                ],
                count: 2,
            },
            RecordKey::TopUp(reference) => Given {
                values: [words(reference), none, none, none, none],
                count: 1,
            },
        }
    }
}

// The rows that its text shows.
fn rows_at<S: Alter>(conn: &mut Connection<S>, key: &RecordKey) -> Result<Vec<Row>, Error>
    requires store { HoldsStore (state S.Store conn.old) }
    ensures told { HasCleanDisk (state S.Store conn.new)
        → IfOk result (λ rows. contents_of
        (map (told_content (kind_at (key_of key.now))) rows.items)
        ≡ contents_at (records_of (state S.Store conn.old).now.trees) (key_of key.now)) }
    ensures asks { Asks result (state S.Store conn.old) (state S.Store conn.new) }
{
    let columns = key.columns();
    conn.query_all(key.text(), columns.values())
}

// What the records tell of a key, if the rows tell it.
pub(crate) fn contents_of_record<S: Alter>(
    conn: &mut Connection<S>,
    key: &RecordKey,
) -> Result<Option<Contents>, Error>
    requires store { HoldsStore (state S.Store conn.old) }
    ensures told { HasCleanDisk (state S.Store conn.new)
        → IfOk result (λ found. IfSome found
        (λ contents. contents ≡ contents_at (records_of (state S.Store conn.old).now.trees)
        (key_of key.now))) }
    ensures asks { Asks result (state S.Store conn.old) (state S.Store conn.new) }
{
    let rows = rows_at(conn, key)?;
    Ok(contents_in(key.kind(), rows.as_slice()))
}

// What is told of a withdrawal's key.
fn told_of(held: bool) -> Contents
    ensures { result ≡ cond held (One content.Withdrawal) Nothing }
{
    if held {
        Contents::One(Content::Withdrawal)
    } else {
        Contents::Nothing
    }
}

// What the records tell of a withdrawal's key: the withdrawal, if it is held.
pub(crate) fn contents_of_withdrawal<S: Alter>(
    conn: &mut Connection<S>,
    named: &Named,
) -> Result<Option<Contents>, Error>
    requires store { HoldsStore (state S.Store conn.old) }
    ensures told { HasCleanDisk (state S.Store conn.new)
        → IfOk result (λ found. IfSome found
        (λ contents. contents ≡ contents_at (records_of (state S.Store conn.old).now.trees)
        (key.Withdrawal named.now))) }
    ensures asks { Asks result (state S.Store conn.old) (state S.Store conn.new) }
{
    let held = has_named(conn, Form::Withdrawal, named)?;
    Ok(Some(told_of(held)))
}
