//! Records and withdrawals, each added and looked for by its own text: what a withdrawal names is kept as a record of its
//! kind is, in a table beside.

ghost use Rattle.std.specs.Prelude.{◌≡◌, ◌<◌, ◌≤◌, ◌↔◌, OnOk, IfOk, IfSome, IfNone, IsTrue, length};
ghost use Rattle.sqlite.specs.Held.{state};
ghost use Rattle.sqlite.specs.State.{HasCleanDisk};
ghost use Rattle.sqlite.specs.Values.{bound};
ghost use Rattle.pw_model.specs.Counting.{Member};
ghost use Rattle.pw_schema.specs.Calls.{Writes};
ghost use Rattle.pw_schema.specs.inner.Calls.{Asks};
ghost use Rattle.pw_store.specs.Content.{records_of};
ghost use Rattle.pw_store.specs.inner.Changing.{Adds};
ghost use Rattle.pw_store.specs.inner.Connections.{HasBegun, HoldsStore};
ghost use Rattle.pw_store.specs.inner.Given.{values_of};
ghost use Rattle.pw_store.specs.inner.Records.{IsForeign, entry_as, named_row};

use crate::forms::Form;
use crate::given::Given;
use pw_model::{Content, Entry, Key, Named, register_place};
use pw_schema::{integer, owner_place, wide, words};
use sqlite::types::ValueRef;
use sqlite::{Alter, Connection, Error, Row};

// As what an entry is kept, and what it names; none where its content isn't of its key's kind.
pub(crate) fn form_of(entry: &Entry) -> Option<(Form, Named)>
    ensures some { IfSome result (λ it. entry.now ≡ entry_as it.0 it.1) }
    ensures none { IfNone result (IsForeign entry.now) }
{
    if let (Key::Withdrawal { named }, Content::Withdrawal) = (&entry.key, &entry.content) {
        return Some((Form::Withdrawal, *named));
    }
    match Named::of(entry) {
        Some(named) => Some((Form::Record, named)),
        None => None,
    }
}

// What a statement on something named is given: the values of its columns.
fn columns_of<'a>(named: &'a Named) -> Given<'a>
    ensures values { bound (values_of result) ≡ named_row named.now }
    ensures few { result.count ≤ 5 }
{
    match named {
        Named::Reading {
            meter,
            register,
            instant,
            wh,
        } => Given {
            values: [
                integer(u32::from(meter.0)),
                integer(register_place(*register)),
                integer(instant.seconds()),
                wide(wh.get()),
                ValueRef::Null,
            ],
            count: 4,
        },
        Named::Assignment {
            meter,
            start,
            owner,
        } => Given {
            values: [
                integer(u32::from(meter.0)),
                integer(start.seconds()),
                integer(owner_place(*owner)),
                ValueRef::Null,
                ValueRef::Null,
            ],
            count: 3,
        },
        Named::TopUp {
            reference,
            account,
            cents,
            instant,
        } => Given {
            values: [
                words(reference),
                integer(u32::from(account.0)),
                integer(*cents),
                integer(instant.seconds()),
                ValueRef::Null,
            ],
            count: 4,
        },
    }
}

// Adds what is named, in a form in which it isn't held.
pub(crate) fn add_named<S: Alter>(
    conn: &mut Connection<S>,
    form: Form,
    named: &Named,
) -> Result<usize, Error>
    requires inside { HasBegun (state S.Store conn.old) }
    requires store { HoldsStore (state S.Store conn.old) }
    requires fresh { HasCleanDisk (state S.Store conn.old)
        → Member (entry_as form named.now) (records_of (state S.Store conn.old).now.trees) → ⊥ }
    ensures done { HasCleanDisk (state S.Store conn.new)
        → OnOk result (Adds (entry_as form named.now) (state S.Store conn.old)
        (state S.Store conn.new)) }
    ensures writes { Writes result (state S.Store conn.old) (state S.Store conn.new) }
{
    let columns = columns_of(named);
    conn.execute(form.insert(named), columns.values())
}

// Rows for what is named, if it is held in a form.
fn rows_of_named<S: Alter>(
    conn: &mut Connection<S>,
    form: Form,
    named: &Named,
) -> Result<Vec<Row>, Error>
    requires store { HoldsStore (state S.Store conn.old) }
    ensures found { HasCleanDisk (state S.Store conn.new)
        → IfOk result (λ rows. 0 < length rows.items
        ↔ Member (entry_as form named.now) (records_of (state S.Store conn.old).now.trees)) }
    ensures asks { Asks result (state S.Store conn.old) (state S.Store conn.new) }
{
    let columns = columns_of(named);
    conn.query_all(form.find(named), columns.values())
}

// Whether what is named is held in a form.
pub(crate) fn has_named<S: Alter>(
    conn: &mut Connection<S>,
    form: Form,
    named: &Named,
) -> Result<bool, Error>
    requires store { HoldsStore (state S.Store conn.old) }
    ensures found { HasCleanDisk (state S.Store conn.new)
        → IfOk result (λ held. IsTrue held
        ↔ Member (entry_as form named.now) (records_of (state S.Store conn.old).now.trees)) }
    ensures asks { Asks result (state S.Store conn.old) (state S.Store conn.new) }
{
    let rows = rows_of_named(conn, form, named)?;
    Ok(0 < rows.len())
}
