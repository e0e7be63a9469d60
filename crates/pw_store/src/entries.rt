//! Adding a record of any kind.

ghost use Rattle.std.specs.Prelude.{◌≡◌, IfOk, OnOk, IsTrue, false, true};
ghost use Rattle.sqlite.specs.Held.{state};
ghost use Rattle.sqlite.specs.State.{HasCleanDisk, Shows};
ghost use Rattle.pw_model.specs.Counting.{Member};
ghost use Rattle.pw_shelf.specs.State.{IsWithRecord};
ghost use Rattle.pw_schema.specs.Calls.{Writes};
ghost use Rattle.pw_store.specs.Content.{content_of, records_of};
ghost use Rattle.pw_store.specs.Kept.{IsStore};
ghost use Rattle.pw_store.specs.inner.Changing.{StillKeeps};
ghost use Rattle.pw_store.specs.inner.Connections.{HasBegun, HoldsStore};

use crate::records::{add_named, form_of};
use pw_model::Entry;
use sqlite::{Alter, Connection, Error};

// Adds a record that isn't held, if its content is of its key's kind; else no statement is run.
pub(crate) fn add_entry<S: Alter>(conn: &mut Connection<S>, entry: &Entry) -> Result<bool, Error>
    requires inside { HasBegun (state S.Store conn.old) }
    requires store { HoldsStore (state S.Store conn.old) }
    requires fresh { HasCleanDisk (state S.Store conn.old)
        → Member entry.now (records_of (state S.Store conn.old).now.trees) → ⊥ }
    ensures store { HasCleanDisk (state S.Store conn.new)
        → OnOk result (IsStore (state S.Store conn.new).now) }
    ensures keeps { HasCleanDisk (state S.Store conn.new)
        → OnOk result (StillKeeps (state S.Store conn.old).now.trees
        (state S.Store conn.new).now.trees) }
    ensures added { HasCleanDisk (state S.Store conn.new)
        → IfOk result (λ added. IsTrue added
        → IsWithRecord (content_of (state S.Store conn.old).now.trees) entry.now
        (content_of (state S.Store conn.new).now.trees)) }
    ensures inside { HasCleanDisk (state S.Store conn.new)
        → IfOk result (λ added. IsTrue added
        → Shows (state S.Store conn.old) (state S.Store conn.new) (state S.Store conn.new).now
        (state S.Store conn.old).committed true) }
    ensures foreign { HasCleanDisk (state S.Store conn.new)
        → IfOk result (λ added. (added ≡ false) → conn.new ≡ conn.old) }
    ensures writes { Writes result (state S.Store conn.old) (state S.Store conn.new) }
{
    let Some((form, named)) = form_of(entry) else {
        return Ok(false);
    };
    add_named(conn, form, &named)?;
    Ok(true)
}
