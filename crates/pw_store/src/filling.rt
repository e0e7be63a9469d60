//! The totals of energy by period of a store that is brought to version 3: put, and read again.

ghost use Rattle.std.specs.Prelude.{IfErr, IsTrue, OnOk};
ghost use Rattle.std.specs.Option.{option_copied};
ghost use Rattle.sqlite.specs.Held.{state};
ghost use Rattle.sqlite.specs.State.{HasCleanDisk, Survives};
ghost use Rattle.pw_tariff.specs.Office.{office_of};
ghost use Rattle.pw_schema.specs.Calls.{CommitStays, IsWithinVersion, LeavesVersion, Looks};
ghost use Rattle.pw_schema.specs.declared.kind.StoreVersion.TheVariants.{Third};
ghost use Rattle.pw_schema.specs.inner.Calls.{HasOurTables, KeepsLasting};
ghost use Rattle.pw_store.specs.Left.{IsFilled};
ghost use Rattle.pw_store.specs.inner.Connections.{HasJudged};
ghost use Rattle.pw_store.specs.inner.Filling.{AreOfTopUps, IsOfEngine, IsOfTopUps, LeavesTopUps, TellsMore};
ghost use Rattle.pw_store.specs.inner.Opened.{AreJudged};

use crate::fault::OpenFault;
use crate::sums::read_energies;
use crate::total_statements::fill_total;
use pw_model::TotalKey;
use pw_parts::Parts;
use pw_tariff::Office;
use sqlite::{Alter, Connection, Error};

// Puts all totals of energy that are among these.
fn put_all<S: Alter>(conn: &mut Connection<S>, totals: &[(TotalKey, u64)]) -> Result<(), Error>
    requires within { IsWithinVersion Third (state S.Store conn.old) }
    ensures within { LeavesVersion Third result (state S.Store conn.new) }
    ensures lasting { KeepsLasting result (state S.Store conn.old) (state S.Store conn.new) }
    ensures told { HasCleanDisk (state S.Store conn.new)
        → OnOk result (TellsMore totals.now (state S.Store conn.old).now.trees
        (state S.Store conn.new).now.trees) }
    ensures kept { CommitStays (state S.Store conn.old) (state S.Store conn.new) }
    ensures crash { Survives (state S.Store conn.old) (state S.Store conn.new) (λ _. ⊥) }
{
    for (key, amount) in totals {
        fill_total(conn, key, *amount)?;
    }
    Ok(())
}

fn is_of_top_ups(total: &(TotalKey, u64)) -> bool
    ensures { IsTrue result → IsOfTopUps total.now.0 }
{
    match total.0 {
        TotalKey::Energy { .. } => false,
        TotalKey::TopUps { .. } => true,
    }
}

fn are_of_top_ups(totals: &[(TotalKey, u64)]) -> bool
    ensures { IsTrue result → AreOfTopUps totals.now }
{
    let [total, totals @ ..] = totals else {
        return true;
    };
    is_of_top_ups(total) && are_of_top_ups(totals)
}

// Whether totals of top-ups alone are left of a list.
fn is_met(rest: Option<&[(TotalKey, u64)]>) -> bool
    ensures { IsTrue result → LeavesTopUps (option_copied rest.entry) }
{
    match rest {
        Some(rest) => are_of_top_ups(rest),
        None => false,
    }
}

// What a fault in reading them again is: not of what was found, but of what was put.
fn fault_of_filling(fault: OpenFault) -> OpenFault
    ensures { IsOfEngine result }
{
    match fault {
        OpenFault::Memory => OpenFault::Memory,
        _ => OpenFault::Store,
    }
}

// Sees that the totals of energy are those of the parts.
fn see_filled<S: Alter>(
    conn: &mut Connection<S>,
    office: &Office,
    parts: &Parts,
) -> Result<(), OpenFault>
    requires ours { HasOurTables (state S.Store conn.old) }
    requires judged { HasJudged (office_of office.now) (state S.Store conn.old) parts.now }
    ensures filled { HasCleanDisk (state S.Store conn.new)
        → OnOk result (IsFilled (office_of office.now) (state S.Store conn.old).now.trees) }
    ensures engine { IfErr result IsOfEngine }
    ensures looks { Looks result (state S.Store conn.old) (state S.Store conn.new) }
{
    let energies = read_energies(conn, office, parts.totals.as_slice()).map_err(fault_of_filling)?;
    if is_met(energies.1) {
        Ok(())
    } else {
        Err(OpenFault::Store)
    }
}

// Puts the totals of energy of the parts of the records, and sees that they are there. What it finds amiss then is told as a
// failure of the engine.
pub(crate) fn fill<S: Alter>(
    conn: &mut Connection<S>,
    office: &Office,
    parts: &Parts,
) -> Result<(), OpenFault>
    requires within { IsWithinVersion Third (state S.Store conn.old) }
    requires judged { HasJudged (office_of office.now) (state S.Store conn.old) parts.now }
    ensures within { LeavesVersion Third result (state S.Store conn.new) }
    ensures lasting { KeepsLasting result (state S.Store conn.old) (state S.Store conn.new) }
    ensures judged { HasCleanDisk (state S.Store conn.new)
        → OnOk result (AreJudged (office_of office.now) (state S.Store conn.new).now.trees
        parts.now) }
    ensures filled { HasCleanDisk (state S.Store conn.new)
        → OnOk result (IsFilled (office_of office.now) (state S.Store conn.new).now.trees) }
    ensures engine { IfErr result IsOfEngine }
    ensures kept { CommitStays (state S.Store conn.old) (state S.Store conn.new) }
    ensures crash { Survives (state S.Store conn.old) (state S.Store conn.new) (λ _. ⊥) }
{
    put_all(conn, parts.totals.as_slice())?;
    see_filled(conn, office, parts)
}
