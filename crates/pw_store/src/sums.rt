//! Points, starts and totals of a store that is opened, judged and compared with the parts of its records.

ghost use Rattle.std.specs.Prelude.{◌≡◌, ◌↔◌, ℕ, [], Err, IfErr, IfOk, IsTrue, List, OnErr, OnOk, Some, filter};
ghost use Rattle.std.specs.Option.{option_copied};
ghost use Rattle.sqlite.specs.Held.{state};
ghost use Rattle.sqlite.specs.State.{HasCleanDisk};
ghost use Rattle.pw_tariff.specs.Office.{office_of};
ghost use Rattle.pw_model.specs.declared.records.Entry.{Entry as EntrySpec};
ghost use Rattle.pw_model.specs.declared.records.TotalKey.{TotalKey as TotalKeySpec};
ghost use Rattle.pw_schema.specs.Calls.{Looks};
ghost use Rattle.pw_schema.specs.Judges.{IsRest, is_above_zero};
ghost use Rattle.pw_schema.specs.inner.Calls.{HasOurTables};
ghost use Rattle.pw_store.specs.Content.{energy_tree, payment_tree, total_tree};
ghost use Rattle.pw_store.specs.Opening.{HoldsKept, HoldsSums, HoldsTotals};
ghost use Rattle.pw_store.specs.inner.Listings.{kept_as, kept_tree, listed_tree, shown_by};
ghost use Rattle.pw_store.specs.inner.Opened.{HoldsEnergies, RefusesUnless};
ghost use Rattle.pw_store.specs.inner.Scanning.{IsOther};
ghost use Rattle.pw_store.specs.inner.Sums.{AreAllNumbered, AreNumbered, Listed, TellsKept, TellsSums, TellsTotals, shown_id};
ghost use Rattle.pw_store.specs.inner.Truth.{AreRead};

use crate::fault::OpenFault;
use crate::listings::{KeptKind, Listing, judge_listing};
use crate::watch::{Part, Watch};
use pw_model::{Entry, TotalKey};
use pw_parts::Parts;
use pw_schema::{KeptEntries, KeptTotals, NoRows, Rowids, TotalKind};
use pw_tariff::Office;
use sqlite::{Alter, Connection};

// Sees that rows have rowids, none of them twice.
fn check_rowids<S: Alter>(conn: &mut Connection<S>, rowids: Listing) -> Result<(), OpenFault>
    requires ours { HasOurTables (state S.Store conn.old) }
    requires shown { shown_by rowids ≡ shown_id }
    ensures numbered { HasCleanDisk (state S.Store conn.new)
        → OnOk result (AreNumbered ((state S.Store conn.old).now.trees (listed_tree rowids))) }
    ensures refused { HasCleanDisk (state S.Store conn.new) → result ≡ Err OpenFault.Unclean → ⊥ }
    ensures others { OnErr result (IsOther result) }
    ensures looks { Looks result (state S.Store conn.old) (state S.Store conn.new) }
{
    let mut judge = Rowids::new();
    judge_listing(conn, rowids, &mut judge)?;
    Ok(())
}

// Points, or starts.
fn read_kept<S: Alter>(
    conn: &mut Connection<S>,
    office: &Office,
    kept: KeptKind,
    expected: &[Entry],
) -> Result<(usize, bool), OpenFault>
    requires ours { HasOurTables (state S.Store conn.old) }
    ensures holds { HasCleanDisk (state S.Store conn.new)
        → OnOk result (HoldsKept (office_of office.now) (kept_as kept)
        ((state S.Store conn.old).now.trees (kept_tree kept))) }
    ensures numbered { HasCleanDisk (state S.Store conn.new)
        → OnOk result (AreNumbered ((state S.Store conn.old).now.trees (kept_tree kept))) }
    ensures tells { HasCleanDisk (state S.Store conn.new)
        → IfOk result (λ read. (found : List EntrySpec)
        × TellsKept (kept_as kept) ((state S.Store conn.old).now.trees (kept_tree kept)) found
        × (IsTrue read.1 ↔ expected.now ≡ found)) }
    ensures cause { HasCleanDisk (state S.Store conn.new)
        → IfErr result (RefusesUnless
        (HoldsKept (office_of office.now) (kept_as kept)
        ((state S.Store conn.old).now.trees (kept_tree kept)))) }
    ensures looks { Looks result (state S.Store conn.old) (state S.Store conn.new) }
{
    let mut entries = KeptEntries::new(office, kept.kind(), expected);
    let count = judge_listing(conn, Listing::Kept(kept), &mut entries)?;
    check_rowids(conn, Listing::KeptRowids(kept))?;
    Ok((count, entries.is_at_end()))
}

// The totals of energy by period.
fn read_by_period<'a, S: Alter>(
    conn: &mut Connection<S>,
    office: &'a Office,
    expected: &'a [(TotalKey, u64)],
) -> Result<(usize, Option<&'a [(TotalKey, u64)]>), OpenFault>
    requires ours { HasOurTables (state S.Store conn.old) }
    ensures holds { HasCleanDisk (state S.Store conn.new)
        → OnOk result (HoldsTotals (office_of office.now) TotalKind.Energies
        ((state S.Store conn.old).now.trees energy_tree)) }
    ensures numbered { HasCleanDisk (state S.Store conn.new)
        → OnOk result (AreNumbered ((state S.Store conn.old).now.trees energy_tree)) }
    ensures tells { HasCleanDisk (state S.Store conn.new)
        → IfOk result (λ read. (found : List (TotalKeySpec × ℕ))
        × TellsTotals TotalKind.Energies ((state S.Store conn.old).now.trees energy_tree) found
        × IsRest (Some expected.now) (filter is_above_zero found) (option_copied read.1)) }
    ensures cause { HasCleanDisk (state S.Store conn.new)
        → IfErr result (RefusesUnless
        (HoldsTotals (office_of office.now) TotalKind.Energies
        ((state S.Store conn.old).now.trees energy_tree))) }
    ensures looks { Looks result (state S.Store conn.old) (state S.Store conn.new) }
{
    let mut energies = KeptTotals::new(office, TotalKind::Energies, Some(expected));
    let count = judge_listing(conn, Listing::Totals(TotalKind::Energies), &mut energies)?;
    check_rowids(conn, Listing::EnergyRowids)?;
    Ok((count, energies.rest()))
}

// Sees that no total is kept by band alone.
fn check_old_totals<S: Alter>(conn: &mut Connection<S>) -> Result<(), OpenFault>
    requires ours { HasOurTables (state S.Store conn.old) }
    ensures none { HasCleanDisk (state S.Store conn.new)
        → OnOk result ((state S.Store conn.old).now.trees total_tree ≡ []) }
    ensures cause { HasCleanDisk (state S.Store conn.new)
        → IfErr result (RefusesUnless ((state S.Store conn.old).now.trees total_tree ≡ [])) }
    ensures looks { Looks result (state S.Store conn.old) (state S.Store conn.new) }
{
    let mut judge = NoRows;
    judge_listing(conn, Listing::OldTotals, &mut judge)?;
    Ok(())
}

// The totals of energy: how many there are by period, if there is none by band alone, and what of a list stands behind
// them, where it begins with those above 0.
pub(crate) fn read_energies<'a, S: Alter>(
    conn: &mut Connection<S>,
    office: &'a Office,
    expected: &'a [(TotalKey, u64)],
) -> Result<(usize, Option<&'a [(TotalKey, u64)]>), OpenFault>
    requires ours { HasOurTables (state S.Store conn.old) }
    ensures holds { HasCleanDisk (state S.Store conn.new)
        → OnOk result (HoldsTotals (office_of office.now) TotalKind.Energies
        ((state S.Store conn.old).now.trees energy_tree)) }
    ensures none { HasCleanDisk (state S.Store conn.new)
        → OnOk result ((state S.Store conn.old).now.trees total_tree ≡ []) }
    ensures numbered { HasCleanDisk (state S.Store conn.new)
        → OnOk result (AreNumbered ((state S.Store conn.old).now.trees energy_tree)) }
    ensures tells { HasCleanDisk (state S.Store conn.new)
        → IfOk result (λ read. (found : List (TotalKeySpec × ℕ))
        × TellsTotals TotalKind.Energies ((state S.Store conn.old).now.trees energy_tree) found
        × IsRest (Some expected.now) (filter is_above_zero found) (option_copied read.1)) }
    ensures cause { HasCleanDisk (state S.Store conn.new)
        → IfErr result (RefusesUnless
        (HoldsEnergies (office_of office.now) (state S.Store conn.old).now.trees)) }
    ensures looks { Looks result (state S.Store conn.old) (state S.Store conn.new) }
{
    check_old_totals(conn)?;
    read_by_period(conn, office, expected)
}

// Whether a list has been met whole.
fn is_at_end(rest: Option<&[(TotalKey, u64)]>) -> bool
    ensures { IsTrue result ↔ option_copied rest.entry ≡ Some [] }
{
    match rest {
        Some(rest) => rest.is_empty(),
        None => false,
    }
}

// The totals of top-ups, judged: how many they are, and whether those above 0 are the expected ones.
fn read_payments<S: Alter>(
    conn: &mut Connection<S>,
    office: &Office,
    expected: Option<&[(TotalKey, u64)]>,
) -> Result<(usize, bool), OpenFault>
    requires ours { HasOurTables (state S.Store conn.old) }
    ensures holds { HasCleanDisk (state S.Store conn.new)
        → OnOk result (HoldsTotals (office_of office.now) TotalKind.Payments
        ((state S.Store conn.old).now.trees payment_tree)) }
    ensures numbered { HasCleanDisk (state S.Store conn.new)
        → OnOk result (AreNumbered ((state S.Store conn.old).now.trees payment_tree)) }
    ensures tells { HasCleanDisk (state S.Store conn.new)
        → IfOk result (λ read. (found : List (TotalKeySpec × ℕ))
        × TellsTotals TotalKind.Payments ((state S.Store conn.old).now.trees payment_tree) found
        × (IsTrue read.1 ↔ option_copied expected.entry ≡ Some (filter is_above_zero found))) }
    ensures cause { HasCleanDisk (state S.Store conn.new)
        → IfErr result (RefusesUnless
        (HoldsTotals (office_of office.now) TotalKind.Payments
        ((state S.Store conn.old).now.trees payment_tree))) }
    ensures looks { Looks result (state S.Store conn.old) (state S.Store conn.new) }
{
    let mut payments = KeptTotals::new(office, TotalKind::Payments, expected);
    let count = judge_listing(conn, Listing::Totals(TotalKind::Payments), &mut payments)?;
    Ok((count, is_at_end(payments.rest())))
}

fn are_all(points: bool, starts: bool, totals: bool) -> bool
    ensures { IsTrue result ↔ IsTrue points × IsTrue starts × IsTrue totals }
{
    points && starts && totals
}

// Whether points, starts and totals are these parts of records, if they are of the office, with no key twice.
pub(crate) fn read_sums<S: Alter, W: Watch>(
    conn: &mut Connection<S>,
    office: &Office,
    parts: &Parts,
    watch: &mut W,
) -> Result<bool, OpenFault>
    requires ours { HasOurTables (state S.Store conn.old) }
    ensures holds { HasCleanDisk (state S.Store conn.new)
        → OnOk result (HoldsSums (office_of office.now) (state S.Store conn.old).now.trees) }
    ensures numbered { HasCleanDisk (state S.Store conn.new)
        → OnOk result (AreAllNumbered (state S.Store conn.old).now.trees) }
    ensures tells { HasCleanDisk (state S.Store conn.new)
        → IfOk result (λ same. (sums : Listed) × TellsSums (state S.Store conn.old).now.trees sums
        × (IsTrue same ↔ AreRead parts.now sums)) }
    ensures cause { HasCleanDisk (state S.Store conn.new)
        → IfErr result (RefusesUnless
        (HoldsSums (office_of office.now) (state S.Store conn.old).now.trees)) }
    ensures looks { Looks result (state S.Store conn.old) (state S.Store conn.new) }
{
    let points = read_kept(conn, office, KeptKind::Points, parts.points.as_slice())?;
    watch.checked(Part::Points, points.0);
    let starts = read_kept(conn, office, KeptKind::Starts, parts.starts.as_slice())?;
    watch.checked(Part::Starts, starts.0);
    let energies = read_energies(conn, office, parts.totals.as_slice())?;
    watch.checked(Part::Totals(TotalKind::Energies), energies.0);
    let payments = read_payments(conn, office, energies.1)?;
    watch.checked(Part::Totals(TotalKind::Payments), payments.0);
    Ok(are_all(points.1, starts.1, payments.1))
}
