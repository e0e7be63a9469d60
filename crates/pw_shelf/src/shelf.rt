//! The interface of a store of records.
//!
//! One call at a time; an upload is what stands between `begin` and `commit` or `abandon`.

ghost use Rattle.std.specs.Prelude.{◌≡◌, ◌+◌, ◌*◌, ◌<◌, ◌≤◌, Some, None, IfOk, OnOk, OnErr, IsSome, IsTrue, ◌↔◌, length};
ghost use Rattle.pw_obis.specs.declared.energy.TheConstants.{LARGEST_WATT_HOURS};
ghost use Rattle.pw_model.specs.Shelf.{ShelfContent};
ghost use Rattle.pw_model.specs.Office.{most_records};
ghost use Rattle.pw_model.specs.Counting.{EachOnce, Member, contents_at as held_at};
ghost use Rattle.pw_shelf.specs.Calls.{IsAsking, IsWriting, failures_told};
ghost use Rattle.pw_shelf.specs.Changes.{with_point, with_start, with_total};
ghost use Rattle.pw_shelf.specs.State.{State, CountsFailures, IsWithRecord};
ghost use Rattle.pw_shelf.specs.Left.{LeavesNoMore, LeavesNoMoreOr, LeavesOnly};
ghost use Rattle.pw_shelf.specs.Rows.{ListsAssignments, ListsReadings, ListsTopUps, ListsWithdrawals, no_rows, rows_at, rows_found, rows_listed, rows_total};
ghost use Rattle.pw_model.specs.Seconds.{ListsSeconds};
ghost use Rattle.pw_shelf.specs.Seconds.{IsBefore, IsBehind, ListsSecondsWithin};

use crate::fault::ShelfFault;
use pw_model::{Contents, Entry, Key, TotalKey};
use pw_obis::{Register, WattHours};
use pw_tariff::{MeterId, Owner};
use pw_time::Instant;
use std::alloc::Global;

/// A store of records, with the points, starts and totals that are kept beside them.
///
/// What is promised of contents (those held, answered, given back, and left by a crash) holds where the store has
/// returned what was written; counts, the tally, whether an upload is begun and what it began with hold always. A failure of the device is
/// counted where a call answers `Device`, and nowhere else.
///
/// Within an upload nothing is promised of the content after a fault, until `abandon` answers Ok: after a fault only
/// `abandon` is of use.
pub trait Shelf {
    /// The content, the content that the upload began with, and the counts.
    ghost state: { Self → State };

    /// What a crash at this moment may leave.
    ghost left: { Self → ShelfContent → Type 0 };

    /// The store has returned what was written to it.
    ghost clean: { Self → Type 0 };

    /// The second is the first behind calls: what a store remembers of its making or opening is as it was.
    ghost same_store: { Self → Self → Type 0 };

    /// Begins an upload. A failed call begins nothing.
    fn begin(&mut self) -> Result<(), ShelfFault>
        requires { (state self.old).begun ≡ None }
        ensures begun { OnOk result ((state self.new).begun ≡ Some (state self.old).content) }
        ensures unbegun { OnErr result ((state self.new).begun ≡ None) }
        ensures same { clean self.new → (state self.new).content ≡ (state self.old).content }
        ensures counts { CountsFailures (failures_told result) (state self.old) (state self.new) }
        ensures tally { (state self.new).tally ≡ (state self.old).tally + 1 }
        ensures left { clean self.new → LeavesNoMore (left self.old) (left self.new) }
        ensures cleanness { clean self.new → clean self.old }
        ensures store { same_store self.old self.new };

    /// Ends the upload and keeps what it wrote, whatever happens from then on. A failed call leaves the upload begun.
    fn commit(&mut self) -> Result<(), ShelfFault>
        requires { IsSome (state self.old).begun }
        ensures ended { OnOk result ((state self.new).begun ≡ None) }
        ensures begun { OnErr result ((state self.new).begun ≡ (state self.old).begun) }
        ensures same { clean self.new → OnOk result
            ((state self.new).content ≡ (state self.old).content) }
        ensures counts { CountsFailures (failures_told result) (state self.old) (state self.new) }
        ensures tally { (state self.new).tally ≡ (state self.old).tally + 1 }
        ensures kept { clean self.new → OnOk result
            (LeavesOnly (state self.old).content (left self.new)) }
        ensures stays { clean self.new → OnOk result (left self.new (state self.old).content) }
        ensures left { clean self.new → OnErr result
            (LeavesNoMoreOr (state self.old).content (left self.old) (left self.new)) }
        ensures cleanness { clean self.new → clean self.old }
        ensures store { same_store self.old self.new };

    /// Ends the upload and gives back the content that it began with. A failed call leaves the upload begun.
    fn abandon(&mut self) -> Result<(), ShelfFault>
        requires { IsSome (state self.old).begun }
        ensures ended { OnOk result ((state self.new).begun ≡ None) }
        ensures begun { OnErr result ((state self.new).begun ≡ (state self.old).begun) }
        ensures back { clean self.new → OnOk result
            ((state self.old).begun ≡ Some (state self.new).content) }
        ensures done { OnOk result ((state self.new).failed_abandons
            ≡ (state self.old).failed_abandons) }
        ensures failed { OnErr result ((state self.new).failed_abandons
            ≡ (state self.old).failed_abandons + 1) }
        ensures failures { (state self.new).failures
            ≡ (state self.old).failures + failures_told result }
        ensures tally { (state self.new).tally ≡ (state self.old).tally + 1 }
        ensures left { clean self.new → LeavesNoMore (left self.old) (left self.new) }
        ensures cleanness { clean self.new → clean self.old }
        ensures store { same_store self.old self.new };

    /// Whether a record is held.
    fn holds(&mut self, entry: &Entry) -> Result<bool, ShelfFault>
        ensures held { clean self.new → IfOk result
            (λ held. IsTrue held ↔ Member entry.now (state self.old).content.records) }
        ensures asked { IsAsking state left clean same_store no_rows result self.old self.new };

    /// What the records held that stand say of a key: whether none has it, one, or several: no row, one, or two.
    fn contents_at(&mut self, key: &Key) -> Result<Contents, ShelfFault>
        ensures rows { clean self.new → IfOk result
            (λ found. found ≡ held_at (state self.old).content.records key.now) }
        ensures asked { IsAsking state left clean same_store rows_at result self.old self.new };

    /// Adds a record that isn't held, and changes nothing else.
    fn add(&mut self, entry: &Entry) -> Result<(), ShelfFault>
        requires begun { IsSome (state self.old).begun }
        requires fresh { clean self.old → Member entry.now (state self.old).content.records → ⊥ }
        requires room { clean self.old → length (state self.old).content.records < most_records }
        ensures added { clean self.new → OnOk result
            (IsWithRecord (state self.old).content entry.now (state self.new).content) }
        ensures written { IsWriting state left clean same_store result self.old self.new };

    /// All readings held of a register, sorted.
    fn readings_of(
        &mut self,
        alloc: Global,
        meter: MeterId,
        register: Register,
    ) -> Result<Vec<Entry>, ShelfFault>
        ensures rows { clean self.new → IfOk result
            (λ found. ListsReadings (state self.old).content.records meter register found.items) }
        ensures asked { IsAsking state left clean same_store rows_listed result self.old self.new };

    /// All assignments held of a meter, sorted.
    fn assignments_of(&mut self, alloc: Global, meter: MeterId) -> Result<Vec<Entry>, ShelfFault>
        ensures rows { clean self.new → IfOk result
            (λ found. ListsAssignments (state self.old).content.records meter found.items) }
        ensures asked { IsAsking state left clean same_store rows_listed result self.old self.new };

    /// All top-ups held, sorted.
    fn topups(&mut self, alloc: Global) -> Result<Vec<Entry>, ShelfFault>
        ensures rows { clean self.new → IfOk result
            (λ found. ListsTopUps (state self.old).content.records found.items) }
        ensures asked { IsAsking state left clean same_store rows_listed result self.old self.new };

    /// All withdrawals held, sorted.
    fn withdrawals(&mut self, alloc: Global) -> Result<Vec<Entry>, ShelfFault>
        ensures rows { clean self.new → IfOk result
            (λ found. ListsWithdrawals (state self.old).content.records found.items) }
        ensures asked { IsAsking state left clean same_store rows_listed result self.old self.new };

    /// How many records are held.
    fn count(&mut self) -> Result<u32, ShelfFault>
        ensures number { clean self.new → IfOk result
            (λ held. held ≡ length (state self.old).content.records) }
        ensures asked { IsAsking state left clean same_store no_rows result self.old self.new };

    /// Keeps the value of a register at an instant, in place of the one that is kept there, and changes nothing else.
    fn point_put(
        &mut self,
        meter: MeterId,
        register: Register,
        instant: Instant,
        wh: WattHours,
    ) -> Result<(), ShelfFault>
        requires { IsSome (state self.old).begun }
        ensures put { clean self.new → OnOk result
            ((state self.new).content
            ≡ with_point (state self.old).content meter.0 register instant (Some wh)) }
        ensures written { IsWriting state left clean same_store result self.old self.new };

    /// Takes the point of a register at an instant away, if one is kept, and changes nothing else.
    fn point_del(
        &mut self,
        meter: MeterId,
        register: Register,
        instant: Instant,
    ) -> Result<(), ShelfFault>
        requires { IsSome (state self.old).begun }
        ensures deleted { clean self.new → OnOk result
            ((state self.new).content
            ≡ with_point (state self.old).content meter.0 register instant None) }
        ensures written { IsWriting state left clean same_store result self.old self.new };

    /// The latest point kept of a register strictly before an instant, if there is one: then it is one row.
    fn point_before(
        &mut self,
        meter: MeterId,
        register: Register,
        instant: Instant,
    ) -> Result<Option<(Instant, WattHours)>, ShelfFault>
        ensures row { clean self.new → IfOk result
            (λ found. IsBefore ((state self.old).content.point meter.0 register) instant found) }
        ensures asked { IsAsking state left clean same_store rows_found result self.old self.new };

    /// The earliest point kept of a register strictly behind an instant, if there is one: then it is one row.
    fn point_after(
        &mut self,
        meter: MeterId,
        register: Register,
        instant: Instant,
    ) -> Result<Option<(Instant, WattHours)>, ShelfFault>
        ensures row { clean self.new → IfOk result
            (λ found. IsBehind ((state self.old).content.point meter.0 register) instant found) }
        ensures asked { IsAsking state left clean same_store rows_found result self.old self.new };

    /// The points kept of a register from one instant to another, both included, in order; none where the second is
    /// before the first.
    fn points_between(
        &mut self,
        alloc: Global,
        meter: MeterId,
        register: Register,
        from: Instant,
        to: Instant,
    ) -> Result<Vec<(Instant, WattHours)>, ShelfFault>
        ensures rows { clean self.new → IfOk result
            (λ found. ListsSecondsWithin from to ((state self.old).content.point meter.0 register)
            found.items) }
        ensures asked { IsAsking state left clean same_store rows_listed result self.old self.new };

    /// Keeps the owner of a meter from an instant on, in place of the one that is kept there, and changes nothing else.
    fn start_put(&mut self, meter: MeterId, start: Instant, owner: Owner) -> Result<(), ShelfFault>
        requires { IsSome (state self.old).begun }
        ensures put { clean self.new → OnOk result
            ((state self.new).content
            ≡ with_start (state self.old).content meter.0 start (Some owner)) }
        ensures written { IsWriting state left clean same_store result self.old self.new };

    /// Takes the start of a meter at an instant away, if one is kept, and changes nothing else.
    fn start_del(&mut self, meter: MeterId, start: Instant) -> Result<(), ShelfFault>
        requires { IsSome (state self.old).begun }
        ensures deleted { clean self.new → OnOk result
            ((state self.new).content ≡ with_start (state self.old).content meter.0 start None) }
        ensures written { IsWriting state left clean same_store result self.old self.new };

    /// All starts kept of a meter, in order.
    fn starts_of(
        &mut self,
        alloc: Global,
        meter: MeterId,
    ) -> Result<Vec<(Instant, Owner)>, ShelfFault>
        ensures rows { clean self.new → IfOk result
            (λ found. ListsSeconds ((state self.old).content.start meter.0) found.items) }
        ensures asked { IsAsking state left clean same_store rows_listed result self.old self.new };

    /// The total kept at a key; 0 where none is. It is one row where it is above 0.
    fn total(&mut self, key: &TotalKey) -> Result<u64, ShelfFault>
        ensures amount { clean self.new → IfOk result
            (λ amount. amount ≡ (state self.old).content.total key.now) }
        ensures asked { IsAsking state left clean same_store rows_total result self.old self.new };

    /// Keeps a total at a key, in place of the one that is kept there, and changes nothing else.
    fn total_put(&mut self, key: &TotalKey, amount: u64) -> Result<(), ShelfFault>
        requires begun { IsSome (state self.old).begun }
        requires bounded { amount ≤ most_records * LARGEST_WATT_HOURS }
        ensures put { clean self.new → OnOk result
            ((state self.new).content ≡ with_total (state self.old).content key.now amount) }
        ensures written { IsWriting state left clean same_store result self.old self.new };

    /// Each record is held once.
    ghost once: { (s : Self) → clean s → EachOnce (state s).content.records };

    /// A crash leaves something.
    ghost survives: { (s : Self) → clean s → ¬ ((c : ShelfContent) → ¬ (left s c)) };

    /// A store is the same behind no call.
    ghost same_yet: { (s : Self) → same_store s s };

    /// What is the same behind some calls, and then behind others, is the same behind all of them.
    ghost same_then: { (a b c : Self) → same_store a b → same_store b c → same_store a c };
}
