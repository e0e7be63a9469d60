//! One pass over the registers of an account's meters, for questions on stretches of time.

ghost use Rattle.std.specs.Prelude.{◌≡◌, ℕ, ◌+◌, ◌*◌, ◌<◌, ◌≤◌, ◌^◌, true, OnOk, IsNone};
ghost use Rattle.pw_time.specs.declared.instant.TheConstants.{END_SECOND};
ghost use Rattle.pw_obis.specs.declared.reference.Register.{Register as AnyRegister};
ghost use Rattle.pw_tariff.specs.Office.{counts_at, register_place};
ghost use Rattle.pw_shelf.specs.Calls.{failures_told};
ghost use Rattle.pw_book.specs.Asking.{IsOnlyAsked};
ghost use Rattle.pw_book.specs.Questions.{IsQuestion};
ghost use Rattle.pw_bills.specs.Stretches.{AreStretches};
ghost use Rattle.pw_bills.specs.inner.Gathering.{AddsHere, AreEnoughToGather, CanAskAt, CanAskOf, FitsMore, IsEnoughToGather, IsGathered, IsSoundPass, MeterAdds, Pass, PointsAreRead, RegisterAdds, RegistersAdd, counted_reads, meter_reads, office_reads, pass_of, pass_over, pass_to};

use crate::shelf_calls::starts_held;
use crate::stretches::{Stretches, name_somebody, named};
use pw_book::{Basis, Book, BookFault};
use pw_obis::Register;
use pw_shelf::{Shelf, ShelfFault};
use pw_tariff::{AccountId, MeterId, Owners};
use pw_time::{END_SECOND, Instant};
use std::alloc::Global;

// A register that a pass comes to, of a meter with owners under the numbers of stretches.
#[derive(Drop)]
pub(crate) struct Place<'a> {
    pub(crate) basis: &'a Basis<'a>,
    pub(crate) stretches: &'a Stretches<'a>,
    pub(crate) meter: MeterId,
    pub(crate) owners: &'a Owners<'a>,
    pub(crate) register: Register,
}

// What is gathered from the registers of an account's meters, one register after another.
pub(crate) trait Gathers {
    // What a register that counts adds.
    ghost adds: { Pass → ℕ → AnyRegister → Self → Self → Type 0 };

    // It is no more than so many registers can give, whatever a store tells of them.
    ghost fits: { ℕ → Self → Type 0 } = { λ _ _. Unit {0} };

    // So many calls and rows are enough for a register.
    ghost reads: { Pass → ℕ → AnyRegister → ℕ → Type 0 } = { PointsAreRead };

    // Adds what a register gives.
    fn add_register<S: Shelf>(&mut self, shelf: &mut S, place: &Place) -> Result<(), ShelfFault>
        requires able { CanAskAt S.Shelf place.now shelf.old }
        requires counts { counts_at place.now.basis.now.office.now place.now.meter.0
            place.now.register ≡ true }
        requires few { (n : ℕ) × (n < 6 * 2 ^ 16) × fits n self.old }
        ensures few { (n : ℕ) → fits n self.old → OnOk result (fits (n + 1) self.new) }
        ensures added { S.clean shelf.new → OnOk result
            (AddsHere adds (pass_to place.now (S.state shelf.old).content) place.now.meter.0
            place.now.owners.now place.now.register self.old self.new) }
        ensures tally { S.clean shelf.new → (most : ℕ)
            → reads (pass_to place.now (S.state shelf.old).content) place.now.meter.0
            place.now.register most → (S.state shelf.new).tally ≤ (S.state shelf.old).tally + most }
        ensures asked { IsOnlyAsked S.Shelf (failures_told result) shelf.old shelf.new };
}

// Gathers what the meters of an account give in stretches of time, each from its begin on, up to
// and without that of the next; the last one up to and without an end.
//
// It asks each meter for its starts, and of those that are the account's in the stretches each
// register that counts.
pub(crate) fn gather<S: Shelf, G: Gathers>(
    book: &mut Book<S>,
    alloc: Global,
    account: AccountId,
    begins: &[Instant],
    end: u32,
    gathered: &mut G,
) -> Result<(), BookFault>
    requires stretches { AreStretches begins.now end }
    requires few { G.fits 0 gathered.old }
    ensures gathered { S.clean book.new.shelf → OnOk result
        (IsGathered G.adds (pass_of book.old.office (S.state book.old.shelf).content account
        begins.now end) gathered.old gathered.new) }
    ensures cost { S.clean book.new.shelf → (most : ℕ → ℕ)
        → AreEnoughToGather G.reads
        (pass_of book.old.office (S.state book.old.shelf).content account begins.now end) most
        → (S.state book.new.shelf).tally
        ≤ (S.state book.old.shelf).tally + office_reads book.old.office most }
    ensures question { IsQuestion S.Shelf result book.old book.new }
{
    book.still_open()?;
    let basis = Basis {
        alloc,
        office: &book.office,
        zone: &book.zone,
    };
    let last = last_before(begins[0], end);
    let stretches = Stretches {
        account,
        begins,
        last,
    };
    gather_held(&mut book.shelf, &basis, &stretches, gathered)?;
    Ok(())
}

// The last instant before a second that is behind an instant.
fn last_before(from: Instant, until: u32) -> Instant
    requires later { from < until }
    requires ended { until ≤ END_SECOND }
    ensures { result + 1 ≡ until }
{
    let _begun = from.seconds();
    Instant::of(until - 1).unwrap()
}

// Gathers what all meters give.
fn gather_held<S: Shelf, G: Gathers>(
    shelf: &mut S,
    basis: &Basis,
    stretches: &Stretches,
    gathered: &mut G,
) -> Result<(), ShelfFault>
    requires idle { IsNone (S.state shelf.old).begun }
    requires stretches { AreStretches stretches.now.begins.now (stretches.now.last + 1) }
    requires sound { S.clean shelf.old → IsSoundPass
        (pass_over basis.now.office.now (S.state shelf.old).content stretches.now) }
    requires few { G.fits 0 gathered.old }
    ensures gathered { S.clean shelf.new → OnOk result
        (IsGathered G.adds (pass_over basis.now.office.now (S.state shelf.old).content
        stretches.now) gathered.old gathered.new) }
    ensures tally { S.clean shelf.new → (most : ℕ → ℕ)
        → AreEnoughToGather G.reads
        (pass_over basis.now.office.now (S.state shelf.old).content stretches.now) most
        → (S.state shelf.new).tally
        ≤ (S.state shelf.old).tally + office_reads basis.now.office.now most }
    ensures asked { IsOnlyAsked S.Shelf (failures_told result) shelf.old shelf.new }
{
    for meter in 0..basis.office.meters() {
        gather_meter(shelf, basis, stretches, MeterId(meter), gathered)?;
    }
    Ok(())
}

// Gathers what a meter gives: nothing where it is never the account's.
fn gather_meter<S: Shelf, G: Gathers>(
    shelf: &mut S,
    basis: &Basis,
    stretches: &Stretches,
    meter: MeterId,
    gathered: &mut G,
) -> Result<(), ShelfFault>
    requires able { CanAskOf S.Shelf basis.now.office.now stretches.now meter.0 shelf.old }
    requires few { (n : ℕ) × (n + 6 ≤ 6 * 2 ^ 16) × G.fits n gathered.old }
    ensures few { (n : ℕ) → G.fits n gathered.old
        → OnOk result (FitsMore G.fits (n + 6) gathered.new) }
    ensures step { S.clean shelf.new → OnOk result
        (MeterAdds G.adds (pass_over basis.now.office.now (S.state shelf.old).content
        stretches.now) meter.0 gathered.old gathered.new) }
    ensures tally { S.clean shelf.new → IsSoundPass
        (pass_over basis.now.office.now (S.state shelf.old).content stretches.now) → (most : ℕ)
        → IsEnoughToGather G.reads
        (pass_over basis.now.office.now (S.state shelf.old).content stretches.now) meter.0 most
        → (S.state shelf.new).tally ≤ (S.state shelf.old).tally + most }
    ensures asked { IsOnlyAsked S.Shelf (failures_told result) shelf.old shelf.new }
{
    let starts = starts_held(shelf, basis.alloc, meter)?;
    let named = named(basis.alloc, &starts, stretches)?;
    if !name_somebody(&named) {
        return Ok(());
    }
    match Owners::of(&named) {
        Some(owners) => gather_registers(shelf, basis, stretches, meter, &owners, gathered),
        // Only those of a store that isn't clean fail to rise.
        None => Ok(()),
    }
}

// Gathers what the registers of a meter give, under owners that name the stretches.
fn gather_registers<'a, S: Shelf, G: Gathers>(
    shelf: &mut S,
    basis: &'a Basis<'a>,
    stretches: &'a Stretches<'a>,
    meter: MeterId,
    owners: &'a Owners<'a>,
    gathered: &mut G,
) -> Result<(), ShelfFault>
    requires able { CanAskOf S.Shelf basis.now.office.now stretches.now meter.0 shelf.old }
    requires few { (n : ℕ) × (n + 6 ≤ 6 * 2 ^ 16) × G.fits n gathered.old }
    ensures few { (n : ℕ) → G.fits n gathered.old
        → OnOk result (FitsMore G.fits (n + 6) gathered.new) }
    ensures steps { S.clean shelf.new → OnOk result
        (RegistersAdd G.adds (pass_over basis.now.office.now (S.state shelf.old).content
        stretches.now) meter.0 owners.now gathered.old gathered.new) }
    ensures tally { S.clean shelf.new → (each : AnyRegister → ℕ)
        → ((r : AnyRegister) → G.reads
        (pass_over basis.now.office.now (S.state shelf.old).content stretches.now) meter.0 r
        (each r)) → (S.state shelf.new).tally
        ≤ (S.state shelf.old).tally + meter_reads basis.now.office.now meter.0 each }
    ensures asked { IsOnlyAsked S.Shelf (failures_told result) shelf.old shelf.new }
{
    for register in &Register::ALL {
        let place = Place {
            basis,
            stretches,
            meter,
            owners,
            register: *register,
        };
        gather_register(shelf, &place, gathered)?;
    }
    Ok(())
}

// Gathers what a register gives: nothing where it doesn't count.
fn gather_register<S: Shelf, G: Gathers>(
    shelf: &mut S,
    place: &Place,
    gathered: &mut G,
) -> Result<(), ShelfFault>
    requires able { CanAskAt S.Shelf place.now shelf.old }
    requires few { (n : ℕ) × (n < 6 * 2 ^ 16) × G.fits n gathered.old }
    ensures few { (n : ℕ) → G.fits n gathered.old
        → OnOk result (FitsMore G.fits (n + 1) gathered.new) }
    ensures step { S.clean shelf.new → OnOk result
        (RegisterAdds G.adds (pass_to place.now (S.state shelf.old).content) place.now.meter.0
        place.now.owners.now (register_place place.now.register) gathered.old gathered.new) }
    ensures tally { S.clean shelf.new → (each : AnyRegister → ℕ)
        → G.reads (pass_to place.now (S.state shelf.old).content) place.now.meter.0
        place.now.register (each place.now.register)
        → (S.state shelf.new).tally
        ≤ (S.state shelf.old).tally
        + counted_reads place.now.basis.now.office.now place.now.meter.0 each place.now.register }
    ensures asked { IsOnlyAsked S.Shelf (failures_told result) shelf.old shelf.new }
{
    if place.basis.office.counts(place.meter, place.register) {
        gathered.add_register(shelf, place)
    } else {
        Ok(())
    }
}
