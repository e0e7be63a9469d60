//! The lists of records that a store tells, one behind another.

ghost use Rattle.std.specs.Prelude.{◌≡◌, ◌+◌, ◌*◌, ◌<◌, IfOk, IsNone};
ghost use Rattle.pw_tariff.specs.Office.{office_of};
ghost use Rattle.pw_model.specs.Kinds.{IsReadingOf, ListsHeld};
ghost use Rattle.pw_model.specs.Office.{AllOfOffice};
ghost use Rattle.pw_shelf.specs.Calls.{failures_told};
ghost use Rattle.pw_book.specs.Asking.{IsOnlyAsked};
ghost use Rattle.pw_carrying.specs.inner.Stages.{IsListOf, IsOfList, list_place};

use pw_model::Entry;
use pw_obis::Register;
use pw_shelf::{Shelf, ShelfFault};
use pw_tariff::{MeterId, Office};
use std::alloc::Global;

// A list of records that a store tells.
#[derive(Clone, Copy)]
pub(crate) enum HeldList {
    Readings { meter: MeterId, register: Register },
    Assignments { meter: MeterId },
    TopUps,
    Withdrawals,
}

// How many lists a store tells of an office.
pub(crate) fn list_count(office: &Office) -> u32
    ensures { result ≡ 7 * (office_of office.now).meters + 2 }
{
    7 * u32::from(office.meters()) + 2
}

// The list at a place: the readings of each meter by their registers first, then the assignments of each, then top-ups, then
// withdrawals.
pub(crate) fn list_at(office: &Office, place: u32) -> HeldList
    requires { place < 7 * (office_of office.now).meters + 2 }
    ensures of { IsListOf (office_of office.now).meters result }
    ensures place { list_place (office_of office.now).meters result ≡ place }
{
    let meters = u32::from(office.meters());
    if place < 6 * meters {
        return HeldList::Readings {
            meter: MeterId((place / 6) as u16),
            register: Register::ALL[(place % 6) as usize],
        };
    }
    if place < 7 * meters {
        return HeldList::Assignments {
            meter: MeterId((place - 6 * meters) as u16),
        };
    }
    if place == 7 * meters {
        HeldList::TopUps
    } else {
        HeldList::Withdrawals
    }
}

// The records of a list, sorted: none of a register that doesn't count, as then none is held.
pub(crate) fn records_in<S: Shelf>(
    alloc: Global,
    shelf: &mut S,
    office: &Office,
    list: HeldList,
) -> Result<Vec<Entry>, ShelfFault>
    requires idle { IsNone (S.state shelf.old).begun }
    requires list { IsListOf (office_of office.now).meters list }
    ensures rows { S.clean shelf.new → AllOfOffice (office_of office.now)
        (S.state shelf.old).content.records
        → IfOk result (λ found. ListsHeld (IsOfList list) (S.state shelf.old).content.records
        found.items) }
    ensures asked { IsOnlyAsked S.Shelf (failures_told result) shelf.old shelf.new }
{
    match list {
        HeldList::Readings { meter, register } => {
            readings_held(alloc, shelf, office, meter, register)
        }
        HeldList::Assignments { meter } => shelf.assignments_of(alloc, meter),
        HeldList::TopUps => shelf.topups(alloc),
        HeldList::Withdrawals => shelf.withdrawals(alloc),
    }
}

// The readings of a register.
fn readings_held<S: Shelf>(
    alloc: Global,
    shelf: &mut S,
    office: &Office,
    meter: MeterId,
    register: Register,
) -> Result<Vec<Entry>, ShelfFault>
    requires idle { IsNone (S.state shelf.old).begun }
    requires meter { meter.0 < (office_of office.now).meters }
    ensures rows { S.clean shelf.new → AllOfOffice (office_of office.now)
        (S.state shelf.old).content.records
        → IfOk result (λ found. ListsHeld (IsReadingOf meter register)
        (S.state shelf.old).content.records found.items) }
    ensures asked { IsOnlyAsked S.Shelf (failures_told result) shelf.old shelf.new }
{
    if office.counts(meter, register) {
        shelf.readings_of(alloc, meter, register)
    } else {
        Ok(Vec::new(alloc))
    }
}
