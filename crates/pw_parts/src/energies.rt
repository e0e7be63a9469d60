//! What the meters of an office give to the totals.

ghost use Rattle.std.specs.Prelude.{◌≡◌, ℕ, ◌<◌, OnOk, length};
ghost use Rattle.pw_model.specs.Counting.{contents_at as held_at};
ghost use Rattle.pw_model.specs.Energy.{owner_at as owner_told};
ghost use Rattle.pw_tariff.specs.Office.{office_of};
ghost use Rattle.pw_tariff.specs.Owners.{owner_by_starts};
ghost use Rattle.pw_parts.specs.inner.Given.{AreCounted, energies_given, meter_given, register_given};
ghost use Rattle.pw_parts.specs.inner.Totals.{HasRoom, IsGiven};

use crate::basis::Basis;
use crate::by_second::{readings_shown, starts_given};
use crate::changes::{Changes, Side};
use crate::pairs::add_pairs;
use crate::places::{assignments_of, readings_of};
use pw_model::{Entry, direction_of};
use pw_obis::Register;
use pw_tariff::{MeterId, Owners};
use std::alloc::AllocError;

// Gives each owner, period and band what flows for them through all meters, told by records in order that all count.
pub(crate) fn add_meters(
    totals: &mut Changes,
    basis: &Basis,
    records: &[Entry],
) -> Result<(), AllocError>
    requires counted { AreCounted (office_of basis.now.office.now) records.now }
    requires room { HasRoom (energies_given (office_of basis.now.office.now) records.now)
        totals.old.rows }
    ensures { OnOk result (IsGiven (energies_given (office_of basis.now.office.now) records.now)
        totals.old.rows totals.new.rows) }
{
    for meter in 0..basis.office.meters() {
        add_meter(totals, basis, records, MeterId(meter))?;
    }
    Ok(())
}

// Gives each owner, period and band what flows for them through a meter.
fn add_meter(
    totals: &mut Changes,
    basis: &Basis,
    records: &[Entry],
    meter: MeterId,
) -> Result<(), AllocError>
    requires counted { AreCounted (office_of basis.now.office.now) records.now }
    requires meter { meter.0 < length basis.now.office.now.meters }
    requires room { HasRoom (meter_given (office_of basis.now.office.now) records.now meter.0)
        totals.old.rows }
    ensures { OnOk result (IsGiven
        (meter_given (office_of basis.now.office.now) records.now meter.0)
        totals.old.rows totals.new.rows) }
{
    let assignments = assignments_of(records, meter);
    let starts = starts_given(basis.alloc, assignments)?;
    let Some(owners) = Owners::of(&starts) else {
        unreachable!();
    };
    for register in &Register::ALL {
        add_register(totals, basis, &owners, records, meter, *register)?;
    }
    Ok(())
}

// Gives each owner, period and band what flows for them in a register of a meter with these owners: nothing where the
// register doesn't count.
fn add_register(
    totals: &mut Changes,
    basis: &Basis,
    owners: &Owners,
    records: &[Entry],
    meter: MeterId,
    register: Register,
) -> Result<(), AllocError>
    requires counted { AreCounted (office_of basis.now.office.now) records.now }
    requires meter { meter.0 < length basis.now.office.now.meters }
    requires owners { (t : ℕ) → owner_by_starts owners.now t
        ≡ owner_told (held_at records.now) meter.0 t }
    requires room { HasRoom (register_given (office_of basis.now.office.now) records.now meter.0
        register)
        totals.old.rows }
    ensures { OnOk result (IsGiven
        (register_given (office_of basis.now.office.now) records.now meter.0
        register) totals.old.rows totals.new.rows) }
{
    if !basis.office.counts(meter, register) {
        return Ok(());
    }
    let readings = readings_of(records, meter, register);
    let points = readings_shown(basis.alloc, readings)?;
    let direction = direction_of(register);
    add_pairs(
        basis.alloc,
        basis.office,
        basis.zone,
        owners,
        direction,
        &points,
        Side::Gains,
        totals,
    )
}
