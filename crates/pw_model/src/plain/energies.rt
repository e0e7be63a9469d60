//! The energy of an owner in a band, of all periods or of one.

ghost use Rattle.std.specs.Prelude.{◌≡◌, ◌<◌, ◌≤◌, All, IfOk, length};
ghost use Rattle.pw_flow.specs.Energy.{register_energy};
ghost use Rattle.pw_flow.specs.Plain.{value_at};
ghost use Rattle.pw_flow.specs.Time.{AreInTime};
ghost use Rattle.pw_tariff.specs.Office.{office_of};
ghost use Rattle.pw_model.specs.Counting.{contents_at as held_at};
ghost use Rattle.pw_model.specs.Energy.{energy as energy_of, energy_in_period, energy_where, meter_share, asked_seconds, share_of};
ghost use Rattle.pw_model.specs.Office.{AllOfOffice, IsOffice, most_records};
ghost use Rattle.pw_model.specs.inner.Search.{at_instants};
ghost use Rattle.pw_model.specs.inner.Tariff.{asked_of, in_tariff};
ghost use Rattle.pw_tariff.specs.Owners.{same_owner};
ghost use Rattle.pw_time.specs.Instants.{IsInstant};
ghost use Rattle.pw_time.specs.declared.instant.TheConstants.{END_SECOND as the_end};

use super::points::points_of;
use super::search::owner_at;
use super::terms::OfficeTerms;
use crate::records::Entry;
use pw_flow::plain::Point;
use pw_obis::Register;
use pw_tariff::{BandId, Direction, MeterId, Owner, PeriodId};
use pw_time::Instant;
use std::alloc::{AllocError, Global};

/// The energy of an owner in a band, in Wh.
pub fn energy(
    alloc: Global,
    terms: &OfficeTerms<'_>,
    entries: &[Entry],
    owner: Owner,
    band: BandId,
    direction: Direction,
) -> Result<u64, AllocError>
    requires office { IsOffice (office_of terms.now) }
    requires entries { AllOfOffice (office_of terms.now) entries.now }
    requires few { length entries.now ≤ most_records }
    ensures { IfOk result (λ wh. wh ≡ energy_of (office_of terms.now) entries.now owner band.0
        direction) }
{
    energy_asked(alloc, terms, entries, owner, None, band, direction)
}

/// The energy of an owner in a band within a period, in Wh.
pub fn energy_in(
    alloc: Global,
    terms: &OfficeTerms<'_>,
    entries: &[Entry],
    owner: Owner,
    period: PeriodId,
    band: BandId,
    direction: Direction,
) -> Result<u64, AllocError>
    requires office { IsOffice (office_of terms.now) }
    requires entries { AllOfOffice (office_of terms.now) entries.now }
    requires few { length entries.now ≤ most_records }
    ensures { IfOk result (λ wh. wh ≡ energy_in_period (office_of terms.now) entries.now owner
        period.0 band.0 direction) }
{
    energy_asked(alloc, terms, entries, owner, Some(period), band, direction)
}

// The energy of an owner in a band, within a period where one is named.
fn energy_asked(
    alloc: Global,
    terms: &OfficeTerms<'_>,
    entries: &[Entry],
    owner: Owner,
    period: Option<PeriodId>,
    band: BandId,
    direction: Direction,
) -> Result<u64, AllocError>
    requires office { IsOffice (office_of terms.now) }
    requires entries { AllOfOffice (office_of terms.now) entries.now }
    requires few { length entries.now ≤ most_records }
    ensures { IfOk result (λ wh. wh ≡ energy_where (office_of terms.now) (held_at entries.now)
        direction (asked_of (office_of terms.now) owner period band.0)) }
{
    let mut total = 0;
    for meter in 0..terms.meters() {
        total += meter_energy(
            alloc,
            terms,
            entries,
            MeterId(meter),
            owner,
            period,
            band,
            direction,
        )?;
    }
    Ok(total)
}

// What an owner gets of the registers of a meter that show a direction: of the whole one and of both rates.
fn meter_energy(
    alloc: Global,
    terms: &OfficeTerms<'_>,
    entries: &[Entry],
    meter: MeterId,
    owner: Owner,
    period: Option<PeriodId>,
    band: BandId,
    direction: Direction,
) -> Result<u64, AllocError>
    requires office { IsOffice (office_of terms.now) }
    requires entries { AllOfOffice (office_of terms.now) entries.now }
    requires few { length entries.now ≤ most_records }
    requires meter { meter.0 < (office_of terms.now).meters }
    ensures { IfOk result (λ wh. wh ≡ meter_share (office_of terms.now) (held_at entries.now)
        direction (asked_of (office_of terms.now) owner period band.0) meter.0) }
{
    let [total, first, second] = match direction {
        Direction::Import => [Register::I0, Register::I1, Register::I2],
        Direction::Export => [Register::E0, Register::E1, Register::E2],
    };
    let total = register_share(alloc, terms, entries, meter, total, owner, period, band)?;
    let first = register_share(alloc, terms, entries, meter, first, owner, period, band)?;
    let second = register_share(alloc, terms, entries, meter, second, owner, period, band)?;
    Ok(total + first + second)
}

// What an owner gets of a register of a meter: nothing where the register doesn't count.
fn register_share(
    alloc: Global,
    terms: &OfficeTerms<'_>,
    entries: &[Entry],
    meter: MeterId,
    register: Register,
    owner: Owner,
    period: Option<PeriodId>,
    band: BandId,
) -> Result<u64, AllocError>
    requires office { IsOffice (office_of terms.now) }
    requires entries { AllOfOffice (office_of terms.now) entries.now }
    requires few { length entries.now ≤ most_records }
    requires meter { meter.0 < (office_of terms.now).meters }
    ensures share { IfOk result (λ wh. wh ≡ share_of (office_of terms.now) (held_at entries.now)
        (asked_of (office_of terms.now) owner period band.0) meter.0 register) }
    ensures bound { IfOk result (λ wh. wh ≤ 999999999990000000) }
{
    if !terms.counts(meter, register) {
        return Ok(0);
    }
    let points = points_of(alloc, entries, meter, register)?;
    let energy = points_energy(terms, entries, meter, owner, period, band, &points);
    Ok(energy as u64)
}

// The energy of points over the seconds of a meter with this owner and band, within a period where one is named.
fn points_energy(
    terms: &OfficeTerms<'_>,
    entries: &[Entry],
    meter: MeterId,
    owner: Owner,
    period: Option<PeriodId>,
    band: BandId,
    points: &[Point],
) -> u128
    requires rising { AreInTime (λ p. p.at) points.now }
    requires instants { All (λ p. IsInstant p.at) points.now }
    ensures { result ≡ register_energy (asked_seconds (held_at entries.now)
        (asked_of (office_of terms.now) owner period band.0) meter.0) (value_at points.now)
        the_end }
{
    pw_flow::plain::energy(
        points,
        |second: u32| -> bool
            ensures { result ≡ at_instants (asked_seconds (held_at entries.entry.now)
                (asked_of (office_of terms.entry.now) owner period band.0) meter.0) second }
        { is_of(terms, entries, meter, owner, period, band, second) },
    )
}

// Whether a second is an instant of this owner and band, within a period where one is named.
fn is_of(
    terms: &OfficeTerms<'_>,
    entries: &[Entry],
    meter: MeterId,
    owner: Owner,
    period: Option<PeriodId>,
    band: BandId,
    second: u32,
) -> bool
    ensures { result ≡ at_instants (asked_seconds (held_at entries.now)
        (asked_of (office_of terms.now) owner period band.0) meter.0) second }
{
    let Some(instant) = Instant::of(second) else {
        return false;
    };
    is_same_owner(owner_at(entries, meter, second), owner)
        && is_in_tariff(terms, period, band, instant)
}

// Whether an instant is one of a band, within a period where one is named.
#[tactic(auto, unfolding(crate::specs::inner::Tariff::in_tariff))]
fn is_in_tariff(
    terms: &OfficeTerms<'_>,
    period: Option<PeriodId>,
    band: BandId,
    instant: Instant,
) -> bool
    ensures { result ≡ in_tariff (office_of terms.now) period band.0 instant }
{
    match period {
        None => terms.band(instant).0 == band.0,
        Some(period) => terms.period(instant).0 == period.0 && terms.band(instant).0 == band.0,
    }
}

// Whether two owners are one: the same account, or nobody both.
fn is_same_owner(a: Owner, b: Owner) -> bool
    ensures { result ≡ same_owner a b }
{
    match (a, b) {
        (None, None) => true,
        (Some(a), Some(b)) => a.0 == b.0,
        _ => false,
    }
}
