//! What a new office file says otherwise than the old one.

ghost use Rattle.std.specs.Prelude.{◌≡◌, ◌<◌, ◌⊎◌, ◌↔◌, ℕ, [], ◌∷◌, Some, IfOk, IfSome, IfNone, IsTrue, OnOk, length, slice_get};
ghost use Rattle.pw_tariff.specs.Office.{IsSound, periods_in};
ghost use Rattle.pw_moving.specs.declared.change.Change.TheVariants as change;
ghost use Rattle.pw_moving.specs.declared.change.Listed.TheVariants.{Bands};
ghost use Rattle.pw_moving.specs.Changes.{AreChanges, Differs, HaveSameWeek, IsOfBoth, list_place};
ghost use Rattle.pw_moving.specs.Names.{names_in};
ghost use Rattle.pw_moving.specs.inner.Comparing.{AreOfLine, AreOfList, AreOfMeter, AreOfName, AreOfRegisters, AreOfBands, AreOfPlace, AreOfPrice, Puts};

use crate::change::{Change, Listed};
use pw_obis::Register;
use pw_tariff::{AccountId, BandId, Direction, MeterId, Office, PeriodId};
use pw_time::{Clock, WeekHour};
use std::alloc::{AllocError, Global};

/// What a new office file says otherwise than the old one: all changes, in the order of the lists (accounts, meters,
/// bands, periods) and of the lines of each. Where there is none, the two differ at most in texts that no rule reads.
/// It fails only where memory is refused.
pub fn changes_between(alloc: Global, old: &Office, new: &Office) -> Result<Vec<Change>, AllocError>
    ensures { IfOk result (λ changes. AreChanges (record { old = old.now; new = new.now })
        changes.items) }
{
    let mut changes = Vec::new(alloc);
    put_list(&mut changes, old, new, Listed::Accounts)?;
    put_list(&mut changes, old, new, Listed::Meters)?;
    put_list(&mut changes, old, new, Listed::Bands)?;
    put_periods(&mut changes, old, new)?;
    Ok(changes)
}

// ---- lists whose lines have names

// How many lines a list has.
fn count(office: &Office, list: Listed) -> u16
    ensures count { result ≡ length (names_in list office.now) }
    ensures sound { IsSound office.now }
{
    match list {
        Listed::Accounts => office.accounts(),
        Listed::Meters => office.meters(),
        Listed::Bands => u16::from(office.bands()),
    }
}

// The letter of the band at a place.
pub(crate) fn band_letter(office: &Office, place: u16) -> u8
    requires { place < length office.now.bands }
    ensures { slice_get (names_in Bands office.now) place ≡ Some (result ∷ []) }
{
    prove!(place < u16::from(office.bands()));
    office.band_name(BandId(place as u8)) as u8
}

// Whether the line at a place of the old list has the name of the one at a place of the new list.
fn is_same_name(old: &Office, new: &Office, list: Listed, from: u16, to: u16) -> bool
    requires from { from < length (names_in list old.now) }
    requires to { to < length (names_in list new.now) }
    ensures { IsTrue result ↔ (slice_get (names_in list old.now) from
        ≡ slice_get (names_in list new.now) to) }
{
    match list {
        Listed::Accounts => { old.account_name(AccountId(from)) == new.account_name(AccountId(to)) }
        Listed::Meters => old.meter_name(MeterId(from)) == new.meter_name(MeterId(to)),
        Listed::Bands => band_letter(old, from) == band_letter(new, to),
    }
}

// The other place of the new list at which a name of the old one stands, if there is one.
fn moved_to(old: &Office, new: &Office, list: Listed, from: u16) -> Option<u16>
    requires { from < length (names_in list old.now) }
    ensures some { IfSome result (λ to. Differs (record { old = old.now; new = new.now })
        (change.Moved list from to)) }
    ensures none { IfNone result ((to : ℕ) → Differs (record { old = old.now; new = new.now })
        (change.Moved list from to) → ⊥) }
{
    for to in 0..count(new, list) {
        if to != from && is_same_name(old, new, list, from, to) {
            return Some(to);
        }
    }
    None
}

// Puts the changes of a list.
fn put_list(
    changes: &mut Vec<Change>,
    old: &Office,
    new: &Office,
    list: Listed,
) -> Result<(), AllocError>
    ensures { OnOk result (Puts (AreOfList (record { old = old.now; new = new.now })
        (list_place list)) changes.old.items changes.new.items) }
{
    for place in 0..count(old, list).max(count(new, list)) {
        put_line(changes, old, new, list, place)?;
    }
    Ok(())
}

// Puts the changes of a line.
fn put_line(
    changes: &mut Vec<Change>,
    old: &Office,
    new: &Office,
    list: Listed,
    place: u16,
) -> Result<(), AllocError>
    ensures { OnOk result (Puts (AreOfLine (record { old = old.now; new = new.now })
        (list_place list) place) changes.old.items changes.new.items) }
{
    put_name(changes, old, new, list, place)?;
    match list {
        Listed::Meters => {
            if place < old.meters().min(new.meters()) {
                put_meter(changes, old, new, MeterId(place))?;
            }
            Ok(())
        }
        _ => Ok(()),
    }
}

// Puts the changes of a line's name.
fn put_name(
    changes: &mut Vec<Change>,
    old: &Office,
    new: &Office,
    list: Listed,
    place: u16,
) -> Result<(), AllocError>
    ensures { OnOk result (Puts (AreOfName (record { old = old.now; new = new.now })
        (list_place list) place) changes.old.items changes.new.items) }
{
    let (olds, news) = (count(old, list), count(new, list));
    if olds <= place {
        if place < news {
            changes.push(Change::Added { list, place })?;
        }
        return Ok(());
    }
    put_at_place(changes, old, new, list, place)?;
    if let Some(to) = moved_to(old, new, list, place) {
        changes.push(Change::Moved {
            list,
            from: place,
            to,
        })?;
    }
    Ok(())
}

// Puts that a line of the old list is gone, or that another name stands at its place.
fn put_at_place(
    changes: &mut Vec<Change>,
    old: &Office,
    new: &Office,
    list: Listed,
    place: u16,
) -> Result<(), AllocError>
    requires { place < length (names_in list old.now) }
    ensures { OnOk result (Puts (AreOfPlace (record { old = old.now; new = new.now }) list place)
        changes.old.items changes.new.items) }
{
    if count(new, list) <= place {
        changes.push(Change::Gone { list, place })?;
    } else if !is_same_name(old, new, list, place, place) {
        changes.push(Change::Renamed { list, place })?;
    }
    Ok(())
}

// Puts the changes of what a meter of both is beside its name.
fn put_meter(
    changes: &mut Vec<Change>,
    old: &Office,
    new: &Office,
    meter: MeterId,
) -> Result<(), AllocError>
    requires old { meter.0 < length old.now.meters }
    requires new { meter.0 < length new.now.meters }
    ensures { OnOk result (Puts (AreOfMeter (record { old = old.now; new = new.now }) meter.0)
        changes.old.items changes.new.items) }
{
    if !is_same_clock(old.clock(meter), new.clock(meter)) {
        changes.push(Change::Clock { meter })?;
    }
    put_registers(changes, old, new, meter)
}

// Whether two clocks tell the same time.
fn is_same_clock(old: Clock, new: Clock) -> bool
    ensures { IsTrue result ↔ (old ≡ new) }
{
    old == new
}

// Puts the registers of a meter of both that count in one alone.
fn put_registers(
    changes: &mut Vec<Change>,
    old: &Office,
    new: &Office,
    meter: MeterId,
) -> Result<(), AllocError>
    requires old { meter.0 < length old.now.meters }
    requires new { meter.0 < length new.now.meters }
    ensures { OnOk result (Puts (AreOfRegisters (record { old = old.now; new = new.now }) meter.0 6)
        changes.old.items changes.new.items) }
{
    for register in &Register::ALL {
        let register = *register;
        if old.counts(meter, register) != new.counts(meter, register) {
            changes.push(Change::Register { meter, register })?;
        }
    }
    Ok(())
}

// ---- periods

// Puts the changes of periods.
fn put_periods(changes: &mut Vec<Change>, old: &Office, new: &Office) -> Result<(), AllocError>
    ensures { OnOk result (Puts (AreOfList (record { old = old.now; new = new.now }) 3)
        changes.old.items changes.new.items) }
{
    for period in 0..old.periods().max(new.periods()) {
        put_period(changes, old, new, PeriodId(period))?;
    }
    Ok(())
}

// Puts the changes of a period of one or of both.
fn put_period(
    changes: &mut Vec<Change>,
    old: &Office,
    new: &Office,
    period: PeriodId,
) -> Result<(), AllocError>
    requires { (period.0 < periods_in old.now) ⊎ (period.0 < periods_in new.now) }
    ensures { OnOk result (Puts (AreOfLine (record { old = old.now; new = new.now }) 3 period.0)
        changes.old.items changes.new.items) }
{
    if old.periods() <= period.0 {
        changes.push(Change::NewPeriod { period })?;
        return Ok(());
    }
    if new.periods() <= period.0 {
        changes.push(Change::PeriodGone { period })?;
        return Ok(());
    }
    if old.period_start(period) != new.period_start(period) {
        changes.push(Change::Start { period })?;
    }
    if !is_same_week(old, new, period) {
        changes.push(Change::Week { period })?;
    }
    put_prices(changes, old, new, period)
}

// Whether the weeks of a period have the same bands, by their places.
fn is_same_week(old: &Office, new: &Office, period: PeriodId) -> bool
    requires old { period.0 < periods_in old.now }
    requires new { period.0 < periods_in new.now }
    ensures { IsTrue result ↔ HaveSameWeek (record { old = old.now; new = new.now }) period.0 }
{
    for day in 0..7 {
        for hour in 0..24 {
            let at = WeekHour { day, hour };
            if old.band_of_hour(period, at) != new.band_of_hour(period, at) {
                return false;
            }
        }
    }
    true
}

// Puts the prices of a period of both that aren't the same.
fn put_prices(
    changes: &mut Vec<Change>,
    old: &Office,
    new: &Office,
    period: PeriodId,
) -> Result<(), AllocError>
    requires old { period.0 < periods_in old.now }
    requires new { period.0 < periods_in new.now }
    ensures { OnOk result (Puts (AreOfBands (record { old = old.now; new = new.now }) period.0
        (length old.now.bands)) changes.old.items changes.new.items) }
{
    for band in 0..old.bands().min(new.bands()) {
        let band = BandId(band);
        put_price(changes, old, new, period, band, Direction::Import)?;
        put_price(changes, old, new, period, band, Direction::Export)?;
    }
    Ok(())
}

// Puts the price of a band of both, where it isn't the same.
fn put_price(
    changes: &mut Vec<Change>,
    old: &Office,
    new: &Office,
    period: PeriodId,
    band: BandId,
    direction: Direction,
) -> Result<(), AllocError>
    requires period { IsOfBoth period.0 (periods_in old.now) (periods_in new.now) }
    requires band { IsOfBoth band.0 (length old.now.bands) (length new.now.bands) }
    ensures { OnOk result (Puts (AreOfPrice (record { old = old.now; new = new.now }) period band
        direction) changes.old.items changes.new.items) }
{
    if old.price(period, band, direction) != new.price(period, band, direction) {
        changes.push(Change::Price {
            period,
            band,
            direction,
        })?;
    }
    Ok(())
}
