//! What the sets of a frame show of the registers that count.

ghost use Rattle.std.specs.Prelude.{◌≡◌, ◌≢◌, ◌<◌, ◌+◌, ◌++◌, ℕ, List, Option, Some, None, IfOk, IfErr, IfSome, OnOk, MatchOption, Ok, Err, length};
ghost use Rattle.std.specs.Bool.{OnTrue, OnFalse};
ghost use Rattle.pw_obis.specs.Address.{IsCodeOf};
ghost use Rattle.pw_record.specs.Shown.{AreShown, HasWrongSet, Measures, reading_of, readings_of};
ghost use Rattle.pw_record.specs.inner.Shown.{IsUnlike};
ghost use Rattle.pw_record.specs.inner.Shown.{IsNoted};
ghost use Rattle.pw_record.specs.inner.Shown.{shown_in};
ghost use Rattle.pw_record.specs.inner.Shown.{MeasuresNothing};
ghost use Rattle.pw_obis.specs.inner.Given.{set_text};

use crate::fault::Cause;
use crate::order::append;
use crate::origin::Origin;
use pw_model::{Content, Entry, Key, register_place};
use pw_obis::{Block, Register, Set, ValueFault, WattHours, first_value, register, watt_hours};
use pw_tariff::{MeterId, Office};
use std::alloc::AllocError;

/// What is shown of each register, by its place.
pub type Shown = [Option<WattHours>; 6];

// A register and what it shows.
#[derive(Clone, Copy, Debug)]
struct Reading {
    register: Register,
    wh: WattHours,
}

/// What the sets of a block show of the registers that count for a meter.
pub fn all_shown(office: &Office, meter: MeterId, block: &Block) -> Result<Shown, Cause>
    requires meter { meter.0 < length office.now.meters }
    ensures ok { IfOk result (λ shown. AreShown office.now meter.0 block.now (shown_in shown)) }
    ensures err { IfErr result (HasWrongSet office.now meter.0 block.now) }
{
    let mut shown = [None; 6];
    'sets: for set in block.sets() {
        let Some(reading) = measured(office, meter, &set)? else {
            continue;
        };
        if !note(&mut shown, reading) {
            return Err(Cause::RegisterTwice);
        }
    }
    Ok(shown)
}

// What a set shows, if it is of a register that counts for the meter.
fn measured(office: &Office, meter: MeterId, set: &Set) -> Result<Option<Reading>, ValueFault>
    requires meter { meter.0 < length office.now.meters }
    requires code { IsCodeOf set.now.address.now set.now.code }
    ensures ok { IfOk result (λ reading. MatchOption reading
        (MeasuresNothing office.now meter.0 (set_text set.now))
        (λ r. Measures office.now meter.0 (set_text set.now) r.register (Ok r.wh))) }
    ensures err { IfErr result (λ fault. (r : Register)
        × Measures office.now meter.0 (set_text set.now) r (Err fault)) }
{
    let Some(code) = set.code else {
        return Ok(None);
    };
    let Some(register) = register(&code) else {
        return Ok(None);
    };
    if !office.counts(meter, register) {
        return Ok(None);
    }
    let wh = watt_hours(first_value(set))?;
    Ok(Some(Reading { register, wh }))
}

// Notes what a register shows; `false` where it is shown already, and otherwise.
fn note(shown: &mut Shown, reading: Reading) -> bool
    ensures noted { OnTrue result (IsNoted shown.old shown.new reading.register reading.wh) }
    ensures unlike { OnFalse result (IsUnlike shown.old reading.register reading.wh) }
{
    let place = register_place(reading.register) as usize;
    match shown[place] {
        None => {
            shown[place] = Some(reading.wh);
            true
        }
        Some(wh) => wh == reading.wh,
    }
}

/// Whether no register is shown.
pub fn is_nothing_shown(shown: &Shown) -> bool
    ensures nothing { OnTrue result ((r : Register) → shown_in shown.now r ≡ None) }
    ensures some { OnFalse result ((r : Register) × (wh : ℕ) × (shown_in shown.now r ≡ Some wh)) }
{
    for register in Register::ALL {
        if shown[register_place(register) as usize].is_some() {
            return false;
        }
    }
    true
}

/// Puts the reading of each register that is shown behind the entries.
pub fn put_readings(
    given: &mut Vec<Entry>,
    origin: &Origin,
    shown: &Shown,
) -> Result<(), AllocError>
    ensures { OnOk result (given.new.items
        ≡ given.old.items ++ readings_of origin.now.meter.0 origin.now.instant
        (shown_in shown.now)) }
{
    put_reading(given, origin, shown, Register::I0)?;
    put_reading(given, origin, shown, Register::I1)?;
    put_reading(given, origin, shown, Register::I2)?;
    put_reading(given, origin, shown, Register::E0)?;
    put_reading(given, origin, shown, Register::E1)?;
    put_reading(given, origin, shown, Register::E2)?;
    Ok(())
}

// Puts the reading of one register behind the entries, where it is shown.
fn put_reading(
    given: &mut Vec<Entry>,
    origin: &Origin,
    shown: &Shown,
    register: Register,
) -> Result<(), AllocError>
    ensures { OnOk result (given.new.items
        ≡ given.old.items ++ reading_of origin.now.meter.0 origin.now.instant register
        (shown_in shown.now register)) }
{
    let Some(wh) = shown[register_place(register) as usize] else {
        return Ok(());
    };
    let Origin { meter, instant } = *origin;
    let key = Key::Reading {
        meter,
        register,
        instant,
    };
    append(given, key, Content::Reading { wh })
}
