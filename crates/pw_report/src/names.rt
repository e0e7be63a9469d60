//! The names of an office, for texts.

ghost use Rattle.std.specs.Prelude.{◌≡◌, ◌<◌, ◌∷◌, Some, [], length, slice_get};
ghost use Rattle.pw_report.specs.Names.{account_name as name_of_account, band_name, meter_name as name_of_meter};
ghost use Rattle.pw_tariff.specs.Office.{period_starts, periods_in};

use pw_tariff::{AccountId, BandId, MeterId, Office, PeriodId};
use pw_time::Instant;

// The name of an account, nothing where the office has no such.
pub(crate) fn account_name(office: &Office, account: AccountId) -> &[u8]
    ensures { result.now ≡ name_of_account office.now account.0 }
{
    if account.0 < office.accounts() {
        office.account_name(account).as_bytes()
    } else {
        b""
    }
}

// The id of a meter, nothing where the office has no such.
pub(crate) fn meter_name(office: &Office, meter: MeterId) -> &[u8]
    ensures { result.now ≡ name_of_meter office.now meter.0 }
{
    if meter.0 < office.meters() {
        office.meter_name(meter).as_bytes()
    } else {
        b""
    }
}

// The letter by which texts name a band of the office.
pub(crate) fn band_letter(office: &Office, band: BandId) -> u8
    requires { band.0 < length office.now.bands }
    ensures { result ∷ [] ≡ band_name office.now band.0 }
{
    prove!(band.0 < office.bands());
    office.band_name(band) as u8
}

// The first instant of a period.
pub(crate) fn start_of(office: &Office, period: PeriodId) -> Instant
    requires { period.0 < periods_in office.now }
    ensures { slice_get (period_starts office.now) period.0 ≡ Some result }
{
    let _known = office.periods();
    match Instant::of(office.period_start(period)) {
        Some(start) => start,
        None => unreachable!(),
    }
}
