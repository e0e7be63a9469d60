//! Energy in whole watt-hours.

ghost use Rattle.std.specs.Prelude.{◌≡◌, ◌<◌, ◌≤◌, IfSome, IfNone};

use std::marker::Model;

/// The largest energy that a register can show, in Wh: eleven nines.
pub const LARGEST_WATT_HOURS: u64 = 99_999_999_999;

/// A cumulative register's energy in Wh, at most [`LARGEST_WATT_HOURS`].
#[derive(Clone, Copy, PartialEq, Eq, PartialOrd, Ord, Hash, Debug)]
pub struct WattHours {
    value: u64,
}

impl Model for WattHours {
    ghost use Rattle.std.specs.Prelude.{ℕ, ◌≤◌};
    ghost use Rattle.pw_obis.specs.declared.energy.TheConstants.{LARGEST_WATT_HOURS};

    ghost Value = { ℕ };

    ghost view = { λ w. w.value };

    ghost invariant = { λ w. w.value ≤ LARGEST_WATT_HOURS };

    ghost inverse = { λ n. record { value = n } };
}

impl WattHours {
    /// So many Wh, or `None` above the largest value.
    pub fn of(value: u64) -> Option<WattHours>
        ensures some { IfSome result (λ energy. (energy ≡ value) × (energy ≤ LARGEST_WATT_HOURS)) }
        ensures none { IfNone result (LARGEST_WATT_HOURS < value) }
    {
        if value <= LARGEST_WATT_HOURS {
            Some(WattHours { value })
        } else {
            None
        }
    }

    /// The number of Wh.
    pub fn get(self) -> u64
        ensures value { result ≡ self }
        ensures bound { result ≤ LARGEST_WATT_HOURS }
    {
        self.value
    }
}
