//! Where a record stands among those in order.

use pw_obis::Register;
use pw_tariff::MeterId;

// The readings of registers stand first, then the assignments of meters, then the top-ups, then the withdrawals.
#[derive(Clone, Copy, PartialEq, Eq, PartialOrd, Ord)]
pub(crate) enum Place {
    Readings(MeterId, Register),
    Assignments(MeterId),
    TopUps,
    Withdrawals,
}
