//! An account with an interval of time, or with stretches of time one behind another.

ghost use Rattle.std.specs.Prelude.{◌≡◌, ◌<◌, ◌≤◌, ◌+◌, IsTrue, slice_index_or, length};
ghost use Rattle.pw_time.specs.declared.instant.TheConstants.{END_SECOND as END};
ghost use Rattle.pw_bills.specs.Stretches.{AreStretches};

use pw_tariff::AccountId;
use pw_time::{END_SECOND, Instant};

// From an instant on, up to and without a later second.
#[derive(Drop)]
pub(crate) struct Interval {
    pub(crate) account: AccountId,
    pub(crate) from: Instant,
    pub(crate) until: u32,
    ghost later: { from < until },
    ghost ended: { until ≤ END },
}

impl Interval {
    pub(crate) fn of(account: AccountId, from: Instant, until: u32) -> Option<Interval> {
        if until <= from.seconds() || until > END_SECOND {
            return None;
        }
        Some(Interval {
            account,
            from,
            until,
        })
    }
}

// Where each begins, and where the last one ends.
#[derive(Drop)]
pub(crate) struct Stretches {
    pub(crate) account: AccountId,
    pub(crate) begins: Vec<Instant>,
    pub(crate) end: u32,
    ghost rising: { AreStretches begins.items end },
}

impl Stretches {
    pub(crate) fn of(account: AccountId, begins: Vec<Instant>, end: u32) -> Option<Stretches> {
        if are_stretches(&begins, end) {
            Some(Stretches {
                account,
                begins,
                end,
            })
        } else {
            None
        }
    }
}

// Whether there is one or more, of a second or more each.
fn are_stretches(begins: &[Instant], end: u32) -> bool
    ensures { IsTrue result → AreStretches begins.now end }
{
    if begins.is_empty() || begins.len() > 65_536 || end > END_SECOND {
        return false;
    }
    for number in 0..begins.len() {
        if end_of(begins, number, end) <= begins[number].seconds() {
            return false;
        }
    }
    true
}

// The second at which a stretch ends.
fn end_of(begins: &[Instant], number: usize, end: u32) -> u32
    requires { number < length begins.now }
    ensures { result ≡ slice_index_or begins.now (number + 1) end }
{
    match begins.get(number + 1) {
        Some(next) => next.seconds(),
        None => end,
    }
}
