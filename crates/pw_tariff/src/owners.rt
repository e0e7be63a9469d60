//! The owners of a meter over time.

ghost use Rattle.std.specs.Prelude.{◌≡◌, ◌<◌, IfSome, IfNone};
ghost use Rattle.pw_tariff.specs.Owners.{StartsIncrease, owner_by_starts};
ghost use Rattle.pw_tariff.specs.inner.Starts.{AreBegun, IsNextStart};

use crate::Owner;
use pw_time::Instant;
use std::marker::Model;

/// The owners of a meter, each from a start on until the next: who owns it at a second is told by the latest start
/// that isn't later. Before the first start nobody owns it.
///
/// It borrows the list of starts and takes no memory.
#[derive(Drop)]
pub struct Owners<'a> {
    starts: &'a [(Instant, Owner)],
}

impl<'a> Model for Owners<'a> {
    ghost use Rattle.std.specs.Prelude.{ℕ, List, Option};
    ghost use Rattle.pw_tariff.specs.declared.ids.AccountId.{AccountId};
    ghost use Rattle.pw_tariff.specs.Owners.{StartsIncrease};

    ghost Value = { List (ℕ × Option AccountId) };

    ghost view = { λ o. o.starts.now };

    ghost invariant = { λ o. StartsIncrease o.starts.now };
}

impl<'a> Owners<'a> {
    /// The owners with these starts, or `None` where the starts don't rise strictly.
    pub fn of(starts: &'a [(Instant, Owner)]) -> Option<Owners<'a>>
        ensures some { IfSome result (λ owners. (owners ≡ starts.now) × StartsIncrease starts.now) }
        ensures none { IfNone result (¬ (StartsIncrease starts.now)) }
    {
        for i in 1..starts.len() {
            if starts[i].0.seconds() <= starts[i - 1].0.seconds() {
                return None;
            }
        }
        Some(Owners { starts })
    }

    // Who owns the meter at a second.
    pub(crate) fn at(&self, second: u32) -> Owner
        ensures { result ≡ owner_by_starts self.now second }
    {
        let begun = begun(self.starts, second);
        if begun == 0 {
            return None;
        }
        self.starts[begun - 1].1
    }

    // The first start behind a second and before an end, or that end.
    pub(crate) fn next_start(&self, second: u32, end: u32) -> u32
        requires { second < end }
        ensures { IsNextStart self.now second end result }
    {
        let begun = begun(self.starts, second);
        if begun == self.starts.len() {
            return end;
        }
        self.starts[begun].0.seconds().min(end)
    }
}

// How many starts aren't later than a second.
fn begun(starts: &[(Instant, Owner)], second: u32) -> usize
    requires { StartsIncrease starts.now }
    ensures { AreBegun starts.now second result }
{
    starts.partition_point(|(start, _)| start.seconds() <= second)
}
