//! Stretches of time, and a meter's owners in them.

ghost use Rattle.std.specs.Prelude.{◌≡◌, ◌++◌, ◌+◌, ◌<◌, ◌≤◌, None, IfOk, OnOk, length, slice_index_or};
ghost use Rattle.std.specs.List.{list_any};
ghost use Rattle.pw_bills.specs.Stretches.{AreStretches};
ghost use Rattle.pw_bills.specs.inner.Naming.{is_behind, name_in, named_from, names_somebody, owner_begun, stretch};

use pw_book::Start;
use pw_tariff::{AccountId, Owner};
use pw_time::Instant;
use std::alloc::{AllocError, Global};

// The stretches of time that are asked for, and whose: where each begins, and the last instant of
// the last one.
#[derive(Drop)]
pub(crate) struct Stretches<'a> {
    pub(crate) account: AccountId,
    pub(crate) begins: &'a [Instant],
    pub(crate) last: Instant,
}

// The starts of a meter's owners in stretches of time: within each the account has the stretch's
// number in place of its own, and all others are nobody, as all are before the stretches and behind
// them.
pub(crate) fn named(
    alloc: Global,
    starts: &[Start],
    stretches: &Stretches,
) -> Result<Vec<Start>, AllocError>
    requires { AreStretches stretches.now.begins.now (stretches.now.last + 1) }
    ensures { IfOk result (λ named. named.items
        ≡ named_from starts.now stretches.now.account 0 stretches.now.begins.now
        (stretches.now.last + 1)) }
{
    let mut named = Vec::new(alloc);
    for number in 0..stretches.begins.len() {
        let until = end_of(stretches.begins, number, stretches.last);
        let from = stretches.begins[number];
        add_stretch(
            &mut named,
            starts,
            stretches.account,
            number as u16,
            from,
            until,
        )?;
    }
    if let Some(behind) = Instant::of(stretches.last.seconds() + 1) {
        named.push((behind, None))?;
    }
    Ok(named)
}

// The second at which a stretch ends.
fn end_of(begins: &[Instant], number: usize, last: Instant) -> u32
    requires { number < length begins.now }
    ensures { result ≡ slice_index_or begins.now (number + 1) (last + 1) }
{
    match begins.get(number + 1) {
        Some(next) => next.seconds(),
        None => last.seconds() + 1,
    }
}

// Adds the starts of one stretch.
fn add_stretch(
    named: &mut Vec<Start>,
    starts: &[Start],
    account: AccountId,
    number: u16,
    from: Instant,
    until: u32,
) -> Result<(), AllocError>
    ensures { IfOk result (λ _. named.new.items
        ≡ named.old.items ++ stretch starts.now account number from until) }
{
    let owner = owner_at(starts, from);
    named.push((from, name_of(owner, account, number)))?;
    for start in starts {
        if lies_behind(start, from, until) {
            named.push((start.0, name_of(start.1, account, number)))?;
        }
    }
    Ok(())
}

// The owner at an instant, of starts in order.
pub(crate) fn owner_at(starts: &[Start], instant: Instant) -> Owner
    ensures { result ≡ owner_begun None starts.now instant }
{
    let mut owner = None;
    for start in starts {
        if start.0 <= instant {
            owner = start.1;
        }
    }
    owner
}

// An owner under the number of a stretch.
fn name_of(owner: Owner, account: AccountId, number: u16) -> Owner
    ensures { result ≡ name_in account number owner }
{
    match owner {
        Some(other) if other.0 == account.0 => Some(AccountId(number)),
        _ => None,
    }
}

// Whether a start is behind an instant and before a second.
pub(crate) fn lies_behind(start: &Start, from: Instant, until: u32) -> bool
    ensures { result ≡ is_behind from until start.now }
{
    from < start.0 && start.0.seconds() < until
}

// Whether somebody owns the meter at any time.
pub(crate) fn name_somebody(starts: &[Start]) -> bool
    ensures { result ≡ list_any names_somebody starts.now }
{
    starts.iter().any(|start| start.1.is_some())
}
