//! The starts of a meter, and what they are with another one.

ghost use Rattle.std.specs.Prelude.{◌≡◌, ◌==◌, ◌++◌, ℕ, Option, IfOk, cond, nat_lt};
ghost use Rattle.std.specs.List.{filter};
ghost use Rattle.pw_tariff.specs.declared.ids.AccountId.{AccountId as AnAccount};
ghost use Rattle.pw_tariff.specs.Owners.{StartsIncrease};
ghost use Rattle.pw_model.specs.Seconds.{ListsSeconds};
ghost use Rattle.pw_book.specs.inner.Settling.{EndsBeforeNext};

use pw_tariff::{Owner, Owners};
use pw_time::{Instant, LAST_SECOND};
use std::alloc::{AllocError, Global};

/// From when on a meter is whose.
pub type Start = (Instant, Owner);

// The starts where from an instant on the meter is this owner's, or where none stands at that instant.
pub(crate) fn with_start(
    alloc: Global,
    starts: &[Start],
    start: Instant,
    owner: Option<Owner>,
) -> Result<Vec<Start>, AllocError>
    ensures { (told : ℕ → Option (Option AnAccount)) → ListsSeconds told starts.now
        → IfOk result (λ with. ListsSeconds (λ t. cond (t == start) owner (told t)) with.items) }
{
    let mut with = Vec::new(alloc);
    add_before(&mut with, starts, start)?;
    if let Some(owner) = owner {
        with.push((start, owner))?;
    }
    add_behind(&mut with, starts, start)?;
    Ok(with)
}

// Adds the starts that stand before an instant.
fn add_before(with: &mut Vec<Start>, starts: &[Start], start: Instant) -> Result<(), AllocError>
    ensures { IfOk result (λ _. with.new.items
        ≡ with.old.items ++ filter (λ s. nat_lt s.0 start) starts.now) }
{
    for held in starts {
        if held.0 < start {
            with.push(*held)?;
        }
    }
    Ok(())
}

// Adds the starts that stand behind an instant.
fn add_behind(with: &mut Vec<Start>, starts: &[Start], start: Instant) -> Result<(), AllocError>
    ensures { IfOk result (λ _. with.new.items
        ≡ with.old.items ++ filter (λ s. nat_lt start s.0) starts.now) }
{
    for held in starts {
        if start < held.0 {
            with.push(*held)?;
        }
    }
    Ok(())
}

// The last instant before the next start behind an instant: the last of all where none stands behind it.
pub(crate) fn until_next(starts: &[Start], from: Instant) -> Instant
    ensures { (told : ℕ → Option (Option AnAccount)) → ListsSeconds told starts.now
        → EndsBeforeNext told from result }
{
    for start in starts {
        if from < start.0 {
            return Instant::of(start.0.seconds() - 1).unwrap();
        }
    }
    Instant::of(LAST_SECOND).unwrap()
}

// The owners with these starts: none where the starts don't rise, as only those of a store that isn't clean can.
pub(crate) fn owners_of<'a>(starts: &'a [Start]) -> Owners<'a>
    ensures { StartsIncrease starts.now → result ≡ starts.now }
{
    match Owners::of(starts) {
        Some(owners) => owners,
        None => Owners::of(&starts[..0]).unwrap(),
    }
}
