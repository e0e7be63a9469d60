//! A number that contracts alone know.

ghost use Rattle.std.specs.Prelude.{◌≡◌, ℕ, ◌+◌};
ghost use base.Fml.{ftrue};

use std::marker::{Model, PhantomData};
use std::mem::replace;

/// A whole number without bound, that contracts alone know: nothing at run time keeps it, and it takes no bytes.
///
/// A shelf counts with it the calls made of it and the rows that it gave.
#[derive(Drop)]
pub struct Tally {
    marker: PhantomData<()>,
    pub ghost count: { ℕ },
}

impl Model for Tally {
    ghost also_owns = { λ _. ftrue };
}

// Nothing counted yet. (It is a function of its own for its proof, written by hand, as `later` is.)
fn zero() -> Tally
    ensures { result.count ≡ 0 }
{
    Tally {
        marker: PhantomData,
    }
}

// One call more than before, and the rows that it gave.
fn later(old: Tally, rows: u64) -> Tally
    ensures { result.count ≡ old.count + 1 + rows }
{
    Tally {
        marker: PhantomData,
    }
}

impl Tally {
    /// Nothing counted yet.
    pub fn new() -> Tally
        ensures { result.count ≡ 0 }
    {
        zero()
    }

    /// One call more, and the rows that it gave.
    pub fn tick(&mut self, rows: u64)
        ensures { self.new.count ≡ self.old.count + 1 + rows }
    {
        let old = replace(self, zero());
        *self = later(old, rows);
    }
}
