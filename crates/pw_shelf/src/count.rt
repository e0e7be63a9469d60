//! A shelf that counts what is asked of the one inside it, and that fails where it is told to.

ghost use Rattle.std.specs.Prelude.{◌≡◌, ◌+◌, ◌↔◌, false};
ghost use Rattle.pw_model.specs.Shelf.{ShelfContent};
ghost use Rattle.pw_shelf.specs.Plan.{plan_of};
ghost use Rattle.pw_shelf.specs.Count.{rise_told};

use crate::counter::Counter;
use crate::plan::Plan;
use crate::shelf::Shelf;
use crate::tally::Tally;
use std::snapshot::Snapshot;

/// A shelf that passes each call on to the one inside it, and counts the calls made of it and the rows that they gave.
///
/// It is a means of tests: [`CountShelf::failing`] makes one whose device fails at a given call.
#[derive(Drop)]
pub struct CountShelf<S: Shelf> {
    pub(crate) inner: S,
    // the inner shelf as it was when this one was made
    pub(crate) made: Snapshot<S>,
    pub(crate) counter: Counter,
    pub(crate) plan: Plan,
    // the calls that it refused itself, and those of `abandon` among them
    pub(crate) refused: Tally,
    pub(crate) refused_abandons: Tally,
    ghost counted: { (S.state inner).tally + refused.count ≡ (S.state made.value).tally + counter.rise.count },
}

impl<S: Shelf> CountShelf<S> {
    /// Around a shelf, with nothing counted yet. It takes no memory.
    pub fn new(inner: S) -> CountShelf<S>
        ensures plan { result.plan ≡ plan_of 0 false }
        ensures made { result.made.value ≡ inner }
        ensures state { ⟦<CountShelf<S> as Shelf>⟧.state result ≡ S.state inner }
        ensures left { (c : ShelfContent) → ⟦<CountShelf<S> as Shelf>⟧.left result c
            ↔ S.left inner c }
        ensures clean { ⟦<CountShelf<S> as Shelf>⟧.clean result ↔ S.clean inner }
    {
        CountShelf::failing(inner, 0, false)
    }

    /// Around a shelf, with nothing counted yet. Its call number `fail_at`, counted from 1, answers `Device` and isn't
    /// passed on; none does at 0. Where `abandon_fails`, each `abandon` behind that call answers `Device` too. It takes
    /// no memory.
    pub fn failing(inner: S, fail_at: u32, abandon_fails: bool) -> CountShelf<S>
        ensures plan { result.plan ≡ plan_of fail_at abandon_fails }
        ensures made { result.made.value ≡ inner }
        ensures state { ⟦<CountShelf<S> as Shelf>⟧.state result ≡ S.state inner }
        ensures left { (c : ShelfContent) → ⟦<CountShelf<S> as Shelf>⟧.left result c
            ↔ S.left inner c }
        ensures clean { ⟦<CountShelf<S> as Shelf>⟧.clean result ↔ S.clean inner }
    {
        let made = Snapshot::of(&inner);
        CountShelf {
            inner,
            made,
            counter: Counter::new(),
            plan: Plan::new(fail_at, abandon_fails),
            refused: Tally::new(),
            refused_abandons: Tally::new(),
        }
    }

    /// The calls made of it and the rows that they gave since it was made, up to the greatest number of 64 bits.
    pub fn seen(&self) -> u64
        ensures { result ≡ rise_told (S.state self.now.made.value)
            (⟦<CountShelf<S> as Shelf>⟧.state self.now) }
    {
        self.counter.seen()
    }

    /// The shelf inside, as it is.
    pub fn into_inner(self) -> S
        ensures { result ≡ self.inner }
    {
        self.inner
    }
}
