//! The laws of shelves.
//!
//! Each function does nothing but call, if that. What counts is its contract, which is proved for every shelf, for every
//! shelf in memory, or for every counting shelf.

ghost use Rattle.std.specs.Prelude.{◌≡◌, ◌+◌, ◌↔◌, None, Some, IsOk, IsSome};
ghost use Rattle.pw_model.specs.Shelf.{ShelfContent};
ghost use Rattle.pw_model.specs.Counting.{EachOnce};
ghost use Rattle.pw_shelf.specs.Count.{rise_told, with_refused};
ghost use Rattle.pw_shelf.specs.State.{committed};

use crate::count::CountShelf;
use crate::fault::ShelfFault;
use crate::memory::MemoryShelf;
use crate::shelf::Shelf;

/// Each record is held once.
pub fn records_are_each_once<S: Shelf>(shelf: &S)
    requires { S.clean shelf.now }
    ensures { EachOnce (S.state shelf.now).content.records }
{}

/// A crash leaves something: what is said of all that it may leave is never said of nothing.
pub fn a_crash_leaves_something<S: Shelf>(shelf: &S)
    requires { S.clean shelf.now }
    ensures { ¬ ((c : ShelfContent) → ¬ (S.left shelf.now c)) }
{}

/// Of a store in memory a crash leaves what was committed last, and this alone: so that can always be left. (Of other
/// stores it isn't said: a device that has failed unseen may leave less.)
pub fn memory_leaves_what_was_committed(shelf: &MemoryShelf)
    ensures { (c : ShelfContent) → ⟦<MemoryShelf as Shelf>⟧.left shelf.now c
        ↔ (c ≡ committed (⟦<MemoryShelf as Shelf>⟧.state shelf.now)) }
{}

/// Memory returns what was written to it, and no device and no `abandon` of it ever fails.
pub fn memory_never_fails(shelf: &MemoryShelf)
    ensures clean { ⟦<MemoryShelf as Shelf>⟧.clean shelf.now }
    ensures failures { (⟦<MemoryShelf as Shelf>⟧.state shelf.now).failures ≡ 0 }
    ensures abandons { (⟦<MemoryShelf as Shelf>⟧.state shelf.now).failed_abandons ≡ 0 }
{}

/// An upload to a store in memory can always be abandoned, and gives back the content that it began with.
pub fn memory_abandons(shelf: &mut MemoryShelf) -> Result<(), ShelfFault>
    requires { IsSome (⟦<MemoryShelf as Shelf>⟧.state shelf.old).begun }
    ensures succeeds { IsOk result }
    ensures ended { (⟦<MemoryShelf as Shelf>⟧.state shelf.new).begun ≡ None }
    ensures back { (⟦<MemoryShelf as Shelf>⟧.state shelf.old).begun
        ≡ Some (⟦<MemoryShelf as Shelf>⟧.state shelf.new).content }
    ensures tally { (⟦<MemoryShelf as Shelf>⟧.state shelf.new).tally
        ≡ (⟦<MemoryShelf as Shelf>⟧.state shelf.old).tally + 1 }
{
    shelf.abandon()
}

/// A counting shelf is its inner one: it holds what that holds, and a crash leaves of it what it leaves of that; it has
/// returned what was written where that has. Its counts and its tally are those of the inner one, with the calls that it
/// refused itself.
pub fn counting_shelf_is_its_inner_one<S: Shelf>(shelf: &CountShelf<S>)
    ensures state { ⟦<CountShelf<S> as Shelf>⟧.state shelf.now
        ≡ with_refused (S.state shelf.now.inner) shelf.now.refused.count
        shelf.now.refused_abandons.count }
    ensures left { (c : ShelfContent) → ⟦<CountShelf<S> as Shelf>⟧.left shelf.now c
        ↔ S.left shelf.now.inner c }
    ensures clean { ⟦<CountShelf<S> as Shelf>⟧.clean shelf.now ↔ S.clean shelf.now.inner }
{}

/// A counting shelf is the same behind calls: it was made around the same shelf, and its inner one is the same store.
pub fn counting_shelf_stays<S: Shelf>(old: &CountShelf<S>, new: &CountShelf<S>)
    ensures { ⟦<CountShelf<S> as Shelf>⟧.same_store old.now new.now
        ↔ ((new.now.made.value ≡ old.now.made.value) × S.same_store old.now.inner new.now.inner) }
{}

/// What a counting shelf has seen behind any calls is how far its tally rose since it was made, up to the greatest number
/// of 64 bits. It asks for the shelf as it was made, which then stood as the one that it was made around.
pub fn seen_since_it_was_made<S: Shelf>(made: &CountShelf<S>, shelf: &CountShelf<S>) -> u64
    requires made { ⟦<CountShelf<S> as Shelf>⟧.state made.now ≡ S.state made.now.made.value }
    requires store { ⟦<CountShelf<S> as Shelf>⟧.same_store made.now shelf.now }
    ensures { result ≡ rise_told (⟦<CountShelf<S> as Shelf>⟧.state made.now)
        (⟦<CountShelf<S> as Shelf>⟧.state shelf.now) }
{
    let _ = made;
    shelf.seen()
}
