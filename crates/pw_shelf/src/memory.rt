//! The store in memory.

ghost use Rattle.std.specs.Prelude.{◌≡◌, None, false};
ghost use Rattle.pw_model.specs.Shelf.{no_content};
ghost use Rattle.pw_shelf.specs.Left.{LeavesOnly};
ghost use Rattle.pw_shelf.specs.Content.{content_now, content_then};

use crate::kept::Kept;
use crate::shelf::Shelf;
use crate::tally::Tally;
use std::alloc::Global;

/// A store in memory: a set and maps in order, and while an upload is begun what it changed of them.
///
/// Of its calls only `add`, those that put or take away and those that answer a list take memory; `begin`, `commit` and
/// `abandon` always succeed.
pub struct MemoryShelf {
    pub(crate) kept: Kept,
    // an upload is begun
    pub(crate) begun: bool,
    pub(crate) tally: Tally,
    ghost settled: { begun ≡ false → content_then kept ≡ content_now kept },
}

// It is written out, so that a caller doesn't prove again how each part is dropped.
impl Drop for MemoryShelf {
    fn drop(self) {
        let MemoryShelf {
            kept: _,
            begun: _,
            tally: _,
        } = self;
    }
}

impl MemoryShelf {
    /// An empty store, which keeps the allocator and takes no memory yet.
    pub fn new(alloc: Global) -> MemoryShelf
        ensures content { (⟦<MemoryShelf as Shelf>⟧.state result).content ≡ no_content }
        ensures begun { (⟦<MemoryShelf as Shelf>⟧.state result).begun ≡ None }
        ensures tally { (⟦<MemoryShelf as Shelf>⟧.state result).tally ≡ 0 }
        ensures left { LeavesOnly no_content (⟦<MemoryShelf as Shelf>⟧.left result) }
    {
        MemoryShelf {
            kept: Kept::new(alloc),
            begun: false,
            tally: Tally::new(),
        }
    }
}
