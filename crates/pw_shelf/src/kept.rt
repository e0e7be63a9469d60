//! All that a store in memory keeps.

ghost use Rattle.std.specs.Prelude.{◌≡◌};
ghost use Rattle.pw_model.specs.Shelf.{no_content};
ghost use Rattle.pw_shelf.specs.Content.{content_now, content_then};

use crate::held::Held;
use crate::points::Points;
use crate::starts::Starts;
use crate::totals::Totals;
use std::alloc::Global;

/// Records, points, starts and totals, each with what an upload changed.
#[derive(Drop)]
pub struct Kept {
    pub(crate) records: Held,
    pub(crate) points: Points,
    pub(crate) starts: Starts,
    pub(crate) totals: Totals,
}

impl Kept {
    // Nothing.
    pub(crate) fn new(alloc: Global) -> Kept
        ensures now { content_now result ≡ no_content }
        ensures begin { content_then result ≡ no_content }
    {
        Kept {
            records: Held::new(alloc),
            points: Points::new(alloc),
            starts: Starts::new(alloc),
            totals: Totals::new(alloc),
        }
    }

    // Keeps what the upload changed. It takes no memory.
    pub(crate) fn keep(&mut self)
        ensures same { content_now self.new ≡ content_now self.old }
        ensures begin { content_then self.new ≡ content_now self.old }
    {
        self.records.keep();
        self.points.keep();
        self.starts.keep();
        self.totals.keep();
    }

    // Goes back to what was kept when the upload began. It takes no memory.
    pub(crate) fn go_back(&mut self)
        ensures back { content_now self.new ≡ content_then self.old }
        ensures begin { content_then self.new ≡ content_then self.old }
    {
        self.records.go_back();
        self.points.go_back();
        self.starts.go_back();
        self.totals.go_back();
    }
}
