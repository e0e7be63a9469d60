//! What a counting shelf counts.

ghost use Rattle.std.specs.Prelude.{◌≡◌, ◌+◌, ◌-◌, ◌^◌, min};

use crate::tally::Tally;

/// Calls and rows, up to the greatest number of 64 bits.
#[derive(Drop)]
pub struct Counter {
    seen: u64,
    pub(crate) rise: Tally,
    ghost told: { seen ≡ min rise.count (2 ^ 64 - 1) },
}

impl Counter {
    // Nothing counted yet.
    pub(crate) fn new() -> Counter
        ensures { result.rise.count ≡ 0 }
    {
        Counter {
            seen: 0,
            rise: Tally::new(),
        }
    }

    // One call more, and the rows that it gave.
    pub(crate) fn tick(&mut self, rows: u64)
        ensures { self.new.rise.count ≡ self.old.rise.count + 1 + rows }
    {
        self.seen = self.seen.saturating_add(1).saturating_add(rows);
        self.rise.tick(rows);
    }

    // What is counted.
    pub(crate) fn seen(&self) -> u64
        ensures { result ≡ min self.now.rise.count (2 ^ 64 - 1) }
    {
        self.seen
    }
}
