//! A table that has to be empty.

use crate::judge::{Judge, JudgeFault};
use sqlite::Row;

/// The judge of a table that has to be empty: it refuses each row.
#[derive(Drop)]
pub struct NoRows;

impl Judge for NoRows {
    ghost use Rattle.std.specs.Prelude.{◌≡◌, []};

    ghost took = { λ first rows judge. rows ≡ [] };

    ghost refuses = { λ first rows. rows ≡ [] → ⊥ };

    fn take(&mut self, _row: &Row) -> Result<(), JudgeFault> {
        Err(JudgeFault::Foreign)
    }
}
