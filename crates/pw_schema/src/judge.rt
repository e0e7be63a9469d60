//! Who judges the rows of a table, one at a time.

ghost use Rattle.std.specs.Prelude.{◌≡◌, ◌++◌, ◌∷◌, [], Err, List, OnOk};
ghost use Rattle.std.specs.declared.cmp.Ordering.TheVariants.{Less, Equal};
ghost use Rattle.sqlite.specs.Order.{Row as RowSpec};

use sqlite::Row;
use std::cmp::Ordering;

/// Why rows aren't taken for those of an office.
#[derive(Clone, Copy, Debug, PartialEq, Eq)]
pub enum JudgeFault {
    /// Memory was refused.
    Memory,
    /// A row is none of the office, or one that stands there twice.
    Foreign,
    /// The rows don't stand in the order in which they were asked for.
    Unordered,
}

/// Who takes the rows of a table one at a time, in the order in which they were asked for, or refuses them.
pub trait Judge {
    /// What a judge that was the first is, behind these rows.
    ghost took: { Self → List RowSpec → Self → Type 0 };

    /// These rows aren't such that the judge takes them all.
    ghost refuses: { Self → List RowSpec → Type 0 };

    /// Takes the next row, or says why it doesn't. Behind a fault nothing is known of the judge.
    fn take(&mut self, row: &Row) -> Result<(), JudgeFault>
        ensures took { (first : Self) (rows : List RowSpec) → took first rows self.old
            → OnOk result (took first (rows ++ row.now ∷ []) self.new) }
        ensures foreign { (first : Self) (rows tail : List RowSpec) → took first rows self.old
            → result ≡ Err JudgeFault.Foreign → refuses first (rows ++ row.now ∷ tail) };
}

// Whether a row stands behind the last one, by how the last stands to it.
pub(crate) fn see_behind(last: Ordering) -> Result<(), JudgeFault>
    ensures behind { OnOk result (last ≡ Less) }
    ensures twice { result ≡ Err JudgeFault.Foreign → last ≡ Equal }
{
    match last {
        Ordering::Less => Ok(()),
        Ordering::Equal => Err(JudgeFault::Foreign),
        Ordering::Greater => Err(JudgeFault::Unordered),
    }
}
