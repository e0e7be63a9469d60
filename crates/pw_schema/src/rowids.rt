//! Rowids, read one at a time.

ghost use Rattle.std.specs.Prelude.{◌≡◌, [], IfSome};
ghost use Rattle.std.specs.Ordering.{int_cmp};
ghost use Rattle.std.specs.declared.cmp.Ordering.TheVariants.{Less};
ghost use Rattle.sqlite.specs.declared.types.Value.TheVariants.{Int};
ghost use Rattle.sqlite.specs.Order.{column};
ghost use Rattle.pw_schema.specs.Judges.{HasRisen};

use crate::judge::{Judge, JudgeFault};
use sqlite::Row;
use sqlite::types::ValueRef;
use std::cmp::Ordering;

/// Takes rows that show rowids, each above the one before: then none stands there twice.
#[derive(Drop)]
pub struct Rowids {
    last: Option<i64>,
}

fn rowid_of(row: &Row) -> Option<i64>
    ensures { IfSome result (λ id. column row.now 0 ≡ Int id) }
{
    match row.get_ref(0) {
        Ok(ValueRef::Int(id)) => Some(id),
        _ => None,
    }
}

// The rowid that a row shows, if it stands behind the last one.
fn next_rowid(last: &Option<i64>, row: &Row) -> Option<i64>
    ensures shown { IfSome result (λ id. column row.now 0 ≡ Int id) }
    ensures above { IfSome result (λ id. IfSome last.now (λ l. int_cmp l id ≡ Less)) }
{
    let id = rowid_of(row)?;
    match last {
        Some(last) => match last.cmp(&id) {
            Ordering::Less => Some(id),
            _ => None,
        },
        None => Some(id),
    }
}

impl Rowids {
    /// No row is taken yet.
    pub fn new() -> Rowids
        ensures { HasRisen result [] result }
    {
        Rowids { last: None }
    }
}

impl Judge for Rowids {
    ghost took = { HasRisen };

    ghost refuses = { λ first rows. ⊥ };

    fn take(&mut self, row: &Row) -> Result<(), JudgeFault> {
        let next = next_rowid(&self.last, row);
        if next.is_none() {
            return Err(JudgeFault::Unordered);
        }
        self.last = next;
        Ok(())
    }
}
