//! The records of a table, read one at a time.

ghost use Rattle.std.specs.Prelude.{◌≡◌, [], IfNone, IfSome};
ghost use Rattle.std.specs.declared.cmp.Ordering.TheVariants.{Less};
ghost use Rattle.pw_model.specs.Same.{entry_order};
ghost use Rattle.pw_schema.specs.Judges.{HasRead};

use crate::judge::{Judge, JudgeFault, see_behind};
use crate::judging::record_in;
use crate::kind::RecordKind;
use pw_model::{Entry, compare_entries};
use pw_tariff::Office;
use sqlite::Row;
use std::alloc::Global;
use std::cmp::Ordering;

/// Takes rows in order that are records of an office, each once, and keeps the records.
#[derive(Drop)]
pub struct Records<'a> {
    office: &'a Office,
    kind: RecordKind,
    found: Vec<Entry>,
    last: Option<Entry>,
}

// How the last entry, if there is one, stands to the next.
fn place_of(last: &Option<Entry>, entry: &Entry) -> Ordering
    ensures some { IfSome last.now (λ l. entry_order l entry.now ≡ result) }
    ensures none { IfNone last.now (result ≡ Less) }
{
    match last {
        Some(last) => compare_entries(last, entry),
        None => Ordering::Less,
    }
}

impl<'a> Records<'a> {
    /// No row is taken yet.
    pub fn new(alloc: Global, office: &'a Office, kind: RecordKind) -> Records<'a>
        ensures office { result.office.now ≡ office.now }
        ensures kind { result.kind ≡ kind }
        ensures start { HasRead result [] result }
    {
        Records {
            office,
            kind,
            found: Vec::new(alloc),
            last: None,
        }
    }

    /// The records of the rows taken, in their order.
    pub fn into_entries(self) -> Vec<Entry>
        ensures { result ≡ self.entry.found }
    {
        self.found
    }
}

impl Judge for Records<'_> {
    ghost use Rattle.pw_tariff.specs.Office.{office_of};
    ghost use Rattle.pw_schema.specs.Judging.{AreRecords};

    ghost took = { HasRead };

    ghost refuses = { λ first rows. AreRecords (office_of first.office.now) first.kind rows → ⊥ };

    fn take(&mut self, row: &Row) -> Result<(), JudgeFault> {
        let Some(entry) = record_in(self.office, self.kind, row) else {
            return Err(JudgeFault::Foreign);
        };
        see_behind(place_of(&self.last, &entry))?;
        match self.found.push(entry) {
            Ok(()) => {}
            Err(_) => return Err(JudgeFault::Memory),
        }
        self.last = Some(entry);
        Ok(())
    }
}
