//! Points, starts and totals, read one at a time and compared with a list.

ghost use Rattle.std.specs.Prelude.{◌≡◌, ◌↔◌, [], ◌∷◌, IfNone, IfSome, IsTrue, Some, filter};
ghost use Rattle.std.specs.Option.{option_copied};
ghost use Rattle.std.specs.declared.cmp.Ordering.TheVariants.{Less};
ghost use Rattle.pw_model.specs.Same.{key_order, total_order};
ghost use Rattle.pw_schema.specs.Judges.{HasCompared, HasSummed, IsRest, is_above_zero};

use crate::judge::{Judge, JudgeFault, see_behind};
use crate::judging::{record_in, total_in};
use crate::kind::{RecordKind, TotalKind};
use pw_model::{Entry, TotalKey, compare_keys, compare_totals};
use pw_tariff::Office;
use sqlite::Row;
use std::cmp::Ordering;

/// Takes rows in the order of their keys that are points or starts of an office, with no key twice, and compares them
/// with a list.
#[derive(Drop)]
pub struct KeptEntries<'a> {
    office: &'a Office,
    kind: RecordKind,
    last: Option<Entry>,
    rest: Option<&'a [Entry]>,
}

/// Takes rows in the order of their keys that are totals of an office, with no key twice, and compares those above 0
/// with a list.
#[derive(Drop)]
pub struct KeptTotals<'a> {
    office: &'a Office,
    kind: TotalKind,
    last: Option<TotalKey>,
    rest: Option<&'a [(TotalKey, u64)]>,
}

fn is_same_entry(a: &Entry, b: &Entry) -> bool
    ensures { IsTrue result ↔ a.now ≡ b.now }
{
    a == b
}

fn is_same_total(a: &(TotalKey, u64), b: &(TotalKey, u64)) -> bool
    ensures { IsTrue result ↔ a.now ≡ b.now }
{
    a == b
}

// What of the list stands behind the entry, where the list begins with it.
fn behind_entry<'a>(rest: Option<&'a [Entry]>, entry: &Entry) -> Option<&'a [Entry]>
    ensures { IsRest (option_copied rest.entry) (entry.now ∷ []) (option_copied result) }
{
    let (first, others) = rest?.split_first()?;
    if is_same_entry(first, entry) {
        Some(others)
    } else {
        None
    }
}

// What of the list stands behind the total, where the list begins with it. A total of 0 stands in no list.
fn behind_total<'a>(
    rest: Option<&'a [(TotalKey, u64)]>,
    total: &(TotalKey, u64),
) -> Option<&'a [(TotalKey, u64)]>
    ensures { IsRest (option_copied rest.entry) (filter is_above_zero (total.now ∷ []))
        (option_copied result) }
{
    if total.1 == 0 {
        return rest;
    }
    let (first, others) = rest?.split_first()?;
    if is_same_total(first, total) {
        Some(others)
    } else {
        None
    }
}

// How the key of the last entry, if there is one, stands to that of the next.
fn place_of_key(last: &Option<Entry>, entry: &Entry) -> Ordering
    ensures some { IfSome last.now (λ l. key_order l.key entry.now.key ≡ result) }
    ensures none { IfNone last.now (result ≡ Less) }
{
    match last {
        Some(last) => compare_keys(&last.key, &entry.key),
        None => Ordering::Less,
    }
}

// How the last key of a total, if there is one, stands to the next.
fn place_of_total(last: &Option<TotalKey>, key: &TotalKey) -> Ordering
    ensures some { IfSome last.now (λ l. total_order l key.now ≡ result) }
    ensures none { IfNone last.now (result ≡ Less) }
{
    match last {
        Some(last) => compare_totals(last, key),
        None => Ordering::Less,
    }
}

impl<'a> KeptEntries<'a> {
    /// No row is taken yet.
    pub fn new(office: &'a Office, kind: RecordKind, expected: &'a [Entry]) -> KeptEntries<'a>
        ensures office { result.office.now ≡ office.now }
        ensures kind { result.kind ≡ kind }
        ensures rest { option_copied result.rest ≡ Some expected.now }
        ensures start { HasCompared result [] result }
    {
        KeptEntries {
            office,
            kind,
            last: None,
            rest: Some(expected),
        }
    }

    /// Whether the rows taken are those of the list, and all of them.
    pub fn is_at_end(&self) -> bool
        ensures { IsTrue result ↔ option_copied self.now.rest ≡ Some [] }
    {
        match self.rest {
            Some(rest) => rest.is_empty(),
            None => false,
        }
    }
}

impl<'a> KeptTotals<'a> {
    /// No row is taken yet. The list is none where it has differed before.
    pub fn new(
        office: &'a Office,
        kind: TotalKind,
        expected: Option<&'a [(TotalKey, u64)]>,
    ) -> KeptTotals<'a>
        ensures office { result.office.now ≡ office.now }
        ensures kind { result.kind ≡ kind }
        ensures rest { result.rest ≡ expected.entry }
        ensures start { HasSummed result [] result }
    {
        KeptTotals {
            office,
            kind,
            last: None,
            rest: expected,
        }
    }

    /// What of the list stands behind the rows taken, where it begins with those above 0.
    pub fn rest(&self) -> Option<&'a [(TotalKey, u64)]>
        ensures { result ≡ self.now.rest }
    {
        self.rest
    }
}

impl Judge for KeptEntries<'_> {
    ghost use Rattle.pw_tariff.specs.Office.{office_of};
    ghost use Rattle.pw_schema.specs.Judging.{AreKept};

    ghost took = { HasCompared };

    ghost refuses = { λ first rows. AreKept (office_of first.office.now) first.kind rows → ⊥ };

    fn take(&mut self, row: &Row) -> Result<(), JudgeFault> {
        let Some(entry) = record_in(self.office, self.kind, row) else {
            return Err(JudgeFault::Foreign);
        };
        see_behind(place_of_key(&self.last, &entry))?;
        self.rest = behind_entry(self.rest, &entry);
        self.last = Some(entry);
        Ok(())
    }
}

impl Judge for KeptTotals<'_> {
    ghost use Rattle.pw_tariff.specs.Office.{office_of};
    ghost use Rattle.pw_schema.specs.Judging.{AreTotals};

    ghost took = { HasSummed };

    ghost refuses = { λ first rows. AreTotals (office_of first.office.now) first.kind rows → ⊥ };

    fn take(&mut self, row: &Row) -> Result<(), JudgeFault> {
        let Some(total) = total_in(self.office, self.kind, row) else {
            return Err(JudgeFault::Foreign);
        };
        let key = total.0;
        see_behind(place_of_total(&self.last, &key))?;
        self.rest = behind_total(self.rest, &total);
        self.last = Some(key);
        Ok(())
    }
}
