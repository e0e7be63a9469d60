//! The book over a store of records.

ghost use Rattle.arrayvec.specs.ArrayString.{array_string_len};
ghost use Rattle.pw_book.specs.Acceptance.{acceptance_line};
ghost use Rattle.std.specs.Prelude.{◌≡◌, ◌+◌, ◌<◌, ◌≤◌, ◌↔◌, ◌⊎◌, None, Some, IsErrOf, IsNone, IsTrue, true, false, length};
ghost use Rattle.std.proofs.Props.{props};
ghost use mathlib.Core.HLevel.{Π_prop};
ghost use Rattle.pw_tariff.specs.Office.{office_of};
ghost use Rattle.pw_model.specs.Office.{AllOfOffice, most_records};
ghost use Rattle.pw_model.specs.Shelf.{IsTrueContent};
ghost use Rattle.pw_tariff.specs.Office.{IsSound};
ghost use Rattle.pw_book.specs.Cost.{IsCheap};
ghost use Rattle.pw_book.specs.Posting.{FailuresPosted, IsPosted, LeavesPosted, LeavesSound, failed_in};
ghost use Rattle.pw_book.specs.lemmas.Kept.{AllOfOffice-prop, IsTrueContent-prop};

mod questions;

use crate::basis::Basis;
use crate::fault::PostFault;
use crate::posting::post_to;
use pw_line::{Line, ROOM, line_of, push_number};
use pw_model::{Distinct, Entry};
use pw_shelf::Shelf;
use pw_tariff::Office;
use pw_time::Zone;
use std::alloc::Global;

/// What an accepted upload brought: its distinct entries that weren't held before, and those that were.
#[derive(Clone, Copy, Debug, PartialEq, Eq)]
pub struct Accepted {
    pub fresh: u32,
    pub repeated: u32,
}

impl Accepted {
    /// The acceptance line without its end: how many entries were fresh, and how many repeated.
    pub fn line(self) -> Line
        ensures text { result.bytes ≡ acceptance_line self }
        ensures fits { array_string_len result < ROOM }
    {
        let Accepted { fresh, repeated } = self;
        let mut line = line_of("accepted fresh ");
        push_number(&mut line, fresh as u64);
        line.push_str(" repeated ");
        push_number(&mut line, repeated as u64);
        line
    }
}

/// The book of an office over a store of records: it takes uploads, and answers what the records held mean.
///
/// The office, the zone and the store are lent to the questions of other crates: what they leave of the store keeps the
/// facts below.
pub struct Book<S: Shelf> {
    pub office: Office,
    pub zone: Zone,
    pub shelf: S,
    limit: u32,
    shut: bool,
    ghost limited: { (1 ≤ limit) × (limit ≤ most_records) },
    ghost few: { shut ≡ false → S.clean shelf → length (S.state shelf).content.records ≤ most_records },
    ghost of_office: { shut ≡ false → S.clean shelf → AllOfOffice (office_of office) (S.state shelf).content.records } by { Π_prop λ _. Π_prop λ _. AllOfOffice-prop (office_of office) (S.state shelf).content.records },
    ghost truth: { shut ≡ false → S.clean shelf → IsTrueContent (office_of office) (S.state shelf).content } by { Π_prop λ _. Π_prop λ _. IsTrueContent-prop (office_of office) (S.state shelf).content },
    ghost sound: { IsSound office },
    ghost idle: { shut ≡ false → IsNone (S.state shelf).begun } by { Π_prop λ _. Prim.hlevel props },
}

// It is written out, so that a caller doesn't prove again how each part is dropped.
impl<S: Shelf + Drop> Drop for Book<S> {
    fn drop(self) {
        let Book {
            office: _,
            zone: _,
            shelf: _,
            limit: _,
            shut: _,
        } = self;
    }
}

impl<S: Shelf> Book<S> {
    /// A book of an office over a store, which takes no upload that would leave more records than the limit. It takes no
    /// memory, and leaves the store as it is.
    ///
    /// It asks for a limit of 1 to 10,000,000, and for a store with no upload begun, which holds at most 10,000,000 records,
    /// all of the office, with the points, starts and totals that are theirs. (A store may hold more than the limit: then each upload is answered `Full`.)
    pub fn new(office: Office, zone: Zone, shelf: S, limit: u32) -> Book<S>
        requires least { 1 ≤ limit }
        requires most { limit ≤ most_records }
        requires few { S.clean shelf → length (S.state shelf).content.records ≤ most_records }
        requires of_office { S.clean shelf → AllOfOffice (office_of office)
            (S.state shelf).content.records }
        requires truth { S.clean shelf → IsTrueContent (office_of office) (S.state shelf).content }
        requires idle { (S.state shelf).begun ≡ None }
        ensures office { result.office ≡ office }
        ensures zone { result.zone ≡ zone }
        ensures shelf { result.shelf ≡ shelf }
        ensures limit { result.limit ≡ limit }
        ensures open_yet { result.shut ≡ false }
    {
        Book {
            office,
            zone,
            shelf,
            limit,
            shut: false,
        }
    }

    /// The office whose records the book takes, as its file tells it.
    pub fn office(&self) -> &Office
        ensures { result.now ≡ self.now.office }
    {
        &self.office
    }

    /// The zone of the office's week.
    pub fn zone(&self) -> &Zone
        ensures { result.now ≡ self.now.zone }
    {
        &self.zone
    }

    /// The store, as it stands. Behind `Reopen` an upload may still be begun in it, and what it holds isn't known: it has to be
    /// opened again.
    pub fn into_shelf(self) -> S
        ensures { result ≡ self.shelf }
    {
        let Book {
            office: _,
            zone: _,
            shelf,
            limit: _,
            shut: _,
        } = self;
        shelf
    }

    /// Takes an upload: its entries that aren't held are held from then on. It asks for entries of the office.
    ///
    /// `Full` is answered where the records held and the fresh ones together are more than the limit. After `Full`, `Device` and
    /// `Memory` the records are as before. After `Reopen` the book is shut: each later call that can fail answers `Reopen`. A
    /// crash leaves what it could leave before, or the content with the whole upload; after Ok the latter alone, after `Full`
    /// the former alone.
    pub fn post(&mut self, alloc: Global, entries: &[Entry]) -> Result<Accepted, PostFault>
        requires { AllOfOffice (office_of self.old.office) entries.now }
        ensures posted { S.clean self.new.shelf → IsPosted (office_of self.old.office)
            self.old.limit entries.now (S.state self.old.shelf).content
            (S.state self.new.shelf).content result }
        ensures left { S.clean self.new.shelf → LeavesPosted (office_of self.old.office)
            self.old.limit entries.now (S.state self.old.shelf).content
            (S.state self.new.shelf).content (S.left self.old.shelf) (S.left self.new.shelf)
            result }
        ensures sound { S.clean self.new.shelf → LeavesSound (office_of self.old.office)
            (S.left self.old.shelf) (S.left self.new.shelf) }
        ensures cost { S.clean self.new.shelf → IsCheap (office_of self.old.office) entries.now
            (S.state self.old.shelf).content (S.state self.old.shelf).tally
            (S.state self.new.shelf).tally }
        ensures reopen { IsErrOf result PostFault.Reopen
            ↔ ((self.old.shut ≡ true)
            ⊎ ((S.state self.old.shelf).failed_abandons
            < (S.state self.new.shelf).failed_abandons)) }
        ensures abandons { (S.state self.new.shelf).failed_abandons
            ≡ (S.state self.old.shelf).failed_abandons + failed_in self.old.shut result }
        ensures untouched { self.old.shut ≡ true → self.new.shelf ≡ self.old.shelf }
        ensures shut { (self.new.shut ≡ true) ↔ IsErrOf result PostFault.Reopen }
        ensures begun { S.clean self.new.shelf → self.old.shut ≡ false
            → IsErrOf result PostFault.Reopen
            → (S.state self.new.shelf).begun ≡ Some (S.state self.old.shelf).content }
        ensures failures { FailuresPosted result (S.state self.old.shelf).failures
            (S.state self.new.shelf).failures }
        ensures cleanness { S.clean self.new.shelf → S.clean self.old.shelf }
        ensures store { S.same_store self.old.shelf self.new.shelf }
        ensures book { (self.new.office ≡ self.old.office) × (self.new.zone ≡ self.old.zone)
            × (self.new.limit ≡ self.old.limit) }
    {
        self.still_open()?;
        let distinct = Distinct::of(alloc, entries)?;
        self.post_distinct(alloc, &distinct)
    }

    /// Takes an upload whose entries are in order, each once, as `post` does one of any list. It copies none of them.
    pub fn post_distinct(
        &mut self,
        alloc: Global,
        entries: &Distinct,
    ) -> Result<Accepted, PostFault>
        requires { AllOfOffice (office_of self.old.office) entries.now }
        ensures posted { S.clean self.new.shelf → IsPosted (office_of self.old.office)
            self.old.limit entries.now (S.state self.old.shelf).content
            (S.state self.new.shelf).content result }
        ensures left { S.clean self.new.shelf → LeavesPosted (office_of self.old.office)
            self.old.limit entries.now (S.state self.old.shelf).content
            (S.state self.new.shelf).content (S.left self.old.shelf) (S.left self.new.shelf)
            result }
        ensures sound { S.clean self.new.shelf → LeavesSound (office_of self.old.office)
            (S.left self.old.shelf) (S.left self.new.shelf) }
        ensures cost { S.clean self.new.shelf → IsCheap (office_of self.old.office) entries.now
            (S.state self.old.shelf).content (S.state self.old.shelf).tally
            (S.state self.new.shelf).tally }
        ensures reopen { IsErrOf result PostFault.Reopen
            ↔ ((self.old.shut ≡ true)
            ⊎ ((S.state self.old.shelf).failed_abandons
            < (S.state self.new.shelf).failed_abandons)) }
        ensures abandons { (S.state self.new.shelf).failed_abandons
            ≡ (S.state self.old.shelf).failed_abandons + failed_in self.old.shut result }
        ensures untouched { self.old.shut ≡ true → self.new.shelf ≡ self.old.shelf }
        ensures shut { (self.new.shut ≡ true) ↔ IsErrOf result PostFault.Reopen }
        ensures begun { S.clean self.new.shelf → self.old.shut ≡ false
            → IsErrOf result PostFault.Reopen
            → (S.state self.new.shelf).begun ≡ Some (S.state self.old.shelf).content }
        ensures failures { FailuresPosted result (S.state self.old.shelf).failures
            (S.state self.new.shelf).failures }
        ensures cleanness { S.clean self.new.shelf → S.clean self.old.shelf }
        ensures store { S.same_store self.old.shelf self.new.shelf }
        ensures book { (self.new.office ≡ self.old.office) × (self.new.zone ≡ self.old.zone)
            × (self.new.limit ≡ self.old.limit) }
    {
        if self.shut {
            return Err(PostFault::Reopen);
        }
        let basis = Basis {
            alloc,
            office: &self.office,
            zone: &self.zone,
        };
        let answer = post_to(&mut self.shelf, &basis, self.limit, entries);
        self.shut = is_reopen(&answer);
        answer
    }
}

// Whether an upload couldn't be taken back.
fn is_reopen(answer: &Result<Accepted, PostFault>) -> bool
    ensures { IsTrue result ↔ IsErrOf answer.now PostFault.Reopen }
{
    match answer {
        Ok(_) => false,
        Err(fault) => match fault {
            PostFault::Full { .. } | PostFault::Device | PostFault::Memory => false,
            PostFault::Reopen => true,
        },
    }
}
