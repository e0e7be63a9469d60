//! The records of a store in memory, in order.

ghost use Rattle.std.specs.Prelude.{◌≡◌, ◌<◌, ◌≤◌, [], IfErr, OnOk, OnErr, IsTrue, ◌↔◌, length};
ghost use Rattle.pw_model.specs.Office.{most_records};
ghost use Rattle.pw_model.specs.Counting.{Member, IsInserted};
ghost use Rattle.pw_model.specs.Counting.{EachOnce};
ghost use Rattle.pw_shelf.specs.Added.{without};
ghost use Rattle.pw_shelf.specs.inner.Held.{AreNamed, AreNamed-prop, EachOnce-prop, IsNamed};
ghost use Rattle.pw_shelf.specs.declared.fault.ShelfFault.TheVariants.{Memory};
ghost use Rattle.pw_model.specs.declared.records.Key.TheVariants as key;

use crate::fault::ShelfFault;
use pw_model::{Entry, Key, Named};
use std::alloc::Global;
use std::collections::BTreeSet;

/// The records of a store in memory, and which of them an upload has added, as it may be taken back.
#[derive(Drop)]
pub struct Held {
    pub(crate) records: BTreeSet<Entry>,
    // those that the upload added, in its order
    pub(crate) added: Vec<Entry>,
    ghost once: { EachOnce records.keys } by { EachOnce-prop records.keys },
    ghost few: { length records.keys ≤ most_records },
    ghost named: { AreNamed records.keys } by { AreNamed-prop records.keys },
}

impl Held {
    // Nothing.
    pub(crate) fn new(alloc: Global) -> Held
        ensures records { result.records.keys ≡ [] }
        ensures added { result.added.items ≡ [] }
    {
        Held {
            records: BTreeSet::new(alloc),
            added: Vec::new(alloc),
        }
    }

    // Whether a record is held.
    pub(crate) fn has(&self, entry: &Entry) -> bool
        ensures { IsTrue result ↔ Member entry.now self.now.records.keys }
    {
        self.records.contains(entry)
    }

    // Holds a record more.
    pub(crate) fn insert(&mut self, entry: Entry) -> Result<(), ShelfFault>
        requires fresh { Member entry self.old.records.keys → ⊥ }
        requires room { length self.old.records.keys < most_records }
        ensures added { OnOk result (IsInserted entry self.old.records.keys self.new.records.keys) }
        ensures same { OnErr result (self.new.records.keys ≡ self.old.records.keys) }
        ensures begin { without self.new.added.items self.new.records.keys
            ≡ without self.old.added.items self.old.records.keys }
        ensures memory { IfErr result (λ e. e ≡ Memory) }
    {
        name_of(&entry.key);
        self.added.extend_from_slice(&[entry])?;
        self.records.insert(entry)?;
        Ok(())
    }

    // Keeps what was added. It takes no memory.
    pub(crate) fn keep(&mut self)
        ensures same { self.new.records.keys ≡ self.old.records.keys }
        ensures done { self.new.added.items ≡ [] }
    {
        self.added.clear();
    }

    // Goes back to what was held when the upload began. It takes no memory.
    pub(crate) fn go_back(&mut self)
        ensures back { self.new.records.keys ≡ without self.old.added.items self.old.records.keys }
        ensures done { self.new.added.items ≡ [] }
    {
        while let Some(entry) = self.added.pop() {
            self.records.remove(&entry);
        }
    }

    // How many records are held.
    pub(crate) fn count(&self) -> u32
        ensures { result ≡ length self.now.records.keys }
    {
        self.records.len() as u32
    }
}

// The instant and the reference that a key names are what their types say.
fn name_of(key: &Key)
    ensures { IsNamed key.now }
{
    match key {
        Key::Reading {
            meter: _,
            register: _,
            instant,
        } => {
            let _second = instant.seconds();
        }
        Key::Assignment { meter: _, start } => {
            let _second = start.seconds();
        }
        Key::TopUp { reference } => {
            let _text = reference.bytes();
        }
        Key::Withdrawal { named } => name_withdrawn(named),
    }
}

// And those that a withdrawal names.
fn name_withdrawn(named: &Named)
    ensures { IsNamed (key.Withdrawal named.now) }
{
    match named {
        Named::Reading { instant, .. } => {
            let _second = instant.seconds();
        }
        Named::Assignment { start, .. } => {
            let _second = start.seconds();
        }
        Named::TopUp { reference, .. } => {
            let _text = reference.bytes();
        }
    }
}
