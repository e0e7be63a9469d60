//! Rows in the order of their keys, and what an upload changed among them.

ghost use Rattle.std.specs.Prelude.{◌≡◌, [], cond, Some, None, false, IsSome, IfOk, IfErr, OnOk, OnErr, IsTrue, ◌↔◌};
ghost use Rattle.std.specs.BTreeMap.{IsOrdered, get};
ghost use Rattle.std.specs.declared.ops.Bound.TheVariants.{Excluded, Unbounded};
ghost use Rattle.pw_shelf.specs.Table.{at_begin, at_now, is_taken};
ghost use Rattle.pw_shelf.specs.inner.Table.{CanGoBack, IsFirst, IsLast, TellsAt, change_of, rows_between};
ghost use Rattle.pw_shelf.specs.declared.fault.ShelfFault.TheVariants.{Memory};

use crate::fault::ShelfFault;
use std::alloc::Global;
use std::collections::BTreeMap;
use std::ops::Bound;

/// What an upload changed at a key.
#[derive(Clone, Copy)]
pub struct Change<V: Copy> {
    /// What stood there when the upload began.
    pub(crate) before: Option<V>,
    /// What stood there was taken away; its row is still there, but counts no more.
    pub(crate) gone: bool,
}

/// Rows in order, and the keys that an upload changed, each with what stood there when it began.
#[derive(Drop)]
pub struct Table<K: Ord + Copy, V: Copy> {
    pub(crate) rows: BTreeMap<K, V>,
    pub(crate) changed: BTreeMap<K, Change<V>>,
}

impl<K: Ord + Copy, V: Copy> Table<K, V> {
    // No rows, and nothing changed.
    pub(crate) fn new(alloc: Global) -> Table<K, V>
        ensures rows { result.rows.entries ≡ [] }
        ensures changed { result.changed.entries ≡ [] }
    {
        Table {
            rows: BTreeMap::new(alloc),
            changed: BTreeMap::new(alloc),
        }
    }

    // Whether the row at a key was taken away.
    pub(crate) fn is_taken(&self, key: &K) -> bool
        ensures { result ≡ is_taken K.cmp self.now key.now }
    {
        match self.changed.get(key) {
            Some(change) => change.gone,
            None => false,
        }
    }

    // What stands at a key.
    pub(crate) fn at(&self, key: &K) -> Option<V>
        ensures { result ≡ at_now K.cmp self.now key.now }
    {
        if self.is_taken(key) {
            return None;
        }
        self.rows.get(key).copied()
    }

    // The last row before a key that wasn't taken away.
    pub(crate) fn last_before(&self, key: K) -> Option<(K, V)>
        ensures last { IsLast (rows_between K.cmp Unbounded (Excluded key) self.now) result }
        ensures ordered { IsOrdered K.cmp self.now.rows }
    {
        let mut rows = self.rows.range(..key);
        while let Some((row, value)) = rows.next_back() {
            if !self.is_taken(row) {
                return Some((*row, *value));
            }
        }
        None
    }

    // The first row behind a key that wasn't taken away.
    pub(crate) fn first_behind(&self, key: K) -> Option<(K, V)>
        ensures first { IsFirst (rows_between K.cmp (Excluded key) Unbounded self.now) result }
        ensures ordered { IsOrdered K.cmp self.now.rows }
    {
        let mut rows = self.rows.range((Bound::Excluded(key), Bound::Unbounded));
        while let Some((row, value)) = rows.next() {
            if !self.is_taken(row) {
                return Some((*row, *value));
            }
        }
        None
    }

    // What stood at a key when the upload began.
    fn before(&self, key: &K) -> Option<V>
        ensures { result ≡ at_begin K.cmp self.now key.now }
    {
        match self.changed.get(key) {
            Some(change) => change.before,
            None => self.rows.get(key).copied(),
        }
    }

    // Notes a change at a key, before its row is changed.
    fn note(&mut self, key: K, gone: bool) -> Result<(), ShelfFault>
        requires { CanGoBack K.cmp self.old }
        ensures rows { self.new.rows ≡ self.old.rows }
        ensures refused { OnErr result (self.new.changed.entries ≡ self.old.changed.entries) }
        ensures noted { OnOk result (TellsAt K.cmp key
            (Some (change_of (at_begin K.cmp self.old key) gone)) (get K.cmp self.old.changed)
            (get K.cmp self.new.changed)) }
        ensures begin { (k : K) → at_begin K.cmp self.new k ≡ at_begin K.cmp self.old k }
        ensures back { CanGoBack K.cmp self.new }
        ensures memory { IfErr result (λ e. e ≡ Memory) }
    {
        let before = self.before(&key);
        self.changed.insert(key, Change { before, gone })?;
        Ok(())
    }

    // Sets what stands at a key.
    pub(crate) fn put(&mut self, key: K, value: V) -> Result<(), ShelfFault>
        requires { CanGoBack K.cmp self.old }
        ensures put { OnOk result (TellsAt K.cmp key (Some value) (at_now K.cmp self.old)
            (at_now K.cmp self.new)) }
        ensures refused { OnErr result ((k : K) → at_now K.cmp self.new k
            ≡ at_now K.cmp self.old k) }
        ensures begin { (k : K) → at_begin K.cmp self.new k ≡ at_begin K.cmp self.old k }
        ensures back { CanGoBack K.cmp self.new }
        ensures memory { IfErr result (λ e. e ≡ Memory) }
    {
        self.note(key, false)?;
        self.rows.insert(key, value)?;
        Ok(())
    }

    // Takes away what stands at a key, if something does.
    pub(crate) fn delete(&mut self, key: K) -> Result<(), ShelfFault>
        requires { CanGoBack K.cmp self.old }
        ensures deleted { OnOk result (TellsAt K.cmp key None (at_now K.cmp self.old)
            (at_now K.cmp self.new)) }
        ensures refused { OnErr result ((k : K) → at_now K.cmp self.new k
            ≡ at_now K.cmp self.old k) }
        ensures begin { (k : K) → at_begin K.cmp self.new k ≡ at_begin K.cmp self.old k }
        ensures back { CanGoBack K.cmp self.new }
        ensures memory { IfErr result (λ e. e ≡ Memory) }
    {
        self.note(key, true)
    }

    // Keeps what was changed. It takes no memory.
    pub(crate) fn keep(&mut self)
        ensures same { (k : K) → at_now K.cmp self.new k ≡ at_now K.cmp self.old k }
        ensures begin { (k : K) → at_begin K.cmp self.new k ≡ at_now K.cmp self.old k }
        ensures back { CanGoBack K.cmp self.new }
    {
        while let Some((key, change)) = self.changed.pop_first() {
            if change.gone {
                self.rows.remove(&key);
            }
        }
    }

    // Goes back to what stood when the upload began. It takes no memory: nothing is put where no row is.
    pub(crate) fn go_back(&mut self)
        requires { CanGoBack K.cmp self.old }
        ensures went { (k : K) → at_now K.cmp self.new k ≡ at_begin K.cmp self.old k }
        ensures begin { (k : K) → at_begin K.cmp self.new k ≡ at_begin K.cmp self.old k }
        ensures back { CanGoBack K.cmp self.new }
    {
        while let Some((key, change)) = self.changed.pop_first() {
            match change.before {
                Some(value) => self.put_back(key, value),
                None => {
                    self.rows.remove(&key);
                }
            }
        }
    }

    // Sets the row at a key that has one.
    fn put_back(&mut self, key: K, value: V)
        requires { IsSome (get K.cmp self.old.rows key) }
        ensures rows { TellsAt K.cmp key (Some value) (get K.cmp self.old.rows)
            (get K.cmp self.new.rows) }
        ensures changed { self.new.changed ≡ self.old.changed }
    {
        if self.rows.insert(key, value).is_err() {
            unreachable!();
        }
    }
}
