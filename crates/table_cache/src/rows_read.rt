//! Rows that were read, by their keys.

ghost use Rattle.std.specs.Prelude.{◌≡◌, None, Some, IfOk};
ghost use Rattle.std.specs.BTreeMap.{get};
ghost use Rattle.std.specs.Option.{option_copied};
ghost use Rattle.table_cache.specs.RowsRead.{HasKept, IsWithout};

use sched_book::copy_of;
use std::alloc::Global;
use std::collections::BTreeMap;
use texts::{Memory, Same};

/// What can be remembered, and how much of the room for its kind it takes.
pub(crate) trait Weigh {
    /// How many units of room it takes.
    fn weight(&self) -> usize;
}

/// Rows by their keys, as they were read, of a weight of at most `most`. If there is no room for one more, those before it
/// are forgotten.
#[derive(Drop)]
pub(crate) struct RowsRead<K: Ord, T> {
    rows: BTreeMap<K, T>,
    most: usize,
    /// What the rows weigh together, or more.
    weight: usize,
}

impl<K: Ord, T> RowsRead<K, T> {
    /// No rows, and room for a weight of `most`.
    pub(crate) fn new(alloc: Global, most: usize) -> RowsRead<K, T>
        ensures { (key : K) → get K.cmp result.rows key ≡ None }
    {
        RowsRead {
            rows: BTreeMap::new(alloc),
            most,
            weight: 0,
        }
    }
}

impl<K: Ord + Drop, T: Weigh + Drop> RowsRead<K, T> {
    /// Makes room for one more row of this weight: if there is too little, all rows are forgotten.
    fn make_room(&mut self, weight: usize)
        ensures { (key : K) (row : T) → get K.cmp self.new.rows key ≡ Some row → get K.cmp self.old.rows key ≡ Some row }
    {
        if self.most < self.weight.saturating_add(weight) {
            self.rows.clear();
            self.weight = 0;
        }
        self.weight = self.weight.saturating_add(weight);
    }

    /// Remembers the row of this key, if there is memory for it.
    pub(crate) fn put(&mut self, key: K, row: T)
        ensures { HasKept K.cmp self.old self.new key row }
    {
        self.make_room(row.weight());
        let _ = self.rows.insert(key, row);
    }

    /// Removes the row of this key and returns it, if it was read.
    pub(crate) fn take(&mut self, key: &K) -> Option<T>
        ensures row { result ≡ get K.cmp self.old.rows key.now }
        ensures others { IsWithout K.cmp self.old self.new key.now }
    {
        let row = self.rows.remove(key);
        if let Some(row) = &row {
            self.weight = self.weight.saturating_sub(row.weight());
        }
        row
    }

    /// Forgets the row of this key.
    pub(crate) fn forget(&mut self, key: &K)
        ensures { IsWithout K.cmp self.old self.new key.now }
    {
        let _ = self.take(key);
    }

    /// Forgets them all.
    pub(crate) fn forget_all(&mut self)
        ensures { (key : K) → get K.cmp self.new.rows key ≡ None }
    {
        self.rows.clear();
        self.weight = 0;
    }
}

impl<K: Ord + Drop, T: Same + Weigh + Drop> RowsRead<K, T> {
    /// A copy of the row of this key, if it was read.
    pub(crate) fn row(&self, key: &K) -> Result<Option<T>, Memory>
        ensures { IfOk result (λ row. row ≡ get K.cmp self.now.rows key.now) }
    {
        match self.rows.get(key) {
            None => Ok(None),
            Some(row) => Ok(Some(copy_of(row)?)),
        }
    }

    /// Remembers a copy of the row of this key, if there is memory for it.
    pub(crate) fn remember(&mut self, key: K, row: &T)
        ensures { HasKept K.cmp self.old self.new key row.now }
    {
        if let Ok(copy) = copy_of(row) {
            self.put(key, copy);
        }
    }
}

impl<K: Ord, T> RowsRead<K, T> {
    /// The row of this key, if it was read.
    pub(crate) fn seen(&self, key: &K) -> Option<&T>
        ensures { option_copied result ≡ get K.cmp self.now.rows key.now }
    {
        self.rows.get(key)
    }
}

impl<K: Ord, T: Copy> RowsRead<K, T> {
    /// The row of this key, if it was read.
    pub(crate) fn value(&self, key: &K) -> Option<T>
        ensures { result ≡ get K.cmp self.now.rows key.now }
    {
        self.rows.get(key).copied()
    }
}
