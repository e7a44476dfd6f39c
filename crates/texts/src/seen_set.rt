//! Sets of the keys that were seen.

ghost use Rattle.std.specs.Prelude.{◌≡◌, false, not, ◌||◌, IfOk, OnOk, OnErr};
ghost use Rattle.std.specs.List.{list_any};
ghost use Rattle.texts.specs.SeenSet.{has_seen};

use crate::Memory;
use crate::same::Same;
use std::alloc::Global;
use std::collections::BTreeSet;

/// The keys that were seen so far. To look a key up takes a time that grows as the logarithm of their number.
#[derive(Drop)]
pub struct SeenSet<K: Ord> {
    keys: BTreeSet<K>,
}

impl<K: Ord> SeenSet<K> {
    /// Returns the set in which no key was seen.
    pub fn new(alloc: Global) -> SeenSet<K>
        ensures { (key : K) → has_seen K.eq result key ≡ false }
    {
        SeenSet {
            keys: BTreeSet::new(alloc),
        }
    }

    /// Whether a key was seen.
    pub fn has(&self, key: &K) -> bool
        ensures { result ≡ has_seen K.eq self.now key.now }
    {
        self.keys.contains(key)
    }
}

impl<K: Ord + Drop> SeenSet<K> {
    /// Notes a key, and returns whether it was seen for the first time.
    pub fn is_first(&mut self, key: K) -> Result<bool, Memory>
        ensures first { IfOk result (λ first. first ≡ not (has_seen K.eq self.old key)) }
        ensures seen { OnOk result ((other : K) → has_seen K.eq self.new other ≡ (K.eq other key || has_seen K.eq self.old other)) }
        ensures err { OnErr result ((other : K) → has_seen K.eq self.new other ≡ has_seen K.eq self.old other) }
    {
        Ok(self.keys.insert(key)?)
    }
}

impl<K: Ord + Same> SeenSet<K> {
    /// Returns the set in which just these keys were seen.
    pub fn of(alloc: Global, keys: &[K]) -> Result<SeenSet<K>, Memory>
        ensures { IfOk result (λ seen. (key : K) → has_seen K.eq seen key ≡ list_any (K.eq key) keys.now) }
    {
        let mut seen = SeenSet::new(alloc);
        for key in keys {
            seen.is_first(key.clone()?)?;
        }
        Ok(seen)
    }
}
