//! Kept calls by their keys, in memory, for a program that has no store. bsched keeps calls in its tables, by the
//! number of their host.

ghost use Rattle.std.specs.Prelude.{◌≡◌, List, OnOk, OnErr};
ghost use Rattle.std.specs.FinMap as map;
ghost use Rattle.reply_register.specs.Keeping.{calls_of, IsKeptWith};
ghost use Rattle.reply_register.specs.declared.kept.Kept.{Kept};

use crate::keeping::kept_with;
use crate::kept::Kept;
use crate::key::Key;
use std::alloc::Global;
use std::collections::BTreeMap;
use std::marker::Model;
use texts::{Listed, Memory};

/// The kept calls of each key. Contracts see it as a finite map from keys to lists of kept calls, the last one first.
#[derive(Drop)]
pub struct Register {
    calls: BTreeMap<Key, Listed<Kept>>,
}

impl Model for Register {
    ghost use Rattle.std.specs.FinMap as map;
    ghost use Rattle.std.specs.Prelude.{List};
    ghost use Rattle.reply_register.specs.Keys.{key_cmp, coded_key, coded_calls};
    ghost use Rattle.reply_register.specs.declared.kept.Kept.{Kept};

    ghost Value = { map.FinMap key_cmp (List Kept) };

    ghost coded = { map.code coded_key coded_calls };

    ghost view = { λ register. map.from_entries register.calls.entries };
}

impl Register {
    /// Returns the register with no call, which needs no memory yet.
    pub fn new(alloc: Global) -> Register
        ensures { result ≡ map.empty }
    {
        Register {
            calls: BTreeMap::new(alloc),
        }
    }

    /// The kept calls of this key; none if the key is unknown.
    pub fn find(&self, key: &Key) -> &[Kept]
        ensures { result.now ≡ calls_of self.now key.now }
    {
        match self.calls.get(key) {
            None => &[],
            Some(calls) => calls.as_slice(),
        }
    }

    /// Keeps this call of this key in front of its others. If there are four already, it takes the place of the one
    /// with the least number. The calls of every other key stay.
    pub fn keep(&mut self, alloc: Global, key: Key, kept: Kept) -> Result<(), Memory>
        ensures ok { OnOk result ((calls : List Kept) × IsKeptWith kept (calls_of self.old key) calls × (self.new ≡ map.insert self.old key calls)) }
        ensures err { OnErr result (self.new ≡ self.old) }
    {
        let calls = kept_with(alloc, kept, self.find(&key))?;
        self.calls.insert(key, calls)?;
        Ok(())
    }
}
