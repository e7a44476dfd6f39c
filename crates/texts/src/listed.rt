//! Lists that contracts see as their items.

ghost use Rattle.std.specs.Prelude.{◌≡◌, ◌<◌, ◌-◌, ◌==◌, List, [], ◌∷◌, ◌++◌, length, take, slice_set, OnOk, OnErr};
ghost use Rattle.std.specs.List.{cons_option};

use crate::Memory;
use crate::same::Same;
use std::alloc::Global;
use std::fmt;
use std::marker::Model;

/// A list of items in order. Contracts see it as the list of its items.
#[derive(Drop)]
pub struct Listed<T> {
    items: Vec<T>,
}

impl<T> Model for Listed<T> {
    ghost Value = { List T };

    ghost view = { λ l. l.items.items };
}

impl<T> Listed<T> {
    /// Returns the empty list, which needs no memory yet.
    pub fn new(alloc: Global) -> Listed<T>
        ensures { result ≡ [] }
    {
        Listed {
            items: Vec::new(alloc),
        }
    }

    /// Returns the list of these items, which are not copied.
    pub fn of(items: Vec<T>) -> Listed<T>
        ensures { result ≡ items.items }
    {
        Listed { items }
    }

    pub fn into_vec(self) -> Vec<T>
        ensures { result.items ≡ self }
    {
        self.items
    }

    pub fn as_slice(&self) -> &[T]
        ensures { result.now ≡ self.now }
    {
        self.items.as_slice()
    }

    pub fn len(&self) -> usize
        ensures { result ≡ length self.now }
    {
        self.as_slice().len()
    }

    pub fn is_empty(&self) -> bool
        ensures { result ≡ (length self.now == 0) }
    {
        self.len() == 0
    }
}

impl<T: Drop> Listed<T> {
    /// Adds `item` after the others. If there is no memory, the list stays as it was.
    pub fn push(&mut self, item: T) -> Result<(), Memory>
        ensures ok { OnOk result (self.new ≡ self.old ++ item ∷ []) }
        ensures err { OnErr result (self.new ≡ self.old) }
    {
        self.items.push(item)?;
        Ok(())
    }

    /// Adds `item` after the others, if there is one.
    pub fn push_some(&mut self, item: Option<T>) -> Result<(), Memory>
        ensures { OnOk result (self.new ≡ self.old ++ cons_option item []) }
    {
        match item {
            None => Ok(()),
            Some(item) => self.push(item),
        }
    }

    /// Adds these items after the others.
    pub fn append(&mut self, more: Listed<T>) -> Result<(), Memory>
        ensures { OnOk result (self.new ≡ self.old ++ more) }
    {
        let mut more = more.into_vec();
        self.items.append(&mut more)?;
        Ok(())
    }

    /// Puts `item` in place of the one at `index`.
    pub fn replace(&mut self, index: usize, item: T)
        requires { index < length self.old }
        ensures { self.new ≡ slice_set self.old index item }
    {
        self.items[index] = item;
    }

    /// Drops the last item, if there is one.
    pub fn drop_last(&mut self)
        ensures { self.new ≡ take (length self.old - 1) self.old }
    {
        let _ = self.items.pop();
    }
}

impl<T: Same> Clone for Listed<T> {
    ghost is_clone = { λ list copy. list ≡ copy };

    fn clone(&self) -> Result<Listed<T>, Memory> {
        Ok(Listed {
            items: self.items.clone()?,
        })
    }
}

impl<T: Same> Same for Listed<T> {
    ghost exact = { λ list copy is_copy. is_copy };
}

impl<T: fmt::Debug> fmt::Debug for Listed<T> {
    fn fmt<W: fmt::Write>(&self, f: &mut fmt::Formatter<W>) -> fmt::Result {
        self.items.fmt(f)
    }
}
