//! The trait of a store, and answers that rest on what was read of a store.

ghost use Rattle.std.specs.Prelude.{◌≡◌, true, false, is_ok, Ok, IfOk, OnOk};
ghost use Rattle.sched_book.specs.Sound.{Sound};
ghost use Rattle.sched_book.specs.Trusted.{Trusted};
ghost use Rattle.stores.specs.Acting.{ActsWhole, parts_of};
ghost use Rattle.stores.specs.Held.{Held, IsCommitted, IsKeptSoundly, IsLeft, MayBeCommitted};
ghost use Rattle.stores.specs.Standing.{MayStand};

use crate::batch::KeptBatch;
use crate::entry::Entry;
use crate::kind::Kind;
use reply_register::Kept;
use sched_book::{Cause, Delta, Desk, StorageFault, Unavailable};
use std::alloc::Global;
use texts::{Listed, Memory};

/// A desk that keeps calls with their replies, and imports with their answers.
///
/// Its answer about a kept call or a kept import counts as a desk's does. The store must be honest after the call, and
/// must have been well kept before it. Such a call changes nothing. A store is honest if it is clean and open. It is
/// *clean* while its disk returns what was written; every promise assumes that. It is *open* until a fault of the disk
/// shuts it, which may happen on any disk. No answer assumes that a store is open: [`Store::is_open`] and a good
/// [`Store::commit`] show it.
pub trait Store: Desk {
    /// What it holds, while it is open.
    ghost holds: { Self → Held };

    /// Its disk has returned what was written, so far.
    ghost clean: { Self → Type 0 };

    /// It has no disk, so it is never shut.
    ghost lasting: { Type 0 };

    /// What a stop at this moment may leave, if the disk returns what was written. It is what the store holds when it
    /// is opened again.
    ghost may_leave: { Self → Held → Type 0 };

    /// It can be opened again, as it is and as a stop may leave it now. What it is then opened from is a store's, so
    /// only the disk or a lack of memory could prevent it.
    ghost reopens: { Self → Type 0 };

    /// The kept calls of the host of this number, the last call first.
    fn kept(&mut self, alloc: Global, host: u32) -> Result<Listed<Kept>, Unavailable>
        ensures reads { Self.reads self.old self.new }
        ensures answer { Trusted Self.Units self.old self.new (IfOk result (λ r. r ≡ (holds self.old).calls host)) };

    /// The kept import of this kind and batch name.
    fn kept_batch(
        &mut self,
        alloc: Global,
        kind: Kind,
        batch: &str,
    ) -> Result<Option<KeptBatch>, Unavailable>
        ensures reads { Self.reads self.old self.new }
        ensures answer { Trusted Self.Units self.old self.new (IfOk result (λ r. r ≡ (holds self.old).batches kind batch.now)) };

    /// Whether it is open. If it is, what was read of it so far is what it holds. If not, a fault has shut it.
    ///
    /// # Errors
    ///
    /// [`Memory`] if there is no memory to find out.
    fn is_open(&mut self) -> Result<bool, Memory>
        ensures reads { Self.reads self.old self.new }
        ensures open { clean self.new → result ≡ Ok true → Self.honest self.new }
        ensures shut { clean self.new → result ≡ Ok false → ¬ Self.honest self.new };

    /// Makes these changes and keeps this entry, in one commit. If it is unavailable, neither is done, unless a fault
    /// has shut the store. A stop at any moment leaves what it could leave before or, if the store was open, both done.
    /// A call must be the newest of its host: its number is above those of the kept ones.
    fn commit(&mut self, delta: &Delta, entry: &Entry) -> Result<(), Unavailable>
        ensures acts { ActsWhole (parts_of Self.Units holds clean lasting may_leave reopens) (is_ok result)
            (IsKeptSoundly delta.now entry.now (holds self.old)) self.old self.new }
        ensures made { Trusted Self.Units self.old self.new (OnOk result (MayBeCommitted delta.now entry.now (holds self.old) →
            IsCommitted delta.now entry.now (holds self.old) (holds self.new))) };

    // The world that it holds is that of the desk.
    ghost world_held: { (a : Self) → (holds a).world ≡ Self.world a };

    // What is honest is clean. What is clean after a read was clean before it.
    ghost is_clean: { (a : Self) → Self.honest a → clean a };

    ghost stays_clean: { (a b : Self) → Self.reads a b → clean b → clean a };

    // A store that lasts is still open after a read.
    ghost stays_open: { (a b : Self) → lasting → Self.reads a b → Self.honest a → Self.honest b };

    // A read leaves what is held as it is.
    ghost stays_held: { (a b : Self) → Self.reads a b → Self.honest b → Self.well_kept a → IsLeft (holds a) (holds b) };

    // A stop after a read leaves nothing that a stop before it could not leave.
    ghost stays_left: { (a b : Self) → Self.reads a b → (h : Held) → may_leave b h → may_leave a h };

    // A store that can be opened again still can be after a read.
    ghost stays_reopened: { (a b : Self) → Self.reads a b → (Self.honest a → Self.well_kept a) → reopens a → reopens b };

    // A store that can be opened again is sound, and everything that it keeps may be kept.
    ghost may_stand: { (a : Self) → Self.honest a → Self.well_kept a → reopens a → MayStand (holds a) };

    // With no open transaction, a stop leaves what is held: all that was committed, and nothing else.
    ghost settled: { (a : Self) → Self.honest a → Self.well_kept a → Sound (holds a).world → (h : Held) → may_leave a h → IsLeft (holds a) h };
}

/// Returns an answer that rests on what was read, if the store is open. Then the answer holds.
///
/// # Errors
///
/// [`Unavailable`] if a fault has shut the store, or there is no memory.
pub fn confirmed<S: Store, T: Drop>(store: &mut S, answer: T) -> Result<T, Unavailable>
    ensures reads { S.reads store.old store.new }
    ensures open { S.clean store.new → is_ok result ≡ true → S.honest store.new }
    ensures answer { IfOk result (λ a. a ≡ answer) }
{
    match store.is_open() {
        Ok(true) => Ok(answer),
        Ok(false) => Err(Unavailable(Cause::Storage(StorageFault::Closed))),
        Err(_) => Err(Unavailable(Cause::Memory)),
    }
}
