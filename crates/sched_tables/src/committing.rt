//! Changes of the world, and what is kept of a message, put into the tables in one transaction.

ghost use Rattle.std.specs.Prelude.{◌≡◌, false, unwrap_or, IsTrue, IfOk, OnOk, OnErr};
ghost use Rattle.sqlite.specs.State.{HasCleanDisk, Survives};
ghost use Rattle.sched_tables.specs.Commits.{apps_with as apps_then};
ghost use Rattle.sched_tables.specs.Entries.{ArePutWith, IsRowOf, MakesWith};
ghost use Rattle.sched_book.specs.Delta.{applied};
ghost use Rattle.sched_book.specs.Sound.{Sound};
ghost use Rattle.sched_tables.specs.Held.{IsHonest};
ghost use Rattle.sched_tables.specs.Reopening.{Reopens};
ghost use Rattle.stores.specs.Standing.{MayBeKept};
ghost use Rattle.sched_tables.specs.Views.{state_of, settings_of, apps_of, world_of, slots_of, AreKept, AreReadOn, CacheWhatTheyHold, MissNothingDue};

use crate::due::lowered;
use crate::tables::Tables;
use sched_book::{App, Delta, Rows, Unavailable};
use sqlite::Alter;
use std::alloc::Global;
use stores::Entry;
use table_changes::rows_of_changes;
use table_meaning::rows::{RowChange, StoredBatch, StoredCall, StoredRow};
use table_rows::{cause_of, put_rows};
use texts::{Listed, Memory, Text};

/// The applications with those that the changes bring, or `None` if they bring none.
fn apps_with(apps: &Listed<App>, delta: &Delta) -> Result<Option<Listed<App>>, Memory>
    ensures { IfOk result (λ all. unwrap_or all apps.now ≡ apps_then apps.now delta.now) }
{
    match delta {
        Delta::Rows(Rows::Apps(more)) => {
            let mut all = apps.clone()?;
            all.append(more.clone()?)?;
            Ok(Some(all))
        }
        Delta::Rows(Rows::Accounts(_) | Rows::Versions(_) | Rows::Workunits(_)) | Delta::Edits(_) =>
            Ok(None),
    }
}

/// Replaces applications by these, if there are any.
fn keep_apps(apps: &mut Listed<App>, all: Option<Listed<App>>)
    ensures { apps.new ≡ unwrap_or all apps.old }
{
    if let Some(all) = all {
        *apps = all;
    }
}

impl<S: Alter> Tables<S> {
    /// The row that an entry puts, if it puts one.
    fn row_of(&mut self, entry: &Entry) -> Result<Option<RowChange>, Unavailable>
        ensures reads { AreReadOn S.Store self.old self.new }
        ensures row { IsHonest (state_of S.Store self.new) → AreKept S.Store self.old → IfOk result (IsRowOf (slots_of S.Store self.old) entry.now) }
    {
        match entry {
            Entry::Kept(host, kept) => {
                let call = StoredCall {
                    host_id: *host,
                    slot: self.next_slot(*host)?,
                    seqno: kept.seqno,
                    text: kept.text.clone()?,
                    reply: kept.reply.clone()?,
                };
                Ok(Some(RowChange::update(StoredRow::Kept(call))))
            }
            Entry::Batch(kind, name, kept) => {
                let batch = StoredBatch {
                    kind: Text::copied(self.alloc, kind.name())?,
                    name: name.clone()?,
                    text: Listed::of(kept.text.as_slice().to_vec(self.alloc)?),
                    answer: kept.answer.clone()?,
                };
                Ok(Some(RowChange::insert(StoredRow::Batch(batch))))
            }
            Entry::Nothing => Ok(None),
        }
    }

    /// The rows that these changes put, and after them the row of an entry.
    fn rows_with(&mut self, delta: &Delta, entry: &Entry) -> Result<Listed<RowChange>, Unavailable>
        ensures reads { AreReadOn S.Store self.old self.new }
        ensures rows { IsHonest (state_of S.Store self.new) → AreKept S.Store self.old
            → IfOk result (ArePutWith (world_of S.Store self.old) delta.now (slots_of S.Store self.old) entry.now) }
    {
        let mut rows = rows_of_changes(self.alloc, self, delta)?;
        rows.push_some(self.row_of(entry)?)?;
        Ok(rows)
    }

    /// Makes these changes and keeps what the entry says, in one transaction. If it is unavailable, neither is done,
    /// unless a fault has shut the connection. If it is good, the connection is open. It puts the rows that the changes
    /// touch, and looks at no others. What was read of a row that is put is renewed or forgotten, so what is remembered
    /// is what the tables then hold. `due_from` is lowered to the least deadline that the changes give to a held
    /// instance. So no held instance has a deadline before it, whether the commit succeeds or fails. A stop at any
    /// moment leaves what a stop could leave before or, if the connection was open, the whole commit. Suppose the
    /// changes leave a sound world, and what the entry keeps may be kept with it. Then tables that could be opened
    /// again still can be, and so can anything that a stop leaves.
    pub fn commit(&mut self, delta: &Delta, entry: &Entry) -> Result<(), Unavailable>
        ensures honest { IsHonest (state_of S.Store self.new) → IsHonest (state_of S.Store self.old) }
        ensures open { HasCleanDisk (state_of S.Store self.new) → OnOk result (IsTrue (state_of S.Store self.new).is_open) }
        ensures idle { (state_of S.Store self.old).in_transaction ≡ false → (state_of S.Store self.new).in_transaction ≡ false }
        ensures settings { settings_of self.new ≡ settings_of self.old }
        ensures due_from { IsHonest (state_of S.Store self.new) → AreKept S.Store self.old → MissNothingDue S.Store self.new }
        ensures remembers { IsHonest (state_of S.Store self.new) → AreKept S.Store self.old → CacheWhatTheyHold S.Store self.new }
        ensures apps { OnOk result (apps_of self.new ≡ apps_then (apps_of self.old) delta.now) }
        ensures rests { IsHonest (state_of S.Store self.new) → OnOk result ((state_of S.Store self.new).now ≡ (state_of S.Store self.new).committed) }
        ensures made { IsHonest (state_of S.Store self.new) → AreKept S.Store self.old
            → OnOk result (MakesWith (world_of S.Store self.old) delta.now entry.now (state_of S.Store self.old).now (state_of S.Store self.new).now) }
        ensures left { IsHonest (state_of S.Store self.new) → AreKept S.Store self.old → OnErr result (
            ((state_of S.Store self.new).now ≡ (state_of S.Store self.old).now) × ((state_of S.Store self.new).committed ≡ (state_of S.Store self.old).committed)
            × (apps_of self.new ≡ apps_of self.old)) }
        ensures crash { Survives (state_of S.Store self.old) (state_of S.Store self.new)
            (λ trees. IsTrue (state_of S.Store self.old).is_open × (AreKept S.Store self.old
            → (db : _) × MakesWith (world_of S.Store self.old) delta.now entry.now (state_of S.Store self.old).now db × (trees ≡ db.trees))) }
        ensures reopens { (IsHonest (state_of S.Store self.old) → AreKept S.Store self.old × Sound (applied (world_of S.Store self.old) delta.now) × MayBeKept (applied (world_of S.Store self.old) delta.now) entry.now)
            → Reopens (state_of S.Store self.old) → Reopens (state_of S.Store self.new) }
    {
        let due_from = lowered(self.due_from, delta);
        let rows = self.rows_with(delta, entry);
        self.due_from = due_from;
        let rows = rows?;
        let apps = apps_with(&self.apps, delta)?;
        let put = rows.as_slice();
        if let Err(error) = put_rows(self.alloc, &mut self.conn, put) {
            self.cache.forget_all();
            return Err(Unavailable(cause_of(error)));
        }
        self.cache.note_put(self.alloc, put);
        keep_apps(&mut self.apps, apps);
        Ok(())
    }
}
