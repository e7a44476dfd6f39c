//! How the cache follows rows that are put.

ghost use Rattle.std.specs.Prelude.{◌≡◌, ℕ, Bool, List, None, Option, IfSome};
ghost use Rattle.sched_book.specs.declared.instance.Instance.{Instance as Job};
ghost use Rattle.sched_book.specs.declared.world.World.{World};
ghost use Rattle.table_desk.specs.declared.hosts.CountedHost.{CountedHost as Counted};
ghost use Rattle.table_meaning.specs.Worlds.{SlotCalls};
ghost use Rattle.table_meaning.specs.declared.rows.StoredRow.TheVariants as stored;
ghost use Rattle.table_cache.specs.Carrying.{with_host, with_hosts, with_job, with_jobs, AreCarried, AreOfHosts, AreOfJobs};
ghost use Rattle.table_cache.specs.Covering.{with_wait, with_waits, AreSkipsFor};
ghost use Rattle.table_desk.specs.WaitingWindow.{IsWindowFor};
ghost use Rattle.table_cache.specs.Holding.{holders_of, AreHeldOf};
ghost use Rattle.table_cache.specs.Keys.{with_title, with_titles, AreKeysOf, AreNamesOf};
ghost use Rattle.table_cache.specs.Remembering.{IsCacheOf};
ghost use Rattle.table_cache.specs.Leading.{IsOtherKey, IsUnput, Lead};

use crate::cache::Cache;
use crate::credits::renew_host;
use crate::holding::follow_held;
use crate::keys::{follow_host_key, follow_unit};
use crate::sent::{note_unit, renew_instance};
use sched_book::Place;
use std::alloc::Global;
use table_desk::QueueWindow;
use table_meaning::rows::{RowChange, StoredInstance, StoredRow};

/// Lets a window of what waits follow the row of an instance that was put. If it is not worth keeping then, it is
/// forgotten.
fn follow_window(alloc: Global, window: &mut Option<QueueWindow>, row: &StoredInstance)
    ensures { (waiting : ℕ → ℕ → Option Bool) → IfSome window.old (IsWindowFor waiting) → IfSome window.new (IsWindowFor (with_wait waiting (stored.Instance row.now))) }
{
    let Some(mut read) = window.take() else {
        return;
    };
    let place = Place {
        unit: row.unit_id,
        number: row.num,
    };
    if read.follow(alloc, place, row.queued) {
        *window = Some(read);
    }
}

impl Cache {
    /// Takes note of a row that was put.
    fn note_row(&mut self, alloc: Global, row: &StoredRow)
        ensures carried { AreCarried (IsOtherKey row.now) self.old self.new }
        ensures hosts { (f : ℕ → Option Counted) → AreOfHosts f self.old.hosts → AreOfHosts (with_host f row.now) self.new.hosts }
        ensures jobs { (f : ℕ → ℕ → Option Job) → AreOfJobs f self.old.jobs → AreOfJobs (with_job f row.now) self.new.jobs }
        ensures skips { (waiting : ℕ → ℕ → Option Bool) (jobs : ℕ → ℕ → Option Job) (hosts : ℕ → Option Counted)
            → AreOfHosts hosts self.old.hosts → AreOfJobs jobs self.old.jobs → AreSkipsFor waiting jobs hosts self.old.skips
            → AreSkipsFor (with_wait waiting row.now) (with_job jobs row.now) (with_host hosts row.now) self.new.skips }
        ensures window { (waiting : ℕ → ℕ → Option Bool) → IfSome self.old.window (IsWindowFor waiting) → IfSome self.new.window (IsWindowFor (with_wait waiting row.now)) }
        ensures held { (jobs : ℕ → ℕ → Option Job) → AreOfJobs jobs self.old.jobs
            → AreHeldOf (holders_of jobs) self.old.held → AreHeldOf (holders_of (with_job jobs row.now)) self.new.held }
        ensures keys { (hosts : ℕ → Option Counted) → AreOfHosts hosts self.old.hosts → AreKeysOf hosts self.old.keys → AreKeysOf (with_host hosts row.now) self.new.keys }
        ensures names { (titles : ℕ → Option (List ℕ)) → AreNamesOf titles self.old.units → AreNamesOf (with_title titles row.now) self.new.units }
    {
        match row {
            StoredRow::Unit(row) => {
                follow_unit(&mut self.units, row);
                note_unit(alloc, &mut self.jobs, row.id);
            }
            StoredRow::UnitMark(row) => self.units.rows.forget(&row.unit_id),
            StoredRow::Instance(row) => {
                follow_window(alloc, &mut self.window, row);
                self.skips.follow_instance(&self.jobs.instances, row);
                follow_held(alloc, &mut self.held, &self.jobs.instances, row);
                renew_instance(&mut self.jobs, row);
            }
            StoredRow::Host(row) => {
                self.skips.follow_host(&self.hosts, row);
                follow_host_key(&mut self.keys, &self.hosts, row);
                renew_host(alloc, &mut self.hosts, row);
            }
            StoredRow::Account(_) => self.accounts.forget_all(),
            StoredRow::Version(_) | StoredRow::VersionClass(_) => self.versions.clear(),
            StoredRow::App(_) => {
                self.units.rows.forget_all();
                self.versions.clear();
            }
            StoredRow::Setting(_) | StoredRow::Kept(_) | StoredRow::Batch(_) => {}
        }
    }

    /// Takes note of rows that were put. What they say of hosts, of the credit of their users, of instances, and of how many
    /// jobs hosts were sent is renewed. The skips of users, the places that hosts hold, the keys of hosts, the names of workunits
    /// and the window of what waits follow it. Everything else that was read of them is forgotten, with the slot for a
    /// call.
    fn follow(&mut self, alloc: Global, changes: &[RowChange])
        ensures carried { AreCarried (IsUnput changes.now) self.old self.new }
        ensures hosts { (f : ℕ → Option Counted) → AreOfHosts f self.old.hosts → AreOfHosts (with_hosts f changes.now) self.new.hosts }
        ensures jobs { (f : ℕ → ℕ → Option Job) → AreOfJobs f self.old.jobs → AreOfJobs (with_jobs f changes.now) self.new.jobs }
        ensures skips { (waiting : ℕ → ℕ → Option Bool) (jobs : ℕ → ℕ → Option Job) (hosts : ℕ → Option Counted)
            → AreOfHosts hosts self.old.hosts → AreOfJobs jobs self.old.jobs → AreSkipsFor waiting jobs hosts self.old.skips
            → AreSkipsFor (with_waits waiting changes.now) (with_jobs jobs changes.now) (with_hosts hosts changes.now) self.new.skips }
        ensures held { (jobs : ℕ → ℕ → Option Job) → AreOfJobs jobs self.old.jobs
            → AreHeldOf (holders_of jobs) self.old.held → AreHeldOf (holders_of (with_jobs jobs changes.now)) self.new.held }
        ensures keys { (hosts : ℕ → Option Counted) → AreOfHosts hosts self.old.hosts → AreKeysOf hosts self.old.keys → AreKeysOf (with_hosts hosts changes.now) self.new.keys }
        ensures names { (titles : ℕ → Option (List ℕ)) → AreNamesOf titles self.old.units → AreNamesOf (with_titles titles changes.now) self.new.units }
        ensures slot { self.new.slot ≡ None }
        ensures window { (waiting : ℕ → ℕ → Option Bool) → IfSome self.old.window (IsWindowFor waiting) → IfSome self.new.window (IsWindowFor (with_waits waiting changes.now)) }
    {
        for change in changes {
            self.note_row(alloc, change.row());
        }
        self.slot = None;
    }

    /// Takes note of rows that were put and lead from one world to another. If the cache agrees with the first world, it
    /// agrees with the second one afterwards. The slot for a call is forgotten, so the kept calls may be any then.
    pub fn note_put(&mut self, alloc: Global, changes: &[RowChange])
        ensures { (before after : World) (calls calls_after : SlotCalls) → Lead changes.now before after → IsCacheOf before calls self.old → IsCacheOf after calls_after self.new }
    {
        self.follow(alloc, changes);
    }
}
