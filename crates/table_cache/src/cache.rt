//! What look-ups found, and is as it was found or as it was put since. So no row is asked for twice.

ghost use Rattle.std.specs.Prelude.{◌≡◌, All, IfSome};
ghost use Rattle.sched_book.specs.Desk.{counts as counts_of, workunit_at};
ghost use Rattle.sched_book.specs.declared.world.World.{World};
ghost use Rattle.table_desk.specs.Columns.{counted_host_at};
ghost use Rattle.table_meaning.specs.Worlds.{SlotCalls};
ghost use Rattle.table_cache.specs.Covering.{jobs_of, IsSkipFor};
ghost use Rattle.table_desk.specs.WaitingWindow.{waiting_of, IsWindowOf};
ghost use Rattle.table_cache.specs.Remembering.{IsCacheOf, IsUnitOf};
ghost use Rattle.table_cache.specs.NextSlot.{IsSlotFor};
ghost use Rattle.sched_book.specs.Skipping.{HadAllBefore};

use crate::credits::HostsRead;
use crate::keys::{AccountRead, HostKeyRead, UnitsRead};
use crate::rows_read::RowsRead;
use crate::sent::JobsRead;
use crate::skips::Skips;
use crate::versions::VersionRead;
use sched_book::{Counts, Place, Workunit};
use std::alloc::Global;
use table_desk::{KnownUnits, QueueWindow, Skip};
use texts::{Listed, Memory, Text};

/// The most instances that are remembered, with one more for each workunit: those of all jobs that one call can touch. Each
/// may have an output of 1,024 bytes.
const MOST_INSTANCES: usize = 120_000;

/// The most places that are remembered, in lists of what hosts hold, with one more for each host.
const MOST_PLACES: usize = 1_000_000;

/// The most that is remembered of each other kind: rows, numbers by texts, and sums.
const MOST_OTHERS: usize = 10_000;

/// A workunit that was read, with its place.
#[derive(Drop)]
pub struct UnitRead {
    pub place: u32,
    pub row: Workunit,
}

/// The slot for the next call of a host.
#[derive(Clone, Copy, Drop)]
pub(crate) struct SlotRead {
    host: u32,
    slot: u32,
}

/// What was read, and is as it was read or as it was put since: rows by their keys, credits by accounts, how many jobs hosts
/// were sent on a day, the places that hosts hold, hosts by their keys, workunits by their names, versions, the slot for the next
/// call of the host whose calls were read last, the window of what waits that was read last, the skips of users, the
/// number of the last host, and the place of the last workunit.
pub struct Cache {
    pub(crate) units: UnitsRead,
    pub(crate) jobs: JobsRead,
    pub(crate) hosts: HostsRead,
    pub(crate) held: RowsRead<u32, Listed<Place>>,
    pub(crate) accounts: RowsRead<Text, AccountRead>,
    pub(crate) keys: RowsRead<Text, HostKeyRead>,
    pub(crate) versions: Vec<VersionRead>,
    pub(crate) slot: Option<SlotRead>,
    pub(crate) window: Option<QueueWindow>,
    pub(crate) skips: Skips,
}

// It is written out, so that a caller does not prove again how each part is dropped.
impl Drop for Cache {
    fn drop(self) {
        let Cache {
            units: _units,
            jobs: _jobs,
            hosts: _hosts,
            held: _held,
            accounts: _accounts,
            keys: _keys,
            versions: _versions,
            slot: _slot,
            window: _window,
            skips: _skips,
        } = self;
    }
}

impl Cache {
    /// Nothing.
    pub fn new(alloc: Global) -> Cache
        ensures { (w : World) (calls : SlotCalls) → IsCacheOf w calls result }
    {
        Cache {
            units: UnitsRead::new(alloc, MOST_OTHERS),
            jobs: JobsRead::new(alloc, MOST_INSTANCES, MOST_OTHERS),
            hosts: HostsRead::new(alloc, MOST_OTHERS),
            held: RowsRead::new(alloc, MOST_PLACES),
            accounts: RowsRead::new(alloc, MOST_OTHERS),
            keys: RowsRead::new(alloc, MOST_OTHERS),
            versions: Vec::new(alloc),
            slot: None,
            window: None,
            skips: Skips::new(alloc),
        }
    }

    /// Remembers the workunit at a place, if there is one.
    pub fn remember_unit(&mut self, unit: u32, found: &Option<Workunit>)
        ensures { (w : World) (calls : SlotCalls) → IsCacheOf w calls self.old → found.now ≡ workunit_at w unit → IsCacheOf w calls self.new }
    {
        if let Some(row) = found {
            self.units.rows.remember(unit, row);
        }
    }

    /// Remembers workunits that were read.
    pub fn remember_units(&mut self, read: &[UnitRead])
        ensures { (w : World) (calls : SlotCalls) → IsCacheOf w calls self.old → All (IsUnitOf w) read.now → IsCacheOf w calls self.new }
    {
        for unit in read {
            self.units.rows.remember(unit.place, &unit.row);
        }
    }

    /// The slot for the next call of this host, if its calls were the last ones that were read.
    pub fn slot(&self, host: u32) -> Option<u32>
        ensures { (w : World) (calls : SlotCalls) → IsCacheOf w calls self.now → IfSome result (IsSlotFor (calls host)) }
    {
        match self.slot {
            Some(read) if read.host == host => Some(read.slot),
            _ => None,
        }
    }

    /// Remembers the slot for the next call of a host.
    pub fn remember_slot(&mut self, host: u32, slot: u32)
        ensures { (w : World) (calls : SlotCalls) → IsCacheOf w calls self.old → IsSlotFor (calls host) slot → IsCacheOf w calls self.new }
    {
        self.slot = Some(SlotRead { host, slot });
    }

    /// Takes away the window of what waits that was read last.
    pub fn take_window(&mut self) -> Option<QueueWindow>
        ensures { (w : World) (calls : SlotCalls) → IsCacheOf w calls self.old → IsCacheOf w calls self.new × IfSome result (IsWindowOf w) }
    {
        self.window.take()
    }

    /// Remembers a window of what waits, if one was read.
    pub fn remember_window(&mut self, window: Option<QueueWindow>)
        ensures { (w : World) (calls : SlotCalls) → IsCacheOf w calls self.old → IfSome window (IsWindowOf w) → IsCacheOf w calls self.new }
    {
        self.window = window;
    }

    /// The skip of the user of this account. It covers nothing if none is known, or no account is named.
    pub fn skip_of(&self, account: Option<u32>) -> &Skip
        ensures { (w : World) (calls : SlotCalls) → IsCacheOf w calls self.now → IsSkipFor (waiting_of w) (jobs_of w) (counted_host_at w) account result.now }
    {
        self.skips.of(account)
    }

    /// Remembers the skip of the user of this account.
    pub fn remember_had(&mut self, alloc: Global, account: u32, place: Place)
        ensures { (w : World) (calls : SlotCalls) → IsCacheOf w calls self.old → HadAllBefore w account place → IsCacheOf w calls self.new }
    {
        self.skips.raise(alloc, account, place);
    }

    /// Remembers how many hosts and workunits there are. So one of a greater number is known to be new.
    pub fn remember_counts(&mut self, counts: &Counts)
        ensures { (w : World) (calls : SlotCalls) → IsCacheOf w calls self.old → counts.now ≡ counts_of w → IsCacheOf w calls self.new }
    {
        self.hosts.last = Some(counts.hosts);
        self.units.last = Some(counts.workunits);
        self.jobs.last = Some(counts.workunits);
    }

    /// Forgets it all.
    pub fn forget_all(&mut self)
        ensures { (w : World) (calls : SlotCalls) → IsCacheOf w calls self.new }
    {
        self.units.forget_all();
        self.jobs.forget_all();
        self.hosts.forget_all();
        self.held.forget_all();
        self.accounts.forget_all();
        self.keys.forget_all();
        self.versions.clear();
        self.slot = None;
        self.window = None;
        self.skips.forget_all();
    }
}

impl KnownUnits for Cache {
    ghost use Rattle.table_cache.specs.Remembering.{AreUnitsOf};

    ghost are_of = { λ w r. AreUnitsOf w r.units.rows };

    fn known_unit(&self, unit: u32) -> Result<Option<Workunit>, Memory> {
        self.units.rows.row(&unit)
    }
}
