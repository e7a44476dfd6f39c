//! The stored tables, and what is kept in memory with them.

ghost use Rattle.std.specs.Prelude.{◌≡◌};
ghost use Rattle.sqlite.specs.State.{HasCleanDisk};
ghost use Rattle.sqlite.specs.Held.{state};
ghost use Rattle.sqlite_trees.specs.Tree.{Trees};
ghost use Rattle.sched_tables.specs.Held.{IsHonest};
ghost use Rattle.sched_tables.specs.Reopening.{Reopens};
ghost use Rattle.sched_tables.specs.Views.{state_of};

use sched_book::{App, Settings};
use sqlite::{Alter, Connection};
use std::alloc::Global;
use table_cache::Cache;
use texts::Listed;

/// The stored tables as a desk. What seldom changes is kept in memory: the settings, which never change, and the
/// applications, of which there are at most a hundred. Everything else is read by its key or by an index, if it is not
/// remembered. What is due is looked for from the moment `due_from` on, which is not stored.
pub struct Tables<S: Alter> {
    pub(crate) alloc: Global,
    pub(crate) conn: Connection<S>,
    pub(crate) settings: Settings,
    pub(crate) apps: Listed<App>,
    pub(crate) cache: Cache,
    /// No held instance has its deadline before this moment, in seconds since 1970-01-01T00:00:00Z.
    pub(crate) due_from: u64,
    /// The moment for which what is due was last looked up, in seconds since 1970-01-01T00:00:00Z.
    pub(crate) asked: u64,
}

impl<S: Alter> Tables<S> {
    /// Gives the connection back, with its tables as they are. A stop leaves of it only what it could leave of the
    /// tables. It can be opened again if they could.
    pub fn into_connection(self) -> Connection<S>
        ensures same { ((state S.Store result).now ≡ (state_of S.Store self).now) × ((state S.Store result).committed ≡ (state_of S.Store self).committed) }
        ensures honest { IsHonest (state_of S.Store self) → IsHonest (state S.Store result) }
        ensures clean { HasCleanDisk (state S.Store result) → HasCleanDisk (state_of S.Store self) }
        ensures left { (trees : Trees) → (state S.Store result).may_leave trees → (state_of S.Store self).may_leave trees }
        ensures reopens { Reopens (state_of S.Store self) → Reopens (state S.Store result) }
    {
        let Tables {
            alloc: _,
            conn,
            settings: _settings,
            apps: _apps,
            cache: _cache,
            due_from: _,
            asked: _,
        } = self;
        conn
    }
}

// Written out, so a caller need not prove again how each part is dropped.
impl<S: Alter + Drop> Drop for Tables<S> {
    fn drop(self) {
        let Tables {
            alloc: _,
            conn: _conn,
            settings: _settings,
            apps: _apps,
            cache: _cache,
            due_from: _,
            asked: _,
        } = self;
    }
}
