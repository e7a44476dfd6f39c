//! Rows read by their keys, and remembered until the next commit.

ghost use Rattle.std.specs.Prelude.{◌≡◌, ◌≤◌, length, IfOk};
ghost use Rattle.sqlite.specs.Held.{state};
ghost use Rattle.sched_book.specs.Desk.{account_by_key, counts, workunit_at, instances_at};
ghost use Rattle.sched_book.specs.Fits.{version_at};
ghost use Rattle.sched_book.specs.Limits.{most_instances};
ghost use Rattle.sched_book.specs.Places.{held_by, known_host, sent_on_day, unit_named, user_credit};
ghost use Rattle.table_desk.specs.Asked.{LooksUp};
ghost use Rattle.table_desk.specs.Columns.{counted_host_at};
ghost use Rattle.table_meaning.specs.Reads.{Reads};
ghost use Rattle.sched_tables.specs.Held.{IsHonest};
ghost use Rattle.sched_tables.specs.Views.{state_of, world_of, AreKept, AreReadOn};

use crate::tables::Tables;
use sched_book::{
    Account, Counts, HostRow, Instance, Place, Placed, Unavailable, Version, Workunit,
};
use sqlite::{Alter, Connection};
use std::alloc::Global;
use table_desk::CountedHost;
use texts::Listed;

/// The places that the host holds, in order, if it holds at most `most`. If that is none, no statement runs.
fn places_held<S: Alter>(
    alloc: Global,
    conn: &mut Connection<S>,
    host: u32,
    most: u32,
) -> Result<Listed<Place>, Unavailable>
    ensures reads { Reads (state S.Store conn.old) (state S.Store conn.new) }
    ensures answer { LooksUp S.Store conn.old conn.new (λ w. length (held_by w host) ≤ most → IfOk result (λ r. r ≡ held_by w host)) }
{
    if most == 0 {
        return Ok(Listed::new(alloc));
    }
    table_desk::held_by(alloc, conn, host, most)
}

impl<S: Alter> Tables<S> {
    /// How many rows there are, by statements.
    pub(crate) fn read_counts(&mut self) -> Result<Counts, Unavailable>
        ensures reads { AreReadOn S.Store self.old self.new }
        ensures answer { IsHonest (state_of S.Store self.new) → AreKept S.Store self.old → IfOk result (λ r. r ≡ counts (world_of S.Store self.old)) }
    {
        let found = table_desk::counts(self.alloc, &mut self.conn)?;
        self.cache.remember_counts(&found);
        Ok(found)
    }

    /// The workunit at this place, by a statement.
    pub(crate) fn read_unit(
        &mut self,
        alloc: Global,
        unit: u32,
    ) -> Result<Option<Workunit>, Unavailable>
        ensures reads { AreReadOn S.Store self.old self.new }
        ensures answer { IsHonest (state_of S.Store self.new) → AreKept S.Store self.old → IfOk result (λ r. r ≡ workunit_at (world_of S.Store self.old) unit) }
    {
        let found = table_desk::unit_at(alloc, &mut self.conn, self.apps.as_slice(), unit)?;
        self.cache.remember_unit(unit, &found);
        Ok(found)
    }

    /// The instances of the workunit at this place, by a statement.
    pub(crate) fn read_instances(
        &mut self,
        alloc: Global,
        unit: u32,
    ) -> Result<Listed<Instance>, Unavailable>
        ensures reads { AreReadOn S.Store self.old self.new }
        ensures few { IfOk result (λ r. length r ≤ most_instances) }
        ensures answer { IsHonest (state_of S.Store self.new) → AreKept S.Store self.old → IfOk result (λ r. r ≡ instances_at (world_of S.Store self.old) unit) }
    {
        let found = table_desk::instances_at(alloc, &mut self.conn, unit)?;
        self.cache.remember_instances(unit, &found);
        Ok(found)
    }

    /// The host of this number with what is counted of it, by a statement.
    fn read_host(&mut self, alloc: Global, host: u32) -> Result<Option<CountedHost>, Unavailable>
        ensures reads { AreReadOn S.Store self.old self.new }
        ensures answer { IsHonest (state_of S.Store self.new) → AreKept S.Store self.old → IfOk result (λ r. r ≡ counted_host_at (world_of S.Store self.old) host) }
    {
        let found = table_desk::counted_host(alloc, &mut self.conn, host)?;
        self.cache.remember_host(host, &found);
        Ok(found)
    }

    /// The host of this number, with what is counted of it.
    pub(crate) fn counted_host(
        &mut self,
        alloc: Global,
        host: u32,
    ) -> Result<Option<CountedHost>, Unavailable>
        ensures reads { AreReadOn S.Store self.old self.new }
        ensures answer { IsHonest (state_of S.Store self.new) → AreKept S.Store self.old → IfOk result (λ r. r ≡ counted_host_at (world_of S.Store self.old) host) }
    {
        match self.cache.host(host)? {
            Some(found) => Ok(Some(found)),
            None => self.read_host(alloc, host),
        }
    }

    /// How many instances this host holds.
    pub(crate) fn count_held(&mut self, host: u32) -> Result<u32, Unavailable>
        ensures reads { AreReadOn S.Store self.old self.new }
        ensures answer { IsHonest (state_of S.Store self.new) → AreKept S.Store self.old → IfOk result (λ r. r ≡ length (held_by (world_of S.Store self.old) host)) }
    {
        match self.counted_host(self.alloc, host)? {
            None => table_desk::held_of_none_given(self.alloc, &mut self.conn, host),
            Some(found) => Ok(found.held),
        }
    }

    /// The places that this host holds, in order, by a statement if there are any.
    pub(crate) fn read_held(
        &mut self,
        alloc: Global,
        host: u32,
    ) -> Result<Listed<Place>, Unavailable>
        ensures reads { AreReadOn S.Store self.old self.new }
        ensures answer { IsHonest (state_of S.Store self.new) → AreKept S.Store self.old → IfOk result (λ r. r ≡ held_by (world_of S.Store self.old) host) }
    {
        let count = self.count_held(host)?;
        let found = places_held(alloc, &mut self.conn, host, count)?;
        self.cache.remember_held(alloc, host, &found);
        Ok(found)
    }

    /// The credit of the user of this account, in millicredits, by a statement.
    pub(crate) fn read_credit(&mut self, account: u32) -> Result<u64, Unavailable>
        ensures reads { AreReadOn S.Store self.old self.new }
        ensures answer { IsHonest (state_of S.Store self.new) → AreKept S.Store self.old → IfOk result (λ r. r ≡ user_credit (world_of S.Store self.old) account) }
    {
        let credit = table_desk::credit_of_user(self.alloc, &mut self.conn, account)?;
        self.cache.remember_credit(account, credit);
        Ok(credit)
    }

    /// How many jobs this host was sent on a day, by a statement.
    pub(crate) fn read_sent(&mut self, host: u32, day: u64) -> Result<u32, Unavailable>
        ensures reads { AreReadOn S.Store self.old self.new }
        ensures answer { IsHonest (state_of S.Store self.new) → AreKept S.Store self.old → IfOk result (λ r. r ≡ sent_on_day (world_of S.Store self.old) host day) }
    {
        let count = table_desk::sent_on_day(self.alloc, &mut self.conn, host, day)?;
        self.cache.remember_sent(host, day, count);
        Ok(count)
    }

    /// The account with this authenticator, by a statement.
    pub(crate) fn read_account(
        &mut self,
        alloc: Global,
        authenticator: &str,
    ) -> Result<Option<Placed<Account>>, Unavailable>
        ensures reads { AreReadOn S.Store self.old self.new }
        ensures answer { IsHonest (state_of S.Store self.new) → AreKept S.Store self.old → IfOk result (λ r. r ≡ account_by_key (world_of S.Store self.old) authenticator.now) }
    {
        let found = table_desk::account_by_key(alloc, &mut self.conn, authenticator)?;
        self.cache.remember_account(alloc, authenticator, &found);
        Ok(found)
    }

    /// The number of the host with this account and this host_cpid, by a statement.
    pub(crate) fn read_host_key(
        &mut self,
        account: u32,
        cpid: &str,
    ) -> Result<Option<u32>, Unavailable>
        ensures reads { AreReadOn S.Store self.old self.new }
        ensures answer { IsHonest (state_of S.Store self.new) → AreKept S.Store self.old → IfOk result (λ r. r ≡ known_host (world_of S.Store self.old) account cpid.now) }
    {
        let found = table_desk::host_by_key(self.alloc, &mut self.conn, account, cpid)?;
        self.cache
            .remember_host_key(self.alloc, account, cpid, found);
        Ok(found)
    }

    /// The place of the workunit of this name, by a statement.
    pub(crate) fn read_unit_named(&mut self, name: &str) -> Result<Option<u32>, Unavailable>
        ensures reads { AreReadOn S.Store self.old self.new }
        ensures answer { IsHonest (state_of S.Store self.new) → AreKept S.Store self.old → IfOk result (λ r. r ≡ unit_named (world_of S.Store self.old) name.now) }
    {
        let found = table_desk::unit_by_name(self.alloc, &mut self.conn, name)?;
        self.cache.remember_unit_name(self.alloc, name, found);
        Ok(found)
    }

    /// The version that the host runs of the application at this place, by statements.
    pub(crate) fn read_version(
        &mut self,
        alloc: Global,
        host: &HostRow,
        app: u32,
    ) -> Result<Option<Version>, Unavailable>
        ensures reads { AreReadOn S.Store self.old self.new }
        ensures answer { IsHonest (state_of S.Store self.new) → AreKept S.Store self.old → IfOk result (λ r. r ≡ version_at (world_of S.Store self.old) host.now app) }
    {
        let apps = self.apps.as_slice();
        let found = table_desk::version_for(alloc, &mut self.conn, apps, host, app)?;
        self.cache
            .remember_version(alloc, host.platforms.as_slice(), app, &found);
        Ok(found)
    }
}
