//! The tables answer as the desk of the world that they hold. A look-up runs a statement over a key or an index, if its answer
//! is not remembered.

use crate::tables::Tables;
use sched_book::count::agreement_by;
use sched_book::limits::MOST_INSTANCES;
use sched_book::{
    Account, Agreement, App, Counts, Desk, HostRow, Instance, Moment, Place, Placed, Settings,
    Status, Taker, Unavailable, Units, Version, Workunit, copy_of,
};
use sqlite::Alter;
use std::alloc::Global;
use table_desk::KnownUnits;
use texts::Listed;

impl<S: Alter> Units for Tables<S> {
    ghost use Rattle.std.proofs.Common.{rules};
    ghost use Rattle.std.specs.Prelude.{◌≡◌, ⊤};
    ghost use Rattle.sched_tables.specs.Held.{IsHonest};
    ghost use Rattle.sched_tables.specs.ReadLaws.{stays_same, was_honest, stays_both, rows_before, due_from_before};
    ghost use Rattle.sched_tables.specs.Views.{state_of, world_of, AreKept, AreReadOn};

    ghost world = { world_of S.Store };

    ghost honest = { λ t. IsHonest (state_of S.Store t) };

    ghost well_kept = { AreKept S.Store };

    ghost reads = { AreReadOn S.Store };

    // Nothing is promised yet of why the tables are unavailable.
    ghost may_fail = { λ _ _. ⊤ };

    fn unit_by_name(&mut self, name: &str) -> Result<Option<u32>, Unavailable> {
        match self.cache.unit_named(self.alloc, name)? {
            Some(unit) => Ok(Some(unit)),
            None => self.read_unit_named(name),
        }
    }

    fn unit(&mut self, alloc: Global, unit: u32) -> Result<Option<Workunit>, Unavailable> {
        match self.cache.known_unit(unit)? {
            Some(row) => Ok(Some(row)),
            None => self.read_unit(alloc, unit),
        }
    }

    fn agreement_of(&mut self, alloc: Global, unit: u32) -> Result<Option<Agreement>, Unavailable> {
        match self.unit(alloc, unit)? {
            None => Ok(None),
            Some(row) => Ok(Some(agreement_by(self.apps.as_slice(), row.app.as_str()))),
        }
    }

    fn instance(
        &mut self,
        alloc: Global,
        unit: u32,
        number: u32,
    ) -> Result<Option<Instance>, Unavailable> {
        match self.cache.instance(unit, number)? {
            Some(found) => Ok(Some(found)),
            None => table_desk::instance_at(alloc, &mut self.conn, unit, number),
        }
    }

    fn instances_of(&mut self, alloc: Global, unit: u32) -> Result<Listed<Instance>, Unavailable> {
        match self.cache.instances(unit)? {
            Some(rows) if rows.len() <= MOST_INSTANCES => Ok(rows),
            _ => self.read_instances(alloc, unit),
        }
    }

    ghost reads_none = { λ d. (Prim.search rules, Prim.search rules, Prim.search rules, λ honest kept. kept.1.rows_are, λ honest kept. kept.1.due_from_is) };

    ghost reads_on = { λ a b c h k. (
      Prim.search rules,
      Prim.search rules,
      Prim.search rules,
      λ honest kept.
          let then = was_honest _ _ k.0 honest in
          rows_before _ _ h.0 then kept.0 _ (k.3 honest (stays_both _ _ h.0 then _ _ _ _ _ _ _ _ h.1 h.2 (h.3 then kept) (h.4 then kept) kept)),
      λ honest kept.
          let then = was_honest _ _ k.0 honest in
          due_from_before _ _ h.0 then kept.0 _ (k.4 honest (stays_both _ _ h.0 then _ _ _ _ _ _ _ _ h.1 h.2 (h.3 then kept) (h.4 then kept) kept)),
    ) };

    ghost stays_honest = { λ a b h k. Prim.search rules };

    ghost stays_kept = { λ a b h k l. stays_both _ _ h.0 k _ _ _ _ _ _ _ _ h.1 h.2 (h.3 k l) (h.4 k l) l };

    ghost stays_same = { λ a b h k l. stays_same _ _ h.0 k l.0 };

    ghost fails_for_memory = { λ a. tt };

    ghost stays_failing = { λ a b h k l u m. tt };
}

impl<S: Alter> Desk for Tables<S> {
    fn settings(&mut self, alloc: Global) -> Result<Settings, Unavailable> {
        Ok(copy_of(&self.settings)?)
    }

    fn counts(&mut self) -> Result<Counts, Unavailable> {
        self.read_counts()
    }

    fn account_by_key(
        &mut self,
        alloc: Global,
        authenticator: &str,
    ) -> Result<Option<Placed<Account>>, Unavailable> {
        match self.cache.account(alloc, authenticator)? {
            Some(found) => Ok(Some(found)),
            None => self.read_account(alloc, authenticator),
        }
    }

    fn app_by_name(
        &mut self,
        alloc: Global,
        name: &str,
    ) -> Result<Option<Placed<App>>, Unavailable> {
        table_desk::app_by_name(self.apps.as_slice(), name)
    }

    fn host_by_key(&mut self, account: u32, cpid: &str) -> Result<Option<u32>, Unavailable> {
        match self.cache.host_key(self.alloc, account, cpid)? {
            Some(host) => Ok(Some(host)),
            None => self.read_host_key(account, cpid),
        }
    }

    fn host_by_id(&mut self, alloc: Global, host: u32) -> Result<Option<HostRow>, Unavailable> {
        match self.counted_host(alloc, host)? {
            None => Ok(None),
            Some(found) => Ok(Some(found.row)),
        }
    }

    fn status_of(&mut self, unit: u32) -> Result<Option<Status>, Unavailable> {
        table_desk::status_of(self.alloc, &mut self.conn, unit)
    }

    fn held_by(&mut self, alloc: Global, host: u32) -> Result<Listed<Place>, Unavailable> {
        match self.cache.held(alloc, host)? {
            Some(places) => Ok(places),
            None => self.read_held(alloc, host),
        }
    }

    fn held_count(&mut self, host: u32) -> Result<u32, Unavailable> {
        self.count_held(host)
    }

    fn owned_by(&mut self, alloc: Global, host: u32) -> Result<Listed<Place>, Unavailable> {
        table_desk::owned_by(alloc, &mut self.conn, host)
    }

    fn sent_on_day(&mut self, host: u32, day: u64) -> Result<u32, Unavailable> {
        match self.cache.sent(host, day) {
            Some(count) => Ok(count),
            None => self.read_sent(host, day),
        }
    }

    fn units_of_user(&mut self, alloc: Global, account: u32) -> Result<Listed<u32>, Unavailable> {
        table_desk::units_of_user(alloc, &mut self.conn, account)
    }

    fn credit_of_host(&mut self, host: u32) -> Result<u64, Unavailable> {
        match self.counted_host(self.alloc, host)? {
            None => table_desk::credit_of_none_given(self.alloc, &mut self.conn, host),
            Some(found) => Ok(found.credit),
        }
    }

    fn credit_of_user(&mut self, account: u32) -> Result<u64, Unavailable> {
        match self.cache.credit(account) {
            Some(credit) => Ok(credit),
            None => self.read_credit(account),
        }
    }

    fn version_for(
        &mut self,
        alloc: Global,
        host: &HostRow,
        app: u32,
    ) -> Result<Option<Version>, Unavailable> {
        match self.cache.version(host.platforms.as_slice(), app)? {
            Some(found) => Ok(Some(found)),
            None => self.read_version(alloc, host, app),
        }
    }

    fn version_by_key(
        &mut self,
        alloc: Global,
        app: &str,
        platform: &str,
        version_num: u32,
    ) -> Result<Option<Version>, Unavailable> {
        let apps = self.apps.as_slice();
        table_desk::version_by_key(alloc, &mut self.conn, apps, app, platform, version_num)
    }

    fn due_before(&mut self, alloc: Global, now: Moment) -> Result<Listed<Place>, Unavailable> {
        self.raise_due_from(alloc)?;
        self.asked = now.seconds();
        self.read_due(alloc, now.seconds())
    }

    fn unsent_from<T: Taker>(&mut self, from: Place, taker: &mut T) -> Result<(), Unavailable> {
        self.offer_and_note(None, from, taker)
    }

    fn unsent_for<T: Taker>(
        &mut self,
        account: u32,
        from: Place,
        taker: &mut T,
    ) -> Result<(), Unavailable> {
        self.offer_and_note(Some(account), from, taker)
    }

    fn note_had(&mut self, account: u32, before: Place) {
        self.remember_had(account, before);
    }
}
