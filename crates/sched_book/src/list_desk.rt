//! The plain desk, which keeps a world as lists and searches them.

ghost use Rattle.std.specs.Prelude.{◌≡◌, ⊤, true, length, is_ok, IfOk, IfErr, OnOk, OnErr};
ghost use Rattle.sched_book.specs.Limits.{IsBounded};
ghost use Rattle.sched_book.specs.declared.cause.Cause.TheVariants.{Memory};
ghost use Rattle.sched_book.specs.Delta.{applied};
ghost use Rattle.sched_book.specs.Places.{unit_named, known_host, held_by, sent_on_day, host_credit, user_credit};
ghost use Rattle.sched_book.specs.Desk.{counts, agreement_at, unit_status};
ghost use Rattle.sched_book.specs.Step.{empty_world};

use crate::by_place::{
    account_place, app_place, copy_at, copy_instance, copy_nth, find_version, host_place, nth,
    unit_place,
};
use crate::cause::{Cause, Invariant};
use crate::changing::changed;
use crate::count::{agreement_by, book_status};
use crate::delta::{Delta, is_bounded};
use crate::desk::{Counts, Desk, Placed, Taker, Unavailable, Units};
use crate::instance::{Instance, Place, Status};
use crate::moment::Moment;
use crate::offers::offer_all;
use crate::rows::{Account, Agreement, App, HostRow, Version, Workunit};
use crate::selection::Selection;
use crate::settings::Settings;
use crate::versions::version_of_app;
use crate::world::World;
use std::alloc::Global;
use std::marker::Model;
use texts::{Listed, Memory};

/// A desk over lists in memory. It answers by searching the rows, and changes a copy of its world. So the time of a call
/// grows with the number of rows; for a host or a user it goes through all instances. A call that returns neither a row
/// nor a list takes no memory, and always succeeds.
#[derive(Drop)]
pub struct ListDesk {
    alloc: Global,
    world: World,
}

impl Model for ListDesk {
    ghost use Rattle.sched_book.specs.Limits.{IsBounded};
    ghost use Rattle.sched_book.specs.declared.world.World.{World};

    ghost Value = { World };

    ghost view = { λ d. d.world };

    ghost invariant = { λ d. IsBounded d.world };
}

impl ListDesk {
    /// The desk of the world that has these settings and nothing else.
    pub fn new(alloc: Global, settings: &Settings) -> Result<ListDesk, Memory>
        ensures { IfOk result (λ d. d ≡ empty_world settings.now) }
    {
        let world = World {
            settings: settings.clone()?,
            accounts: Listed::new(alloc),
            apps: Listed::new(alloc),
            versions: Listed::new(alloc),
            units: Listed::new(alloc),
            hosts: Listed::new(alloc),
        };
        Ok(ListDesk { alloc, world })
    }

    /// The desk of a world. Refused if a list is longer than its table may be.
    pub fn of(alloc: Global, world: World) -> Result<ListDesk, Unavailable>
        ensures ok { IfOk result (λ d. d ≡ world) }
        ensures bounded { IsBounded world → is_ok result ≡ true }
    {
        if !is_bounded(&world) {
            return Err(Unavailable(Cause::Spoiled(Invariant::ListsOfDesk)));
        }
        Ok(ListDesk { alloc, world })
    }

    /// The world that it represents.
    pub fn as_world(&self) -> &World
        ensures { result.now ≡ self.now }
    {
        &self.world
    }

    /// Returns the desk of the world with these changes made; this desk stays as it is.
    pub fn with(&self, delta: &Delta) -> Result<ListDesk, Unavailable>
        ensures ok { IfOk result (λ d. d ≡ applied self.now delta.now) }
        ensures causes { IsBounded (applied self.now delta.now) → IfErr result (λ u. u.0 ≡ Memory) }
    {
        ListDesk::of(self.alloc, changed(self.alloc, &self.world, delta)?)
    }

    /// Makes all changes, or none. Refused if the changes would make a list longer than its table may be.
    pub fn apply(&mut self, delta: &Delta) -> Result<(), Unavailable>
        ensures ok { OnOk result (self.new ≡ applied self.old delta.now) }
        ensures err { OnErr result (self.new ≡ self.old) }
        ensures causes { IsBounded (applied self.old delta.now) → IfErr result (λ u. u.0 ≡ Memory) }
    {
        *self = self.with(delta)?;
        Ok(())
    }
}

impl Units for ListDesk {
    ghost use Rattle.std.proofs.Common.{rules};

    ghost world = { λ d. d };

    ghost honest = { λ _. ⊤ };

    ghost well_kept = { λ _. ⊤ };

    ghost reads = { λ a b. a ≡ b };

    ghost may_fail = { λ _ u. u.0 ≡ Memory };

    fn unit_by_name(&mut self, name: &str) -> Result<Option<u32>, Unavailable>
        ensures reads { self.new ≡ self.old }
        ensures answer { result ≡ Ok (unit_named self.old name.now) }
    {
        Ok(unit_place(self.world.units.as_slice(), name))
    }

    fn unit(&mut self, _alloc: Global, unit: u32) -> Result<Option<Workunit>, Unavailable> {
        match nth(self.world.units.as_slice(), unit) {
            None => Ok(None),
            Some(book) => Ok(Some(book.unit.clone()?)),
        }
    }

    fn agreement_of(&mut self, _alloc: Global, unit: u32) -> Result<Option<Agreement>, Unavailable>
        ensures reads { self.new ≡ self.old }
        ensures answer { result ≡ Ok (agreement_at self.old unit) }
    {
        match nth(self.world.units.as_slice(), unit) {
            None => Ok(None),
            Some(book) => Ok(Some(agreement_by(
                self.world.apps.as_slice(),
                book.unit.app.as_str(),
            ))),
        }
    }

    fn instance(
        &mut self,
        _alloc: Global,
        unit: u32,
        number: u32,
    ) -> Result<Option<Instance>, Unavailable> {
        match nth(self.world.units.as_slice(), unit) {
            None => Ok(None),
            Some(book) => Ok(copy_instance(book, number)?),
        }
    }

    fn instances_of(&mut self, alloc: Global, unit: u32) -> Result<Listed<Instance>, Unavailable> {
        match nth(self.world.units.as_slice(), unit) {
            None => Ok(Listed::new(alloc)),
            Some(book) => Ok(book.instances.clone()?),
        }
    }

    ghost reads_none = { λ d. Prim.search rules };

    ghost reads_on = { λ a b c h k. Prim.search rules };

    ghost stays_honest = { λ a b h k. Prim.search rules };

    ghost stays_kept = { λ a b h k l. Prim.search rules };

    ghost stays_same = { λ a b h k l. Prim.search rules };

    ghost fails_for_memory = { λ a. Prim.search rules };

    ghost stays_failing = { λ a b h k l u m. m };
}

impl Desk for ListDesk {
    fn settings(&mut self, _alloc: Global) -> Result<Settings, Unavailable> {
        Ok(self.world.settings.clone()?)
    }

    fn counts(&mut self) -> Result<Counts, Unavailable>
        ensures reads { self.new ≡ self.old }
        ensures answer { result ≡ Ok (counts self.old) }
    {
        Ok(Counts {
            accounts: self.world.accounts.len() as u32,
            apps: self.world.apps.len() as u32,
            versions: self.world.versions.len() as u32,
            workunits: self.world.units.len() as u32,
            hosts: self.world.hosts.len() as u32,
        })
    }

    fn account_by_key(
        &mut self,
        _alloc: Global,
        authenticator: &str,
    ) -> Result<Option<Placed<Account>>, Unavailable> {
        let accounts = self.world.accounts.as_slice();
        Ok(copy_at(accounts, account_place(accounts, authenticator))?)
    }

    fn app_by_name(
        &mut self,
        _alloc: Global,
        name: &str,
    ) -> Result<Option<Placed<App>>, Unavailable> {
        let apps = self.world.apps.as_slice();
        Ok(copy_at(apps, app_place(apps, name))?)
    }

    fn host_by_key(&mut self, account: u32, cpid: &str) -> Result<Option<u32>, Unavailable>
        ensures reads { self.new ≡ self.old }
        ensures answer { result ≡ Ok (known_host self.old account cpid.now) }
    {
        Ok(host_place(self.world.hosts.as_slice(), account, cpid))
    }

    fn host_by_id(&mut self, _alloc: Global, host: u32) -> Result<Option<HostRow>, Unavailable> {
        Ok(copy_nth(self.world.hosts.as_slice(), host)?)
    }

    fn status_of(&mut self, unit: u32) -> Result<Option<Status>, Unavailable>
        ensures reads { self.new ≡ self.old }
        ensures answer { result ≡ Ok (unit_status self.old unit) }
    {
        match nth(self.world.units.as_slice(), unit) {
            None => Ok(None),
            Some(book) => Ok(Some(book_status(self.world.apps.as_slice(), book))),
        }
    }

    fn held_by(&mut self, alloc: Global, host: u32) -> Result<Listed<Place>, Unavailable> {
        Ok(Selection::HeldBy(host).places(alloc, &self.world)?)
    }

    #[tactic(auto, using(crate::proofs::PlaceLists::held_counted))]
    fn held_count(&mut self, host: u32) -> Result<u32, Unavailable>
        ensures reads { self.new ≡ self.old }
        ensures answer { result ≡ Ok (length (held_by self.old host)) }
    {
        Ok(Selection::HeldBy(host).count(&self.world))
    }

    fn owned_by(&mut self, alloc: Global, host: u32) -> Result<Listed<Place>, Unavailable> {
        Ok(Selection::OwnedBy(host).places(alloc, &self.world)?)
    }

    fn sent_on_day(&mut self, host: u32, day: u64) -> Result<u32, Unavailable>
        ensures reads { self.new ≡ self.old }
        ensures answer { result ≡ Ok (sent_on_day self.old host day) }
    {
        Ok(Selection::SentOn { host, day }.count(&self.world))
    }

    fn units_of_user(&mut self, alloc: Global, account: u32) -> Result<Listed<u32>, Unavailable> {
        Ok(Selection::OfUser(account).units(alloc, &self.world)?)
    }

    fn credit_of_host(&mut self, host: u32) -> Result<u64, Unavailable>
        ensures reads { self.new ≡ self.old }
        ensures answer { result ≡ Ok (host_credit self.old host) }
    {
        Ok(Selection::OwnedBy(host).credit(&self.world))
    }

    #[tactic(auto, using(crate::proofs::Credits::user_credited))]
    fn credit_of_user(&mut self, account: u32) -> Result<u64, Unavailable>
        ensures reads { self.new ≡ self.old }
        ensures answer { result ≡ Ok (user_credit self.old account) }
    {
        Ok(Selection::OfUser(account).credit(&self.world))
    }

    fn version_for(
        &mut self,
        _alloc: Global,
        host: &HostRow,
        app: u32,
    ) -> Result<Option<Version>, Unavailable> {
        match nth(self.world.apps.as_slice(), app) {
            None => Ok(None),
            Some(app) => Ok(version_of_app(
                self.world.versions.as_slice(),
                app.name.as_str(),
                host.platforms.as_slice(),
            )?),
        }
    }

    fn version_by_key(
        &mut self,
        _alloc: Global,
        app: &str,
        platform: &str,
        version_num: u32,
    ) -> Result<Option<Version>, Unavailable> {
        match find_version(self.world.versions.as_slice(), app, platform, version_num) {
            None => Ok(None),
            Some(version) => Ok(Some(version.clone()?)),
        }
    }

    fn due_before(&mut self, alloc: Global, now: Moment) -> Result<Listed<Place>, Unavailable> {
        Ok(Selection::Overdue(now).places(alloc, &self.world)?)
    }

    fn unsent_from<T: Taker>(&mut self, from: Place, taker: &mut T) -> Result<(), Unavailable> {
        Ok(offer_all(&self.world, from, taker)?)
    }

    #[tactic(auto, using(crate::proofs::Offering::all_kept, crate::proofs::Offering::some_kept))]
    fn unsent_for<T: Taker>(
        &mut self,
        _account: u32,
        from: Place,
        taker: &mut T,
    ) -> Result<(), Unavailable> {
        Ok(offer_all(&self.world, from, taker)?)
    }

    fn note_had(&mut self, _account: u32, _before: Place)
        ensures reads { self.new ≡ self.old }
    {}
}
