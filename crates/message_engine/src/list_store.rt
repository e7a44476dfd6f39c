//! The plain store, which keeps everything in lists in memory.

ghost use Rattle.std.specs.Prelude.{◌≡◌, [], length, find, Ok, ⊤, IfOk, OnOk, OnErr};
ghost use Rattle.std.specs.Option.{option_copied};
ghost use Rattle.sched_book.specs.declared.cause.Cause.TheVariants.{Memory};
ghost use Rattle.sched_book.specs.declared.delta.Delta.TheVariants as kinds;
ghost use Rattle.sched_book.specs.Desk.{counts, agreement_at, unit_status};
ghost use Rattle.sched_book.specs.Places.{unit_named, known_host, held_by, sent_on_day, host_credit, user_credit};
ghost use Rattle.stores.specs.Held.{IsCommitted, IsLeft, IsNew};
ghost use Rattle.message_engine.specs.ListStores.{calls_at, is_batch, world_of_list, held_of_list};

use crate::copies::copy_batch;
use reply_register::{Kept, MOST_KEPT, copy_kept};
use sched_book::{
    Account, Agreement, App, Counts, Delta, Desk, HostRow, Instance, ListDesk, Moment, Place,
    Placed, Settings, Status, Taker, Unavailable, Units, Version, Workunit,
};
use std::alloc::Global;
use stores::{Entry, KeptBatch, Kind, Store};
use texts::{Listed, Memory, Text};

/// A kept call.
#[derive(Drop)]
pub struct HostCall {
    /// The number of its host.
    pub host: u32,
    pub kept: Kept,
}

/// A kept import.
#[derive(Drop)]
pub struct Batch {
    pub kind: Kind,
    pub name: Text,
    pub kept: KeptBatch,
}

/// A store over lists in memory: a plain desk, with each call and each import that came. A look-up goes from the latest
/// on.
#[derive(Drop)]
pub struct ListStore {
    alloc: Global,
    desk: ListDesk,
    /// The calls, the latest first.
    calls: Vec<HostCall>,
    /// The imports, the latest first.
    batches: Vec<Batch>,
}

/// Returns copies of the kept calls of the host of this number: its latest four, the last one first.
fn calls_of(alloc: Global, calls: &[HostCall], host: u32) -> Result<Listed<Kept>, Memory>
    ensures { IfOk result (λ kept. kept ≡ calls_at calls.now host) }
{
    let mut kept = Vec::new(alloc);
    for call in calls {
        if call.host == host {
            kept.push(copy_kept(&call.kept)?)?;
        }
    }
    kept.truncate(MOST_KEPT);
    Ok(Listed::of(kept))
}

/// The kept import of this kind and name.
fn find_batch<'a>(batches: &'a [Batch], kind: Kind, name: &str) -> Option<&'a Batch>
    ensures { option_copied result ≡ find (is_batch kind name.now) batches.now }
{
    batches.iter().find(|batch| batch.kind.name() == kind.name() && batch.name.is(name))
}

impl ListStore {
    /// Returns a new store with these settings, which has heard nothing.
    pub fn new(alloc: Global, settings: &Settings) -> Result<ListStore, Memory>
        ensures { IfOk result (λ store. IsNew settings.now (held_of_list store)) }
    {
        Ok(ListStore {
            alloc,
            desk: ListDesk::new(alloc, settings)?,
            calls: Vec::new(alloc),
            batches: Vec::new(alloc),
        })
    }

    /// Keeps an entry, or leaves everything as it was.
    fn keep(&mut self, entry: &Entry) -> Result<(), Memory>
        ensures ok { OnOk result (IsCommitted (kinds.Edits []) entry.now (held_of_list self.old) (held_of_list self.new)) }
        ensures err { OnErr result (IsLeft (held_of_list self.old) (held_of_list self.new)) }
    {
        match entry {
            Entry::Kept(host, kept) => {
                let call = HostCall {
                    host: *host,
                    kept: copy_kept(kept)?,
                };
                self.calls.insert(0, call)?;
            }
            Entry::Batch(kind, name, kept) => {
                let batch = Batch {
                    kind: *kind,
                    name: name.clone()?,
                    kept: copy_batch(self.alloc, kept)?,
                };
                self.batches.insert(0, batch)?;
            }
            Entry::Nothing => {}
        }
        Ok(())
    }
}

impl Units for ListStore {
    ghost use Rattle.std.proofs.Common.{rules};

    ghost world = { world_of_list };

    ghost honest = { λ _. ⊤ };

    ghost well_kept = { λ _. ⊤ };

    ghost reads = { λ a b. a ≡ b };

    ghost may_fail = { λ _ u. u.0 ≡ Memory };

    fn unit_by_name(&mut self, name: &str) -> Result<Option<u32>, Unavailable>
        ensures reads { self.new ≡ self.old }
        ensures answer { result ≡ Ok (unit_named (world_of_list self.old) name.now) }
    {
        self.desk.unit_by_name(name)
    }

    fn unit(&mut self, alloc: Global, unit: u32) -> Result<Option<Workunit>, Unavailable> {
        self.desk.unit(alloc, unit)
    }

    fn agreement_of(&mut self, alloc: Global, unit: u32) -> Result<Option<Agreement>, Unavailable>
        ensures reads { self.new ≡ self.old }
        ensures answer { result ≡ Ok (agreement_at (world_of_list self.old) unit) }
    {
        self.desk.agreement_of(alloc, unit)
    }

    fn instance(
        &mut self,
        alloc: Global,
        unit: u32,
        number: u32,
    ) -> Result<Option<Instance>, Unavailable> {
        self.desk.instance(alloc, unit, number)
    }

    fn instances_of(&mut self, alloc: Global, unit: u32) -> Result<Listed<Instance>, Unavailable> {
        self.desk.instances_of(alloc, unit)
    }

    ghost reads_none = { λ d. Prim.search rules };

    ghost reads_on = { λ a b c h k. Prim.search rules };

    ghost stays_honest = { λ a b h k. Prim.search rules };

    ghost stays_kept = { λ a b h k l. Prim.search rules };

    ghost stays_same = { λ a b h k l. Prim.search rules };

    ghost fails_for_memory = { λ a. Prim.search rules };

    ghost stays_failing = { λ a b h k l u m. m };
}

impl Desk for ListStore {
    fn settings(&mut self, alloc: Global) -> Result<Settings, Unavailable> {
        self.desk.settings(alloc)
    }

    fn counts(&mut self) -> Result<Counts, Unavailable>
        ensures reads { self.new ≡ self.old }
        ensures answer { result ≡ Ok (counts (world_of_list self.old)) }
    {
        self.desk.counts()
    }

    fn account_by_key(
        &mut self,
        alloc: Global,
        authenticator: &str,
    ) -> Result<Option<Placed<Account>>, Unavailable> {
        self.desk.account_by_key(alloc, authenticator)
    }

    fn app_by_name(
        &mut self,
        alloc: Global,
        name: &str,
    ) -> Result<Option<Placed<App>>, Unavailable> {
        self.desk.app_by_name(alloc, name)
    }

    fn host_by_key(&mut self, account: u32, cpid: &str) -> Result<Option<u32>, Unavailable>
        ensures reads { self.new ≡ self.old }
        ensures answer { result ≡ Ok (known_host (world_of_list self.old) account cpid.now) }
    {
        self.desk.host_by_key(account, cpid)
    }

    fn host_by_id(&mut self, alloc: Global, host: u32) -> Result<Option<HostRow>, Unavailable> {
        self.desk.host_by_id(alloc, host)
    }

    fn status_of(&mut self, unit: u32) -> Result<Option<Status>, Unavailable>
        ensures reads { self.new ≡ self.old }
        ensures answer { result ≡ Ok (unit_status (world_of_list self.old) unit) }
    {
        self.desk.status_of(unit)
    }

    fn held_by(&mut self, alloc: Global, host: u32) -> Result<Listed<Place>, Unavailable> {
        self.desk.held_by(alloc, host)
    }

    fn held_count(&mut self, host: u32) -> Result<u32, Unavailable>
        ensures reads { self.new ≡ self.old }
        ensures answer { result ≡ Ok (length (held_by (world_of_list self.old) host)) }
    {
        self.desk.held_count(host)
    }

    fn owned_by(&mut self, alloc: Global, host: u32) -> Result<Listed<Place>, Unavailable> {
        self.desk.owned_by(alloc, host)
    }

    fn sent_on_day(&mut self, host: u32, day: u64) -> Result<u32, Unavailable>
        ensures reads { self.new ≡ self.old }
        ensures answer { result ≡ Ok (sent_on_day (world_of_list self.old) host day) }
    {
        self.desk.sent_on_day(host, day)
    }

    fn units_of_user(&mut self, alloc: Global, account: u32) -> Result<Listed<u32>, Unavailable> {
        self.desk.units_of_user(alloc, account)
    }

    fn credit_of_host(&mut self, host: u32) -> Result<u64, Unavailable>
        ensures reads { self.new ≡ self.old }
        ensures answer { result ≡ Ok (host_credit (world_of_list self.old) host) }
    {
        self.desk.credit_of_host(host)
    }

    fn credit_of_user(&mut self, account: u32) -> Result<u64, Unavailable>
        ensures reads { self.new ≡ self.old }
        ensures answer { result ≡ Ok (user_credit (world_of_list self.old) account) }
    {
        self.desk.credit_of_user(account)
    }

    fn version_for(
        &mut self,
        alloc: Global,
        host: &HostRow,
        app: u32,
    ) -> Result<Option<Version>, Unavailable> {
        self.desk.version_for(alloc, host, app)
    }

    fn version_by_key(
        &mut self,
        alloc: Global,
        app: &str,
        platform: &str,
        version_num: u32,
    ) -> Result<Option<Version>, Unavailable> {
        self.desk.version_by_key(alloc, app, platform, version_num)
    }

    fn due_before(&mut self, alloc: Global, now: Moment) -> Result<Listed<Place>, Unavailable> {
        self.desk.due_before(alloc, now)
    }

    fn unsent_from<T: Taker>(&mut self, from: Place, taker: &mut T) -> Result<(), Unavailable> {
        self.desk.unsent_from(from, taker)
    }

    fn unsent_for<T: Taker>(
        &mut self,
        account: u32,
        from: Place,
        taker: &mut T,
    ) -> Result<(), Unavailable> {
        self.desk.unsent_for(account, from, taker)
    }

    fn note_had(&mut self, account: u32, before: Place)
        ensures reads { self.new ≡ self.old }
    {
        self.desk.note_had(account, before);
    }
}

impl Store for ListStore {
    ghost use Rattle.std.proofs.Common.{rules};
    ghost use Rattle.stores.specs.Standing.{MayStand};
    ghost use Rattle.message_engine.specs.ListStores.{stays_left_alone, stays_standing};

    ghost holds = { held_of_list };

    // nothing it uses can fail, and nothing is left of lists in memory
    ghost clean = { λ _. ⊤ };

    ghost lasting = { ⊤ };

    ghost may_leave = { λ store held. ⊥ };

    ghost reopens = { λ store. MayStand (held_of_list store) };

    fn kept(&mut self, alloc: Global, host: u32) -> Result<Listed<Kept>, Unavailable> {
        Ok(calls_of(alloc, self.calls.as_slice(), host)?)
    }

    fn kept_batch(
        &mut self,
        alloc: Global,
        kind: Kind,
        batch: &str,
    ) -> Result<Option<KeptBatch>, Unavailable> {
        match find_batch(self.batches.as_slice(), kind, batch) {
            None => Ok(None),
            Some(batch) => Ok(Some(copy_batch(alloc, &batch.kept)?)),
        }
    }

    fn is_open(&mut self) -> Result<bool, Memory> {
        Ok(true)
    }

    fn commit(&mut self, delta: &Delta, entry: &Entry) -> Result<(), Unavailable> {
        let desk = self.desk.with(delta)?;
        self.keep(entry)?;
        self.desk = desk;
        Ok(())
    }

    ghost world_held = { λ a. Prim.search rules };

    ghost is_clean = { λ a h. Prim.search rules };

    ghost stays_clean = { λ a b h k. Prim.search rules };

    ghost stays_open = { λ a b l h k. Prim.search rules };

    ghost stays_held = { λ a b same h k. stays_left_alone a b same };

    ghost stays_left = { λ a b same h left. left };

    ghost stays_reopened = { λ a b same kept stands. stays_standing a b same stands };

    ghost may_stand = { λ a h k stands. stands };

    ghost settled = { λ a h k l held left. absurd left };
}
