//! The instances of workunits, and how many jobs hosts were sent on a day, which moves with each instance that is put.

ghost use Rattle.std.specs.Prelude.{◌≡◌, ◌+◌, ℕ, suc, Option, None, Some, IfOk, IfSome, IsTrue, option_and_then, slice_get};
ghost use Rattle.std.specs.BTreeMap.{get};
ghost use Rattle.std.specs.Ordering.{nat_cmp};
ghost use Rattle.sched_book.specs.Desk.{instances_at};
ghost use Rattle.sched_book.specs.Places.{instance_at, sent_on_day};
ghost use Rattle.sched_book.specs.declared.instance.Instance.{Instance as Job};
ghost use Rattle.sched_book.specs.declared.world.World.{World};
ghost use Rattle.table_meaning.specs.Worlds.{SlotCalls};
ghost use Rattle.table_meaning.specs.declared.rows.StoredRow.TheVariants as stored;
ghost use Rattle.table_cache.specs.Carrying.{given_to, sending_of, with_job, with_one, AreOfJobs, AreSentOf, HaveOneMore, IsRenewed};
ghost use Rattle.table_cache.specs.Remembering.{IsCacheOf};

use crate::cache::Cache;
use crate::last_number::{is_past, last_with};
use crate::rows_read::RowsRead;
use sched_book::{Instance, copy_of};
use std::alloc::Global;
use table_decoding::instance;
use table_meaning::rows::StoredInstance;
use texts::{Listed, Memory};

/// How many jobs a host was sent on one day. Day 0 is the first of 1970.
#[derive(Clone, Copy, Drop)]
pub(crate) struct SentRead {
    day: u64,
    count: u32,
}

/// To which host an instance was given, and on which day.
#[derive(Clone, Copy, Drop)]
pub(crate) struct Sending {
    host: u32,
    day: u64,
}

/// The instances of workunits, and how many jobs hosts were sent on a day, as they were read or put since; and a place after which
/// no workunit has an instance, if one is known.
#[derive(Drop)]
pub(crate) struct JobsRead {
    pub(crate) instances: RowsRead<u32, Listed<Instance>>,
    pub(crate) sent: RowsRead<u32, SentRead>,
    pub(crate) last: Option<u32>,
}

impl JobsRead {
    /// Nothing, and room for instances of this weight, and for this number of hosts.
    pub(crate) fn new(alloc: Global, most_instances: usize, most_hosts: usize) -> JobsRead
        ensures instances { (key : ℕ) → get nat_cmp result.instances.rows key ≡ None }
        ensures sent { (key : ℕ) → get nat_cmp result.sent.rows key ≡ None }
        ensures last { result.last ≡ None }
    {
        JobsRead {
            instances: RowsRead::new(alloc, most_instances),
            sent: RowsRead::new(alloc, most_hosts),
            last: None,
        }
    }

    /// Forgets it all.
    pub(crate) fn forget_all(&mut self)
        ensures instances { (key : ℕ) → get nat_cmp self.new.instances.rows key ≡ None }
        ensures sent { (key : ℕ) → get nat_cmp self.new.sent.rows key ≡ None }
        ensures last { self.new.last ≡ None }
    {
        self.instances.forget_all();
        self.sent.forget_all();
        self.last = None;
    }
}

/// Puts an instance at a number: it replaces the one there, or is the next one. Says whether it could.
fn renew(instances: &mut Listed<Instance>, number: usize, renewed: Instance) -> bool
    ensures { IsTrue result → IsRenewed number renewed instances.old instances.new }
{
    if number < instances.len() {
        instances.replace(number, renewed);
        return true;
    }
    if number != instances.len() {
        return false;
    }
    instances.push(renewed).is_ok()
}

/// The instances of a workunit with this one at a number. `None` if there are fewer than that, or no memory for it.
fn with_instance(
    known: Listed<Instance>,
    number: usize,
    renewed: Instance,
) -> Option<Listed<Instance>>
    ensures { IfSome result (IsRenewed number renewed known) }
{
    let mut instances = known;
    if renew(&mut instances, number, renewed) {
        Some(instances)
    } else {
        None
    }
}

/// To which host an instance was given, and on which day.
fn sending_in(instance: &Instance) -> Option<Sending>
    ensures { result ≡ sending_of instance.now }
{
    match &instance.owner {
        None => None,
        Some(owner) => Some(Sending {
            host: owner.host,
            day: owner.sent.day(),
        }),
    }
}

/// To which host the instance of this number was given, and on which day.
fn sending_at(instances: &[Instance], number: usize) -> Option<Sending>
    ensures { result ≡ option_and_then sending_of (slice_get instances.now number) }
{
    match instances.get(number) {
        None => None,
        Some(instance) => sending_in(instance),
    }
}

/// What is known of a host after one more job was sent to it. `None` if the count is out of its range.
fn with_sending(read: SentRead, sending: Sending) -> Option<SentRead>
    ensures { IfSome result (λ r. (r.day ≡ read.day) × (r.count ≡ read.count + given_to sending.host read.day sending)) }
{
    if sending.day != read.day {
        return Some(read);
    }
    Some(SentRead {
        day: read.day,
        count: read.count.checked_add(1)?,
    })
}

/// Counts one more job for the host that it was sent to.
fn add_sending(sent: &mut RowsRead<u32, SentRead>, sending: Sending)
    ensures { HaveOneMore sending sent.old sent.new }
{
    let Some(read) = sent.take(&sending.host) else {
        return;
    };
    if let Some(more) = with_sending(read, sending) {
        sent.put(sending.host, more);
    }
}

/// Moves what is known of how many jobs hosts were sent, if one instance was given as in `old` and is given as in `new`. If it
/// had another owner or another day, everything that is known of these counts is forgotten.
fn move_sent(sent: &mut RowsRead<u32, SentRead>, old: Option<Sending>, new: Option<Sending>)
    ensures { (jobs : ℕ → ℕ → Option Job) (unit number units numbers : ℕ) (x : Job) → option_and_then sending_of (jobs unit number) ≡ old → sending_of x ≡ new
        → AreSentOf jobs units numbers sent.old → AreSentOf (with_one jobs unit number x) (units + suc unit) (numbers + suc number) sent.new }
{
    match old {
        None => {
            if let Some(sending) = new {
                add_sending(sent, sending);
            }
        }
        Some(before) => match new {
            Some(after) if before.host == after.host && before.day == after.day => {}
            _ => sent.forget_all(),
        },
    }
}

/// Takes note that the row of the workunit at this place was put. If it is new, it is known to have no instances yet.
pub(crate) fn note_unit(alloc: Global, read: &mut JobsRead, unit: u32)
    ensures { (jobs : ℕ → ℕ → Option Job) → AreOfJobs jobs read.old → AreOfJobs jobs read.new }
{
    if is_past(read.last, unit) {
        read.last = Some(unit);
        read.instances.put(unit, Listed::new(alloc));
    }
}

/// Renews what is known of the instances of a workunit, of how many jobs hosts were sent, and of the last place, by the row of
/// an instance that was put. If the instances were not known, everything that is known of these counts is forgotten.
pub(crate) fn renew_instance(read: &mut JobsRead, row: &StoredInstance)
    ensures { (f : ℕ → ℕ → Option Job) → AreOfJobs f read.old → AreOfJobs (with_job f (stored.Instance row.now)) read.new }
{
    read.last = last_with(read.last, row.unit_id);
    let Some(instances) = read.instances.take(&row.unit_id) else {
        read.sent.forget_all();
        return;
    };
    let Ok(renewed) = instance(row) else {
        read.sent.forget_all();
        return;
    };
    let number = row.num as usize;
    let old = sending_at(instances.as_slice(), number);
    let new = sending_in(&renewed);
    move_sent(&mut read.sent, old, new);
    if let Some(instances) = with_instance(instances, number, renewed) {
        read.instances.put(row.unit_id, instances);
    }
}

impl Cache {
    /// The instances of the workunit at this place.
    pub fn instances(&self, unit: u32) -> Result<Option<Listed<Instance>>, Memory>
        ensures { (w : World) (calls : SlotCalls) → IsCacheOf w calls self.now → IfOk result (λ r. IfSome r (λ xs. xs ≡ instances_at w unit)) }
    {
        self.jobs.instances.row(&unit)
    }

    /// The instance of this number of the workunit at this place, if the workunit's instances are remembered.
    pub fn instance(&self, unit: u32, number: u32) -> Result<Option<Instance>, Memory>
        ensures { (w : World) (calls : SlotCalls) → IsCacheOf w calls self.now
            → IfOk result (λ r. IfSome r (λ x. instance_at w (record { unit = unit; number = number }) ≡ Some x)) }
    {
        let Some(instances) = self.jobs.instances.seen(&unit) else {
            return Ok(None);
        };
        match instances.as_slice().get(number as usize) {
            None => Ok(None),
            Some(instance) => Ok(Some(copy_of(instance)?)),
        }
    }

    /// Remembers the instances of a workunit.
    pub fn remember_instances(&mut self, unit: u32, found: &Listed<Instance>)
        ensures { (w : World) (calls : SlotCalls) → IsCacheOf w calls self.old → found.now ≡ instances_at w unit → IsCacheOf w calls self.new }
    {
        self.jobs.instances.remember(unit, found);
    }

    /// How many jobs this host was sent on a day.
    pub fn sent(&self, host: u32, day: u64) -> Option<u32>
        ensures { (w : World) (calls : SlotCalls) → IsCacheOf w calls self.now → IfSome result (λ count. count ≡ sent_on_day w host day) }
    {
        match self.jobs.sent.value(&host) {
            Some(read) if read.day == day => Some(read.count),
            _ => None,
        }
    }

    /// Remembers how many jobs a host was sent on a day.
    pub fn remember_sent(&mut self, host: u32, day: u64, count: u32)
        ensures { (w : World) (calls : SlotCalls) → IsCacheOf w calls self.old → count ≡ sent_on_day w host day → IsCacheOf w calls self.new }
    {
        self.jobs.sent.put(host, SentRead { day, count });
    }
}
