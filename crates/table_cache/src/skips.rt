//! The skips of users, as far as they were found: where each user has nothing new to be offered.

ghost use Rattle.std.specs.Prelude.{◌≡◌, ◌==◌, ℕ, true, All, Bool, find, option_and_then, option_map, position, Option, Some, IfSome, IsTrue, slice_get};
ghost use Rattle.std.specs.Option.{option_copied};
ghost use Rattle.std.specs.Ordering.{nat_cmp};
ghost use Rattle.sched_book.specs.Places.{host_of};
ghost use Rattle.sched_book.specs.declared.instance.Instance.{Instance as Job};
ghost use Rattle.table_desk.specs.declared.hosts.CountedHost.{CountedHost as Counted};
ghost use Rattle.table_meaning.specs.declared.rows.StoredRow.TheVariants as stored;
ghost use Rattle.table_cache.specs.Carrying.{with_host, with_job, AreOfHosts};
ghost use Rattle.table_cache.specs.Covering.{with_wait, AreSkipsFor, IsSkipFor, IsHadBefore, IsUserSkip, KeepsAccount, KeepsHost};
ghost use Rattle.table_desk.specs.WaitingWindow.{with_wait_at};
ghost use Rattle.table_cache.specs.RowsRead.{HoldOfEach};

use crate::credits::HostsRead;
use crate::last_number::is_past;
use crate::rows_read::RowsRead;
use sched_book::{Instance, Place};
use std::alloc::Global;
use table_desk::Skip;
use table_meaning::rows::{StoredHost, StoredInstance};
use texts::Listed;

/// The most users whose skips are remembered. At one more, those before are forgotten.
const MOST_SKIPS: usize = 100;

/// The skip of the user of an account.
#[derive(Drop)]
pub(crate) struct UserSkip {
    account: u32,
    skip: Skip,
}

impl UserSkip {
    /// Raises the skip to a place. Before it, each instance that waits is of a workunit that the user had.
    fn raise(&mut self, place: Place)
        ensures account { self.new.account ≡ self.old.account }
        ensures skip { (waiting : ℕ → ℕ → Option Bool) (jobs : ℕ → ℕ → Option Job) (hosts : ℕ → Option Counted)
            → IsHadBefore waiting jobs hosts self.old.account place → IsUserSkip waiting jobs hosts self.old → IsUserSkip waiting jobs hosts self.new }
    {
        self.skip.raise(place);
    }

    /// Takes note that an instance came to wait at this place.
    fn add(&mut self, place: Place)
        ensures { (waiting : ℕ → ℕ → Option Bool) (jobs : ℕ → ℕ → Option Job) (hosts : ℕ → Option Counted)
            → IsUserSkip waiting jobs hosts self.old → IsUserSkip (with_wait_at waiting place.unit place.number true) jobs hosts self.new }
    {
        self.skip.add(place);
    }
}

/// The first of these skips that is of this account.
fn skip_among(users: &[UserSkip], account: u32) -> Option<&UserSkip>
    ensures { option_copied result ≡ find (λ u. u.account == account) users.now }
{
    users.iter().find(|user| user.account == account)
}

/// The index of the first of these skips that is of this account.
fn index_of(users: &[UserSkip], account: u32) -> Option<usize>
    ensures { result ≡ position (λ u. u.account == account) users.now }
{
    users.iter().position(|user| user.account == account)
}

/// Raises the skip at an index to a place. Before it, each instance that waits is of a workunit that its user had.
fn raise_at(users: &mut Vec<UserSkip>, at: usize, place: Place)
    ensures { (waiting : ℕ → ℕ → Option Bool) (jobs : ℕ → ℕ → Option Job) (hosts : ℕ → Option Counted)
        → IfSome (slice_get users.old.items at) (λ u. IsHadBefore waiting jobs hosts u.account place)
        → All (IsUserSkip waiting jobs hosts) users.old.items → All (IsUserSkip waiting jobs hosts) users.new.items }
{
    if let Some(user) = users.get_mut(at) {
        user.raise(place);
    }
}

/// Adds a skip at the end. If there are too many, the others are forgotten first.
fn push_skip(users: &mut Vec<UserSkip>, user: UserSkip)
    ensures { (waiting : ℕ → ℕ → Option Bool) (jobs : ℕ → ℕ → Option Job) (hosts : ℕ → Option Counted)
        → All (IsUserSkip waiting jobs hosts) users.old.items → IsUserSkip waiting jobs hosts user → All (IsUserSkip waiting jobs hosts) users.new.items }
{
    if MOST_SKIPS <= users.len() {
        users.clear();
    }
    let _ = users.push(user);
}

/// Takes note in each of these skips that an instance came to wait at this place.
fn add_to_each(users: &mut [UserSkip], place: Place)
    ensures { (waiting : ℕ → ℕ → Option Bool) (jobs : ℕ → ℕ → Option Job) (hosts : ℕ → Option Counted)
        → All (IsUserSkip waiting jobs hosts) users.old → All (IsUserSkip (with_wait_at waiting place.unit place.number true) jobs hosts) users.new }
{
    for user in users.iter_mut() {
        user.add(place);
    }
}

/// The number of the host that the instance of this number was given to.
fn host_at(instances: &[Instance], number: usize) -> Option<u32>
    ensures { result ≡ option_and_then host_of (slice_get instances.now number) }
{
    match instances.get(number) {
        None => None,
        Some(instance) => instance.owner_host(),
    }
}

/// Whether there is no old number, or the new one is the same.
fn keeps_number(old: Option<u32>, new: Option<u32>) -> bool
    ensures { IsTrue result → (number : ℕ) → old ≡ Some number → new ≡ Some number }
{
    let Some(old) = old else {
        return true;
    };
    match new {
        None => false,
        Some(new) => old == new,
    }
}

/// Whether the instances of the row's workunit are known, and the row leaves its instance with the host that it was given
/// to, if there is one.
fn keeps_host(known: &RowsRead<u32, Listed<Instance>>, row: &StoredInstance) -> bool
    ensures { IsTrue result → (jobs : ℕ → ℕ → Option Job)
        → HoldOfEach nat_cmp (λ unit xs. (number : ℕ) → slice_get xs number ≡ jobs unit number) known.now → KeepsHost jobs row.now }
{
    match known.seen(&row.unit_id) {
        None => false,
        Some(instances) => keeps_number(
            host_at(instances.as_slice(), row.num as usize),
            row.host_id,
        ),
    }
}

/// Whether the host of the row is new, or is known and the row leaves it with its account.
fn keeps_account(known: &HostsRead, row: &StoredHost) -> bool
    ensures { IsTrue result → (hosts : ℕ → Option Counted) → AreOfHosts hosts known.now → KeepsAccount hosts row.now }
{
    if is_past(known.last, row.id) {
        return true;
    }
    match known.rows.seen(&row.id) {
        None => false,
        Some(host) => host.row.account == row.account_id,
    }
}

/// The skips of users, and one that covers nothing for everybody else.
#[derive(Drop)]
pub(crate) struct Skips {
    users: Vec<UserSkip>,
    nowhere: Skip,
}

impl Skips {
    /// No skip of a user.
    pub(crate) fn new(alloc: Global) -> Skips
        ensures { (waiting : ℕ → ℕ → Option Bool) (jobs : ℕ → ℕ → Option Job) (hosts : ℕ → Option Counted) → AreSkipsFor waiting jobs hosts result }
    {
        Skips {
            users: Vec::new(alloc),
            nowhere: Skip::nowhere(alloc),
        }
    }

    /// The skip of the user of this account. It covers nothing if none is known, or no account is named.
    pub(crate) fn of(&self, account: Option<u32>) -> &Skip
        ensures { (waiting : ℕ → ℕ → Option Bool) (jobs : ℕ → ℕ → Option Job) (hosts : ℕ → Option Counted)
            → AreSkipsFor waiting jobs hosts self.now → IsSkipFor waiting jobs hosts account result.now }
    {
        let Some(account) = account else {
            return &self.nowhere;
        };
        match skip_among(self.users.as_slice(), account) {
            None => &self.nowhere,
            Some(user) => &user.skip,
        }
    }

    /// Remembers that each instance that waits before this place is of a workunit that the user of this account had.
    pub(crate) fn raise(&mut self, alloc: Global, account: u32, place: Place)
        ensures { (waiting : ℕ → ℕ → Option Bool) (jobs : ℕ → ℕ → Option Job) (hosts : ℕ → Option Counted)
            → IsHadBefore waiting jobs hosts account place → AreSkipsFor waiting jobs hosts self.old → AreSkipsFor waiting jobs hosts self.new }
    {
        if let Some(at) = index_of(self.users.as_slice(), account) {
            raise_at(&mut self.users, at, place);
            return;
        }
        let mut user = UserSkip {
            account,
            skip: Skip::nowhere(alloc),
        };
        user.raise(place);
        push_skip(&mut self.users, user);
    }

    /// Takes note that an instance came to wait at this place.
    fn add(&mut self, place: Place)
        ensures { (waiting : ℕ → ℕ → Option Bool) (jobs : ℕ → ℕ → Option Job) (hosts : ℕ → Option Counted)
            → AreSkipsFor waiting jobs hosts self.old → AreSkipsFor (with_wait_at waiting place.unit place.number true) jobs hosts self.new }
    {
        add_to_each(self.users.as_mut_slice(), place);
    }

    /// Forgets them all.
    pub(crate) fn forget_all(&mut self)
        ensures { (waiting : ℕ → ℕ → Option Bool) (jobs : ℕ → ℕ → Option Job) (hosts : ℕ → Option Counted) → AreSkipsFor waiting jobs hosts self.new }
    {
        self.users.clear();
        self.nowhere.clear();
    }

    /// Follows the row of an instance that was put. If it belonged to another host before, or the instances of its
    /// workunit are not known, all skips are forgotten.
    pub(crate) fn follow_instance(
        &mut self,
        known: &RowsRead<u32, Listed<Instance>>,
        row: &StoredInstance,
    )
        ensures { (waiting : ℕ → ℕ → Option Bool) (jobs : ℕ → ℕ → Option Job) (hosts : ℕ → Option Counted)
            → HoldOfEach nat_cmp (λ unit xs. (number : ℕ) → slice_get xs number ≡ jobs unit number) known.now → AreSkipsFor waiting jobs hosts self.old
            → AreSkipsFor (with_wait waiting (stored.Instance row.now)) (with_job jobs (stored.Instance row.now)) hosts self.new }
    {
        if !keeps_host(known, row) {
            self.forget_all();
            return;
        }
        if row.queued {
            self.add(Place {
                unit: row.unit_id,
                number: row.num,
            });
        }
    }

    /// Follows the row of a host that was put. If the host is not new, and is not known or belonged to another account, all
    /// skips are forgotten.
    pub(crate) fn follow_host(&mut self, known: &HostsRead, row: &StoredHost)
        ensures { (waiting : ℕ → ℕ → Option Bool) (jobs : ℕ → ℕ → Option Job) (hosts : ℕ → Option Counted)
            → AreOfHosts hosts known.now → AreSkipsFor waiting jobs hosts self.old
            → AreSkipsFor waiting jobs (with_host hosts (stored.Host row.now)) self.new }
    {
        if !keeps_account(known, row) {
            self.forget_all();
        }
    }
}
