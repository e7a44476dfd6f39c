//! Accounts by their authenticators, hosts by their accounts and host_cpids, and workunits by their names, as they were found.

ghost use Rattle.std.specs.Prelude.{◌≡◌, ℕ, List, Option, None, Some, IfOk, IfSome, IsTrue};
ghost use Rattle.std.specs.BTreeMap.{get};
ghost use Rattle.std.specs.Cmp.Lexicographic.{slice_cmp};
ghost use Rattle.sched_book.specs.Desk.{account_by_key};
ghost use Rattle.sched_book.specs.Places.{known_host, unit_named};
ghost use Rattle.sched_book.specs.declared.world.World.{World};
ghost use Rattle.table_desk.specs.declared.hosts.CountedHost.{CountedHost as Counted};
ghost use Rattle.table_meaning.specs.Worlds.{SlotCalls};
ghost use Rattle.table_meaning.specs.declared.rows.StoredRow.TheVariants as stored;
ghost use Rattle.table_cache.specs.Carrying.{with_host, AreOfHosts};
ghost use Rattle.table_cache.specs.LastNumbers.{AreNonePast};
ghost use Rattle.table_cache.specs.Keys.{with_title, AreKeysOf, AreFirstUnits, AreNamesOf, AreTitled, KeepsKey, KeepsName};
ghost use Rattle.table_cache.specs.Remembering.{IsCacheOf};
ghost use Rattle.std.specs.Ordering.{nat_cmp};
ghost use Rattle.table_cache.specs.RowsRead.{HoldOfEach, IsWithout};

use crate::cache::Cache;
use crate::credits::HostsRead;
use crate::last_number::{is_past, last_with};
use crate::rows_read::RowsRead;
use sched_book::{Account, Placed, Workunit, copy_of};
use std::alloc::Global;
use table_desk::CountedHost;
use table_meaning::rows::{StoredHost, StoredUnit};
use texts::{Memory, Same, Text};

/// An account with its place, as it was found by its authenticator.
#[derive(Clone, Drop)]
pub(crate) struct AccountRead {
    place: u32,
    row: Account,
}

impl Same for AccountRead {
    ghost use Rattle.std.proofs.Common.{rules};

    ghost exact = { λ account copy is_copy. Prim.search rules };
}

/// A host, with its account, as it was found by its host_cpid.
#[derive(Clone, Copy, Drop)]
pub(crate) struct HostKeyRead {
    account: u32,
    host: u32,
}

/// Workunits by their places, and these places by the workunits' names, as they were read; and the place of the last workunit, if
/// it is known.
#[derive(Drop)]
pub(crate) struct UnitsRead {
    pub(crate) rows: RowsRead<u32, Workunit>,
    pub(crate) names: RowsRead<Text, u32>,
    pub(crate) last: Option<u32>,
}

impl UnitsRead {
    /// Nothing, and room for this number of workunits, and of names.
    pub(crate) fn new(alloc: Global, most: usize) -> UnitsRead
        ensures rows { (key : ℕ) → get nat_cmp result.rows.rows key ≡ None }
        ensures names { (key : List ℕ) → get (slice_cmp nat_cmp) result.names.rows key ≡ None }
        ensures last { result.last ≡ None }
    {
        UnitsRead {
            rows: RowsRead::new(alloc, most),
            names: RowsRead::new(alloc, most),
            last: None,
        }
    }

    /// Forgets it all.
    pub(crate) fn forget_all(&mut self)
        ensures rows { (key : ℕ) → get nat_cmp self.new.rows.rows key ≡ None }
        ensures names { (key : List ℕ) → get (slice_cmp nat_cmp) self.new.names.rows key ≡ None }
        ensures last { self.new.last ≡ None }
    {
        self.rows.forget_all();
        self.names.forget_all();
        self.last = None;
    }
}

/// A copy of the account that was found.
fn account_read(found: &Placed<Account>) -> Result<AccountRead, Memory>
    ensures { IfOk result (λ a. found.now ≡ record { place = a.place; row = a.row }) }
{
    Ok(AccountRead {
        place: found.place,
        row: copy_of(&found.row)?,
    })
}

/// Whether the host of the row is known, and the row leaves it with its account and its host_cpid.
fn keeps_key(known: &RowsRead<u32, CountedHost>, row: &StoredHost) -> bool
    ensures { IsTrue result → (hosts : ℕ → Option Counted) → HoldOfEach nat_cmp (λ number h. hosts number ≡ Some h) known.now → KeepsKey hosts row.now }
{
    match known.seen(&row.id) {
        None => false,
        Some(host) => host.row.account == row.account_id && host.row.cpid == row.cpid,
    }
}

/// Follows the row of a host that was put. If the host is not new, and is not known or had another account or host_cpid, all
/// keys are forgotten.
pub(crate) fn follow_host_key(
    keys: &mut RowsRead<Text, HostKeyRead>,
    known: &HostsRead,
    row: &StoredHost,
)
    ensures { (hosts : ℕ → Option Counted) → AreOfHosts hosts known.now → AreKeysOf hosts keys.old → AreKeysOf (with_host hosts (stored.Host row.now)) keys.new }
{
    if is_past(known.last, row.id) {
        return;
    }
    if !keeps_key(&known.rows, row) {
        keys.forget_all();
    }
}

/// Whether the workunit of the row is known, and the row leaves it with its name.
fn keeps_name(known: &RowsRead<u32, Workunit>, row: &StoredUnit) -> bool
    ensures { IsTrue result → (titles : ℕ → Option (List ℕ)) → AreTitled titles known.now → KeepsName titles row.now }
{
    match known.seen(&row.id) {
        None => false,
        Some(unit) => unit.name == row.name,
    }
}

/// Lets the places of workunits by their names follow the row of a workunit that was put. If the workunit is not new, and is not
/// known or had another name, all of them are forgotten.
fn follow_unit_name(
    names: &mut RowsRead<Text, u32>,
    known: &RowsRead<u32, Workunit>,
    last: Option<u32>,
    row: &StoredUnit,
)
    ensures { (titles : ℕ → Option (List ℕ)) → AreTitled titles known.now → IfSome last (AreNonePast titles) → AreFirstUnits titles names.old
        → AreFirstUnits (with_title titles (stored.Unit row.now)) names.new }
{
    if is_past(last, row.id) {
        return;
    }
    if !keeps_name(known, row) {
        names.forget_all();
    }
}

/// Follows the row of a workunit that was put. What was read of that workunit is forgotten.
pub(crate) fn follow_unit(read: &mut UnitsRead, row: &StoredUnit)
    ensures rows { IsWithout nat_cmp read.old.rows read.new.rows row.now.id }
    ensures names { (titles : ℕ → Option (List ℕ)) → AreNamesOf titles read.old → AreNamesOf (with_title titles (stored.Unit row.now)) read.new }
{
    follow_unit_name(&mut read.names, &read.rows, read.last, row);
    read.last = last_with(read.last, row.id);
    read.rows.forget(&row.id);
}

impl Cache {
    /// The account with this authenticator.
    pub fn account(
        &self,
        alloc: Global,
        authenticator: &str,
    ) -> Result<Option<Placed<Account>>, Memory>
        ensures { (w : World) (calls : SlotCalls) → IsCacheOf w calls self.now → IfOk result (λ r. IfSome r (λ a. account_by_key w authenticator.now ≡ Some a)) }
    {
        let key = Text::copied(alloc, authenticator)?;
        match self.accounts.row(&key)? {
            None => Ok(None),
            Some(AccountRead { place, row }) => Ok(Some(Placed { place, row })),
        }
    }

    /// Remembers the account with an authenticator, if there is memory for it.
    pub fn remember_account(
        &mut self,
        alloc: Global,
        authenticator: &str,
        found: &Option<Placed<Account>>,
    )
        ensures { (w : World) (calls : SlotCalls) → IsCacheOf w calls self.old → found.now ≡ account_by_key w authenticator.now → IsCacheOf w calls self.new }
    {
        let Some(found) = found else { return };
        let Ok(key) = Text::copied(alloc, authenticator) else {
            return
        };
        if let Ok(read) = account_read(found) {
            self.accounts.put(key, read);
        }
    }

    /// The number of the host with this account and this host_cpid.
    pub fn host_key(&self, alloc: Global, account: u32, cpid: &str) -> Result<Option<u32>, Memory>
        ensures { (w : World) (calls : SlotCalls) → IsCacheOf w calls self.now → IfOk result (λ r. IfSome r (λ host. known_host w account cpid.now ≡ Some host)) }
    {
        let key = Text::copied(alloc, cpid)?;
        match self.keys.value(&key) {
            Some(read) if read.account == account => Ok(Some(read.host)),
            _ => Ok(None),
        }
    }

    /// Remembers the number of the host with an account and a host_cpid, if there is memory for it.
    pub fn remember_host_key(&mut self, alloc: Global, account: u32, cpid: &str, found: Option<u32>)
        ensures { (w : World) (calls : SlotCalls) → IsCacheOf w calls self.old → found ≡ known_host w account cpid.now → IsCacheOf w calls self.new }
    {
        let Some(host) = found else { return };
        if let Ok(key) = Text::copied(alloc, cpid) {
            self.keys.put(key, HostKeyRead { account, host });
        }
    }

    /// The place of the workunit of this name.
    pub fn unit_named(&self, alloc: Global, name: &str) -> Result<Option<u32>, Memory>
        ensures { (w : World) (calls : SlotCalls) → IsCacheOf w calls self.now → IfOk result (λ r. IfSome r (λ unit. unit_named w name.now ≡ Some unit)) }
    {
        let key = Text::copied(alloc, name)?;
        Ok(self.units.names.value(&key))
    }

    /// Remembers the place of the workunit of a name, if there is memory for it.
    pub fn remember_unit_name(&mut self, alloc: Global, name: &str, found: Option<u32>)
        ensures { (w : World) (calls : SlotCalls) → IsCacheOf w calls self.old → found ≡ unit_named w name.now → IsCacheOf w calls self.new }
    {
        let Some(unit) = found else { return };
        if let Ok(key) = Text::copied(alloc, name) {
            self.units.names.put(key, unit);
        }
    }
}
