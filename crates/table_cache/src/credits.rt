//! Hosts with what is counted of them, and the credit of their users, which moves with each host that is put.

ghost use Rattle.std.specs.Prelude.{◌≡◌, ◌+◌, ℕ, suc, Option, None, Some, IfOk, IfSome, IsTrue};
ghost use Rattle.std.specs.BTreeMap.{get};
ghost use Rattle.std.specs.Ordering.{nat_cmp};
ghost use Rattle.sched_book.specs.Places.{user_credit};
ghost use Rattle.sched_book.specs.declared.world.World.{World};
ghost use Rattle.table_desk.specs.Columns.{counted_host_at};
ghost use Rattle.table_desk.specs.declared.hosts.CountedHost.{CountedHost as Counted};
ghost use Rattle.table_meaning.specs.Worlds.{SlotCalls};
ghost use Rattle.table_meaning.specs.declared.rows.StoredRow.TheVariants as stored;
ghost use Rattle.table_cache.specs.Carrying.{counted_of, with_counted, with_host, AreCreditsOf, AreOfHosts, IsShareOf};
ghost use Rattle.table_cache.specs.Remembering.{IsCacheOf};

use crate::cache::Cache;
use crate::last_number::{is_past, last_with};
use crate::rows_read::RowsRead;
use std::alloc::Global;
use table_decoding::host;
use table_desk::CountedHost;
use table_meaning::rows::StoredHost;
use texts::Memory;

/// Hosts with what is counted of them, and the credit of their users, as they were read or put since; and the number of the last
/// host, if it is known.
#[derive(Drop)]
pub(crate) struct HostsRead {
    pub(crate) rows: RowsRead<u32, CountedHost>,
    pub(crate) credits: RowsRead<u32, u64>,
    pub(crate) last: Option<u32>,
}

impl HostsRead {
    /// Nothing, and room for this number of each kind.
    pub(crate) fn new(alloc: Global, most: usize) -> HostsRead
        ensures rows { (key : ℕ) → get nat_cmp result.rows.rows key ≡ None }
        ensures credits { (key : ℕ) → get nat_cmp result.credits.rows key ≡ None }
        ensures last { result.last ≡ None }
    {
        HostsRead {
            rows: RowsRead::new(alloc, most),
            credits: RowsRead::new(alloc, most),
            last: None,
        }
    }

    /// Forgets it all.
    pub(crate) fn forget_all(&mut self)
        ensures rows { (key : ℕ) → get nat_cmp self.new.rows.rows key ≡ None }
        ensures credits { (key : ℕ) → get nat_cmp self.new.credits.rows key ≡ None }
        ensures last { self.new.last ≡ None }
    {
        self.rows.forget_all();
        self.credits.forget_all();
        self.last = None;
    }
}

/// The host of a row, with what the row counts of it. `None` if a value is out of its range.
fn counted(alloc: Global, row: &StoredHost) -> Option<CountedHost>
    ensures { IfSome result (λ h. h ≡ counted_of (stored.Host row.now)) }
{
    let Ok(credit) = u64::try_from(row.credit) else {
        return None;
    };
    match host(alloc, row) {
        Err(_) => None,
        Ok(host) => Some(CountedHost {
            row: host,
            held: row.held,
            credit,
        }),
    }
}

/// The credit of an account, if a host of it has this credit in place of an older one. `None` if it is out of its range.
fn moved(credit: u64, old: u64, new: u64) -> Option<u64>
    ensures { IfSome result (λ moved. moved + old ≡ credit + new) }
{
    credit.checked_sub(old)?.checked_add(new)
}

/// What a host added to the credit of this account, if it added nothing to that of another one. A new host added nothing.
/// `None` if the host was not known, or was of another account.
fn credit_before(known: &Option<CountedHost>, is_new: bool, account: u32) -> Option<u64>
    ensures { (hosts : ℕ → Option Counted) (number : ℕ) → IfSome known.now (λ h. hosts number ≡ Some h) → (IsTrue is_new → hosts number ≡ None)
        → IfSome result (IsShareOf account (hosts number)) }
{
    if is_new {
        return Some(0);
    }
    let Some(host) = known else { return None };
    if host.row.account != account {
        return None;
    }
    Some(host.credit)
}

/// Moves what is known of the credit of a host's account, if the host added `old` to it and is `new` now. If that is not
/// known, everything that is known of credits is forgotten.
fn move_credit(credits: &mut RowsRead<u32, u64>, old: Option<u64>, new: &CountedHost)
    ensures { (hosts : ℕ → Option Counted) (number end : ℕ) → IfSome old (IsShareOf new.now.row.account (hosts number))
        → AreCreditsOf hosts end credits.old → AreCreditsOf (with_counted hosts number new.now) (end + suc number) credits.new }
{
    let Some(old) = old else {
        credits.forget_all();
        return;
    };
    let account = new.row.account;
    let Some(credit) = credits.take(&account) else {
        return;
    };
    if let Some(moved) = moved(credit, old, new.credit) {
        credits.put(account, moved);
    }
}

/// Renews what is known of a host, of the credit of its account, and of the last number, by the row of the host that was put.
pub(crate) fn renew_host(alloc: Global, read: &mut HostsRead, row: &StoredHost)
    ensures { (f : ℕ → Option Counted) → AreOfHosts f read.old → AreOfHosts (with_host f (stored.Host row.now)) read.new }
{
    let is_new = is_past(read.last, row.id);
    read.last = last_with(read.last, row.id);
    let known = read.rows.take(&row.id);
    let Some(new) = counted(alloc, row) else {
        read.credits.forget_all();
        return;
    };
    let old = credit_before(&known, is_new, new.row.account);
    move_credit(&mut read.credits, old, &new);
    read.rows.put(row.id, new);
}

impl Cache {
    /// The host of this number, with what is counted of it.
    pub fn host(&self, number: u32) -> Result<Option<CountedHost>, Memory>
        ensures { (w : World) (calls : SlotCalls) → IsCacheOf w calls self.now → IfOk result (λ r. IfSome r (λ h. counted_host_at w number ≡ Some h)) }
    {
        self.hosts.rows.row(&number)
    }

    /// Remembers the host of a number.
    pub fn remember_host(&mut self, number: u32, found: &Option<CountedHost>)
        ensures { (w : World) (calls : SlotCalls) → IsCacheOf w calls self.old → found.now ≡ counted_host_at w number → IsCacheOf w calls self.new }
    {
        if let Some(row) = found {
            self.hosts.rows.remember(number, row);
        }
    }

    /// The credit of the user of this account, in millicredits.
    pub fn credit(&self, account: u32) -> Option<u64>
        ensures { (w : World) (calls : SlotCalls) → IsCacheOf w calls self.now → IfSome result (λ credit. credit ≡ user_credit w account) }
    {
        self.hosts.credits.value(&account)
    }

    /// Remembers the credit of the user of an account.
    pub fn remember_credit(&mut self, account: u32, credit: u64)
        ensures { (w : World) (calls : SlotCalls) → IsCacheOf w calls self.old → credit ≡ user_credit w account → IsCacheOf w calls self.new }
    {
        self.hosts.credits.put(account, credit);
    }
}
