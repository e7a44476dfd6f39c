//! The rows of an import, checked against the rows at a desk.

ghost use Rattle.std.specs.Prelude.{◌≡◌, ◌≢◌, ◌≤◌, ◌+◌, ◌||◌, not, nat_le, None, Some, IfOk, IfErr, OnOk};
ghost use Rattle.std.specs.List.{list_any};
ghost use Rattle.sched_book.specs.Imports.{shelf_of, shelved, first_known, duplicate_at, unknown_at, has_app, has_room, fault_of_rows};
ghost use Rattle.sched_book.specs.Places.{place_where};
ghost use Rattle.sched_book.specs.Trusted.{Trusted};
ghost use Rattle.sched_book.specs.Keys.{Key, same_key, has_key};
ghost use Rattle.sched_book.specs.declared.cause.Cause.{Cause};
ghost use Rattle.office_files.specs.Checking as spec;
ghost use Rattle.office_files.specs.Faults.{refusal_of};
ghost use Rattle.office_files.specs.declared.fault.RowsFault.TheVariants as fault;

use crate::fault::RowsFault;
use crate::named::{AppRow, NamedRow};
use sched_book::limits::{MOST_ACCOUNTS, MOST_APPS, MOST_VERSIONS, MOST_WORKUNITS};
use sched_book::{Counts, Desk, Rows, Unavailable};
use std::alloc::Global;
use texts::SeenSet;

/// Whether the name of a row exists or was seen in a row before it. The name is then seen.
fn is_taken<'a, D: Desk, R: NamedRow>(
    alloc: Global,
    desk: &mut D,
    seen: &mut SeenSet<(u32, &'a str, &'a str)>,
    row: &'a R,
) -> Result<bool, Unavailable>
    ensures reads { D.reads desk.old desk.new }
    ensures answer { Trusted D.Units desk.old desk.new (
        IfOk result (λ taken. taken ≡ (list_any (R.same row.now) (R.shelf (D.world desk.old)) || has_key seen.old (R.key_of row.now)))) }
    ensures seen { OnOk result ((other : Key) → has_key seen.new other ≡ (same_key other (R.key_of row.now) || has_key seen.old other)) }
{
    let is_first = seen.is_first(row.key())?;
    let is_known = row.is_known(alloc, desk)?;
    Ok(is_known || !is_first)
}

/// The first row whose name exists, or was seen in a row before it.
fn first_taken<D: Desk, R: NamedRow>(
    alloc: Global,
    desk: &mut D,
    rows: &[R],
) -> Result<Option<u64>, Unavailable>
    ensures reads { D.reads desk.old desk.new }
    ensures answer { Trusted D.Units desk.old desk.new (
        IfOk result (λ row. row ≡ first_known R.same 1 (R.shelf (D.world desk.old)) rows.now)) }
{
    let mut seen = SeenSet::new(alloc);
    for (index, row) in rows.iter().enumerate() {
        if is_taken(alloc, desk, &mut seen, row)? {
            return Ok(Some(index as u64 + 1));
        }
    }
    Ok(None)
}

fn duplicate_in<D: Desk>(
    alloc: Global,
    desk: &mut D,
    rows: &Rows,
) -> Result<Option<u64>, Unavailable>
    ensures reads { D.reads desk.old desk.new }
    ensures answer { Trusted D.Units desk.old desk.new (
        IfOk result (λ row. row ≡ duplicate_at (shelf_of (D.world desk.old)) rows.now)) }
{
    match rows {
        Rows::Accounts(accounts) => first_taken(alloc, desk, accounts.as_slice()),
        Rows::Apps(apps) => first_taken(alloc, desk, apps.as_slice()),
        Rows::Versions(versions) => first_taken(alloc, desk, versions.as_slice()),
        Rows::Workunits(workunits) => first_taken(alloc, desk, workunits.as_slice()),
    }
}

#[tactic(auto, using(crate::proofs::LookUps::app_lacking))]
fn lacks_app<D: Desk>(alloc: Global, desk: &mut D, app: &str) -> Result<bool, Unavailable>
    ensures reads { D.reads desk.old desk.new }
    ensures answer { Trusted D.Units desk.old desk.new (
        IfOk result (λ lacks. lacks ≡ not (has_app (D.world desk.old).apps app.now))) }
{
    Ok(desk.app_by_name(alloc, app)?.is_none())
}

/// The first row whose application does not exist.
fn first_without_app<D: Desk, R: AppRow>(
    alloc: Global,
    desk: &mut D,
    rows: &[R],
) -> Result<Option<u64>, Unavailable>
    ensures reads { D.reads desk.old desk.new }
    ensures answer { Trusted D.Units desk.old desk.new (
        IfOk result (λ row. row ≡ place_where (λ x. not (has_app (D.world desk.old).apps (R.app_of x))) rows.now)) }
{
    for (index, row) in rows.iter().enumerate() {
        if lacks_app(alloc, desk, row.app())? {
            return Ok(Some(index as u64 + 1));
        }
    }
    Ok(None)
}

fn unknown_in<D: Desk>(alloc: Global, desk: &mut D, rows: &Rows) -> Result<Option<u64>, Unavailable>
    ensures reads { D.reads desk.old desk.new }
    ensures answer { Trusted D.Units desk.old desk.new (
        IfOk result (λ row. row ≡ unknown_at (shelf_of (D.world desk.old)) rows.now)) }
{
    match rows {
        Rows::Accounts(_) | Rows::Apps(_) => Ok(None),
        Rows::Versions(versions) => first_without_app(alloc, desk, versions.as_slice()),
        Rows::Workunits(workunits) => first_without_app(alloc, desk, workunits.as_slice()),
    }
}

/// Whether a table with `count` rows has room for the new ones.
fn fits(count: u32, new: usize, most: usize) -> bool
    requires { most ≤ MOST_WORKUNITS }
    ensures { result ≡ nat_le (count + new) most }
{
    new <= most && count as usize + new <= most
}

fn has_room_for(counts: Counts, rows: &Rows) -> bool
    ensures { result ≡ spec.has_room_for counts rows.now }
{
    let (accounts, apps, versions, workunits) = match rows {
        Rows::Accounts(accounts) => (accounts.len(), 0, 0, 0),
        Rows::Apps(apps) => (0, apps.len(), 0, 0),
        Rows::Versions(versions) => (0, 0, versions.len(), 0),
        Rows::Workunits(workunits) => (0, 0, 0, workunits.len()),
    };
    fits(counts.accounts, accounts, MOST_ACCOUNTS)
        && fits(counts.apps, apps, MOST_APPS)
        && fits(counts.versions, versions, MOST_VERSIONS)
        && fits(counts.workunits, workunits, MOST_WORKUNITS)
}

fn has_room<D: Desk>(desk: &mut D, rows: &Rows) -> Result<bool, Unavailable>
    ensures reads { D.reads desk.old desk.new }
    ensures answer { Trusted D.Units desk.old desk.new (
        IfOk result (λ room. room ≡ has_room (shelved (shelf_of (D.world desk.old)) rows.now))) }
{
    let counts = desk.counts()?;
    Ok(has_room_for(counts, rows))
}

/// Checks the rows of an import against the rows that exist.
///
/// It first looks through all rows for a name that exists or was seen before ([`RowsFault::DuplicateName`]). Then it
/// looks for an application that does not exist ([`RowsFault::UnknownReference`]). Then no table may get too many rows
/// ([`RowsFault::TableFull`]). The fault names the first such row. [`RowsFault::Unavailable`] means that there is no
/// memory, or that the desk is unavailable.
pub fn check_rows<D: Desk>(alloc: Global, desk: &mut D, rows: &Rows) -> Result<(), RowsFault>
    ensures reads { D.reads desk.old desk.new }
    ensures ok { Trusted D.Units desk.old desk.new (
        OnOk result (fault_of_rows (shelf_of (D.world desk.old)) rows.now ≡ None)) }
    ensures err { Trusted D.Units desk.old desk.new (
        IfErr result (λ e. ((cause : Cause) → e ≢ fault.Unavailable cause) → fault_of_rows (shelf_of (D.world desk.old)) rows.now ≡ Some (refusal_of e))) }
    ensures kinds { IfErr result spec.IsOfChecking }
{
    if let Some(row) = duplicate_in(alloc, desk, rows)? {
        return Err(RowsFault::DuplicateName(row));
    }
    if let Some(row) = unknown_in(alloc, desk, rows)? {
        return Err(RowsFault::UnknownReference(row));
    }
    if has_room(desk, rows)? {
        Ok(())
    } else {
        Err(RowsFault::TableFull)
    }
}
