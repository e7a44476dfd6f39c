//! The rows of hosts that a call put, or whose instances or credit it changed.

ghost use Rattle.std.specs.Prelude.{◌≡◌, ◌+◌, option_map, IfOk, OnOk};
ghost use Rattle.sched_book.specs.Delta.{edited};
ghost use Rattle.sched_book.specs.Places.{host_at};
ghost use Rattle.sched_book.specs.Trusted.{Trusted};
ghost use Rattle.sched_book.specs.declared.world.World.{World};
ghost use Rattle.call_working_set.specs.WorkingSets.{IsCallStateOf};
ghost use Rattle.table_meaning.specs.Worlds.{host_row as specified_row};
ghost use Rattle.table_meaning.specs.declared.rows.StoredRow.TheVariants as stored;
ghost use Rattle.table_worlds.specs.Changes.{IsChange};
ghost use Rattle.table_worlds.specs.Keys.{row_in};
ghost use Rattle.table_worlds.specs.Totals.{total_of};
ghost use Rattle.table_worlds.specs.declared.keys.WorldKey.TheVariants as key;
ghost use Rattle.table_changes.specs.Added.{is_host_among, AreAdded};
ghost use Rattle.table_changes.specs.Tallies.{ReplacesShare};
ghost use Rattle.table_changes.specs.Touching.{AreTouched};

use crate::tallies::tally;
use crate::touched::Touched;
use call_working_set::CallState;
use sched_book::{Cause, Desk, HostRow, Invariant, Unavailable, copy_of};
use std::alloc::Global;
use table_meaning::rows::{RowChange, StoredRow};
use table_worlds::{Total, host_row};
use texts::Listed;

/// The total, with one part of it replaced by another.
fn moved(total: Total, share: Total, other: Total) -> Result<Total, Unavailable>
    ensures held { IfOk result (λ after. total.held + other.held ≡ after.held + share.held) }
    ensures credit { IfOk result (λ after. total.credit + other.credit ≡ after.credit + share.credit) }
{
    let sum = total.plus(other.held, other.credit)?;
    match (
        sum.held.checked_sub(share.held),
        sum.credit.checked_sub(share.credit),
    ) {
        (Some(held), Some(credit)) => Ok(Total { held, credit }),
        _ => Err(Unavailable(Cause::Broken(Invariant::MovedTotal))),
    }
}

/// What a host holds, and its credit, in any world where one share of both, in the desk's world, is replaced by
/// another.
fn total_after<D: Desk>(
    desk: &mut D,
    host: u32,
    share: Total,
    other: Total,
) -> Result<Total, Unavailable>
    ensures reads { D.reads desk.old desk.new }
    ensures total { Trusted D.Units desk.old desk.new ((after : World) → ReplacesShare (D.world desk.old) after host share other →
        IfOk result (λ total. total ≡ total_of after host)) }
{
    let held = desk.held_count(host)?;
    let credit = desk.credit_of_host(host)?;
    moved(Total { held, credit }, share, other)
}

/// The host of a number, as it is after the call state's edits.
fn host_now<D: Desk>(
    alloc: Global,
    desk: &mut D,
    call_state: &CallState,
    host: u32,
) -> Result<Option<HostRow>, Unavailable>
    ensures reads { D.reads desk.old desk.new }
    ensures host { Trusted D.Units desk.old desk.new (IsCallStateOf (D.world desk.old) call_state.now →
        IfOk result (λ row. row ≡ host_at (edited (D.world desk.old) call_state.now.edits) host)) }
{
    match call_state.host(host) {
        Some(row) => Ok(Some(copy_of(row)?)),
        None => desk.host_by_id(alloc, host),
    }
}

/// The row of a host, if it exists. It is an update, since a host has no row only before its first call.
fn row_of(
    alloc: Global,
    id: u32,
    host: &Option<HostRow>,
    total: Total,
) -> Result<Option<RowChange>, Unavailable>
    ensures { IfOk result (λ row. row ≡ option_map (λ h. stored.Host (specified_row total.held total.credit id h)) host.now) }
{
    match host {
        None => Ok(None),
        Some(host) => {
            let row = host_row(alloc, id, host, total)?;
            Ok(Some(RowChange::update(StoredRow::Host(row))))
        }
    }
}

/// The row of a host, if it is in the call state or if its share of the total changed.
fn changed_host<D: Desk>(
    alloc: Global,
    desk: &mut D,
    call_state: &CallState,
    host: u32,
    share: Total,
    other: Total,
) -> Result<Option<RowChange>, Unavailable>
    ensures reads { D.reads desk.old desk.new }
    ensures row { Trusted D.Units desk.old desk.new (IsCallStateOf (D.world desk.old) call_state.now
        → ReplacesShare (D.world desk.old) (edited (D.world desk.old) call_state.now.edits) host share other
        → IfOk result (IsChange (row_in (D.world desk.old) (key.Host host)) (row_in (edited (D.world desk.old) call_state.now.edits) (key.Host host)))) }
{
    if call_state.host(host).is_none() && share.held == other.held && share.credit == other.credit {
        return Ok(None);
    }
    let total = total_after(desk, host, share, other)?;
    let row = host_now(alloc, desk, call_state, host)?;
    row_of(alloc, host, &row, total)
}

/// Appends the rows of the touched hosts.
pub(crate) fn push_hosts<D: Desk>(
    alloc: Global,
    desk: &mut D,
    call_state: &CallState,
    touched: &Touched,
    rows: &mut Listed<RowChange>,
) -> Result<(), Unavailable>
    ensures reads { D.reads desk.old desk.new }
    ensures rows { Trusted D.Units desk.old desk.new (IsCallStateOf (D.world desk.old) call_state.now → AreTouched call_state.now touched.now
        → OnOk result (AreAdded (is_host_among touched.now.hosts) (D.world desk.old) (edited (D.world desk.old) call_state.now.edits) rows.old rows.new)) }
{
    for host in touched.hosts.as_slice() {
        let share = tally(&touched.tallies.before, *host);
        let other = tally(&touched.tallies.present, *host);
        rows.push_some(changed_host(alloc, desk, call_state, *host, share, other)?)?;
    }
    Ok(())
}
