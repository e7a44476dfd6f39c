//! The places of the instances that pass a test. Each look-up returns `Unavailable` if memory or the disk fails. It
//! returns `BadRow` if a row that it reads does not have the form of its table.

ghost use Rattle.std.specs.Prelude.{◌≡◌, ◌≤◌, Bool, List, length, map, take, IfOk, IsPermutation};
ghost use Rattle.sched_book.specs.declared.instance.Place.{Place as BookPlace};
ghost use Rattle.sqlite.specs.Held.{state};
ghost use Rattle.sqlite.specs.State.{HasCleanDisk};
ghost use Rattle.sqlite.specs.Values.{bound};
ghost use Rattle.sqlite_value.specs.Order.{Row as SqlRow};
ghost use Rattle.sqlite_value.specs.Value.{owned};
ghost use Rattle.sqlite_value.specs.declared.value.Value.TheVariants.{Int as SqlInt};
ghost use Rattle.table_meaning.specs.declared.rows.StoredRow.TheVariants as stored;
ghost use Rattle.table_meaning.specs.Places.{place_row, AreAllPlaces, ShowsPlaces, places_with_row, instances_within, is_of_host, is_row_held_by, page_size, waits_from, is_sent_between, is_due};
ghost use Rattle.table_meaning.specs.Rows.{columns_of};
ghost use Rattle.table_meaning.specs.Formats.{columns_in};
ghost use Rattle.table_meaning.specs.Reads.{Reads};
ghost use Rattle.table_meaning.specs.Holding.{Contents, Hold};

use crate::columns::stored_row;
use crate::fields;
use crate::opening::OpenFault;
use crate::read::shown_by;
use crate::values::whole;
use sched_book::{Cause, Invariant, Place};
use sqlite::types::ValueRef;
use sqlite::{Alter, Connection, Row};
use std::alloc::Global;
use table_meaning::rows::{StoredInstance, StoredRow};
use table_meaning::tables::{QueuePage, TableName};
use texts::Listed;

/// A moment as a parameter, in seconds since 1970-01-01T00:00:00Z.
fn moment(seconds: i64) -> ValueRef<'static>
    ensures { owned result ≡ SqlInt seconds }
{
    ValueRef::Int(seconds)
}

/// The place in the first two columns of the row.
fn place(alloc: Global, row: &Row) -> Result<Place, OpenFault>
    ensures { IfOk result (λ place. place_row place ≡ columns_in row.now 2) }
{
    Ok(Place {
        unit: fields::whole(alloc, row, 0)?,
        number: fields::whole(alloc, row, 1)?,
    })
}

/// The places in the first two columns of these rows.
fn places(alloc: Global, rows: &[Row]) -> Result<Listed<Place>, OpenFault>
    ensures { IfOk result (λ all. map place_row all ≡ map (λ row. columns_in row 2) rows.now) }
{
    let mut all = Listed::new(alloc);
    for row in rows {
        all.push(place(alloc, row)?)?;
    }
    Ok(all)
}

/// The places that a statement shows. What the connection shows is unchanged.
fn places_shown<S: Alter>(
    alloc: Global,
    conn: &mut Connection<S>,
    text: &str,
    params: &[ValueRef<'_>],
) -> Result<Listed<Place>, OpenFault>
    ensures reads { Reads (state S.Store conn.old) (state S.Store conn.new) }
    ensures shown { HasCleanDisk (state S.Store conn.new) → IfOk result (ShowsPlaces S.Store conn.old text.now (bound params.now)) }
{
    let rows = shown_by(conn, text, params)?;
    places(alloc, rows.as_slice())
}

/// Sorts places by the workunit and then by the number. They are the places that pass some test, in any order.
fn in_order(places: Listed<Place>) -> Listed<Place>
    ensures { (contents : Contents) (all : List BookPlace) (test : SqlRow → Bool) → AreAllPlaces contents all → IsPermutation (places_with_row contents test all) places
        → result ≡ places_with_row contents test all }
{
    let mut places = places.into_vec();
    places.sort_unstable_by_key(|place| (place.unit, place.number));
    Listed::of(places)
}

/// The row as an instance. `BadRow` if it does not have the form of one.
fn instance(alloc: Global, row: &Row) -> Result<StoredInstance, OpenFault>
    ensures { IfOk result (λ instance. columns_of (stored.Instance instance) ≡ row.now) }
{
    match stored_row(alloc, TableName::Instance, row)? {
        StoredRow::Instance(instance) => Ok(instance),
        _ => Err(OpenFault::BadRow),
    }
}

/// The rows as instances.
fn instances(alloc: Global, rows: &[Row]) -> Result<Listed<StoredInstance>, OpenFault>
    ensures { IfOk result (λ all. map (λ instance. columns_of (stored.Instance instance)) all ≡ rows.now) }
{
    let mut all = Listed::new(alloc);
    for row in rows {
        all.push(instance(alloc, row)?)?;
    }
    Ok(all)
}

/// Reads the instances of the workunit at this place, by their numbers. What the connection shows is unchanged.
pub fn instances_in<S: Alter>(
    alloc: Global,
    conn: &mut Connection<S>,
    unit: u32,
) -> Result<Listed<StoredInstance>, OpenFault>
    ensures reads { Reads (state S.Store conn.old) (state S.Store conn.new) }
    ensures rows { HasCleanDisk (state S.Store conn.new) → (contents : Contents) (places : List BookPlace) → Hold (state S.Store conn.old).now contents → AreAllPlaces contents places
        → IfOk result (λ rows. map stored.Instance rows ≡ instances_within contents unit places) }
{
    let rows = shown_by(
        conn,
        "SELECT unit_id, num, host_id, sent, deadline, lapse, outcome, output, place, queued FROM instance WHERE unit_id > 0 AND num >= 0 AND unit_id = ?1 ORDER BY unit_id, num",
        &[whole(unit)],
    )?;
    instances(alloc, rows.as_slice())
}

/// Reads the places of the instances that the host of this number holds, if it holds at most `most`. It looks from the
/// newest one on and stops once it has found `most` of them. What the connection shows is unchanged.
pub fn places_held<S: Alter>(
    alloc: Global,
    conn: &mut Connection<S>,
    host: u32,
    most: u32,
) -> Result<Listed<Place>, OpenFault>
    ensures reads { Reads (state S.Store conn.old) (state S.Store conn.new) }
    ensures held { HasCleanDisk (state S.Store conn.new) → (contents : Contents) (places : List BookPlace) → Hold (state S.Store conn.old).now contents → AreAllPlaces contents places
        → length (places_with_row contents (is_row_held_by host) places) ≤ most → IfOk result (λ held. held ≡ places_with_row contents (is_row_held_by host) places) }
{
    let held = places_shown(
        alloc,
        conn,
        "SELECT unit_id, num FROM instance WHERE unit_id > 0 AND num >= 0 AND host_id = ?1 AND sent >= 0 AND lapse = 0 AND outcome IS NULL ORDER BY sent DESC LIMIT ?2",
        &[whole(host), whole(most)],
    )?;
    Ok(in_order(held))
}

/// Reads the places of the instances that were sent to the host of this number. What the connection shows is unchanged.
pub fn places_owned<S: Alter>(
    alloc: Global,
    conn: &mut Connection<S>,
    host: u32,
) -> Result<Listed<Place>, OpenFault>
    ensures reads { Reads (state S.Store conn.old) (state S.Store conn.new) }
    ensures owned { HasCleanDisk (state S.Store conn.new) → (contents : Contents) (places : List BookPlace) → Hold (state S.Store conn.old).now contents → AreAllPlaces contents places
        → IfOk result (λ owned. owned ≡ places_with_row contents (is_of_host host) places) }
{
    places_shown(
        alloc,
        conn,
        "SELECT unit_id, num FROM instance WHERE unit_id > 0 AND num >= 0 AND host_id = ?1 ORDER BY unit_id, num",
        &[whole(host)],
    )
}

/// Reads the places of instances that are waiting to be sent: the first ones from this place on, at most one page. What
/// the connection shows is unchanged.
pub fn queued_from<S: Alter>(
    alloc: Global,
    conn: &mut Connection<S>,
    from: Place,
    page: QueuePage,
) -> Result<Listed<Place>, OpenFault>
    ensures reads { Reads (state S.Store conn.old) (state S.Store conn.new) }
    ensures queued { HasCleanDisk (state S.Store conn.new) → (contents : Contents) (places : List BookPlace) → Hold (state S.Store conn.old).now contents → AreAllPlaces contents places
        → IfOk result (λ queued. queued ≡ take (page_size page) (places_with_row contents (waits_from from) places)) }
{
    places_shown(
        alloc,
        conn,
        "SELECT unit_id, num FROM instance WHERE unit_id > 0 AND num >= 0 AND queued = 1 AND unit_id >= ?1 AND (unit_id > ?1 OR num >= ?2) ORDER BY unit_id, num LIMIT ?3",
        &[whole(from.unit), whole(from.number), whole(page.size())],
    )
}

/// Counts the instances that were sent to the host of this number at or after one moment and before another, in seconds
/// since 1970-01-01T00:00:00Z. What the connection shows is unchanged.
pub fn sent_between<S: Alter>(
    alloc: Global,
    conn: &mut Connection<S>,
    host: u32,
    from: i64,
    until: i64,
) -> Result<u32, OpenFault>
    ensures reads { Reads (state S.Store conn.old) (state S.Store conn.new) }
    ensures sent { HasCleanDisk (state S.Store conn.new) → (contents : Contents) (places : List BookPlace) → Hold (state S.Store conn.old).now contents → AreAllPlaces contents places
        → IfOk result (λ count. count ≡ length (places_with_row contents (is_sent_between host from until) places)) }
{
    let sent = places_shown(
        alloc,
        conn,
        "SELECT unit_id, num FROM instance WHERE unit_id > 0 AND num >= 0 AND host_id = ?1 AND sent >= ?2 AND sent < ?3 ORDER BY sent",
        &[whole(host), moment(from), moment(until)],
    )?;
    match u32::try_from(sent.len()) {
        Ok(count) => Ok(count),
        Err(_) => Err(OpenFault::Unavailable(Cause::Broken(Invariant::SentInstances))),
    }
}

/// Reads the places of the held instances whose deadline is at or after one moment and before another, in seconds since
/// 1970-01-01T00:00:00Z. What the connection shows is unchanged.
pub fn places_due<S: Alter>(
    alloc: Global,
    conn: &mut Connection<S>,
    from: i64,
    until: i64,
) -> Result<Listed<Place>, OpenFault>
    ensures reads { Reads (state S.Store conn.old) (state S.Store conn.new) }
    ensures due { HasCleanDisk (state S.Store conn.new) → (contents : Contents) (places : List BookPlace) → Hold (state S.Store conn.old).now contents → AreAllPlaces contents places
        → IfOk result (λ due. due ≡ places_with_row contents (is_due from until) places) }
{
    let due = places_shown(
        alloc,
        conn,
        "SELECT unit_id, num FROM instance WHERE unit_id > 0 AND num >= 0 AND deadline >= ?1 AND deadline < ?2 AND lapse = 0 AND outcome IS NULL ORDER BY deadline",
        &[moment(from), moment(until)],
    )?;
    Ok(in_order(due))
}
