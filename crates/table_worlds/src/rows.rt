//! The row of a world at a key.

ghost use Rattle.std.specs.Prelude.{◌≡◌, List, pos, option_map, option_and_then, if◌then◌else◌, IfOk};
ghost use Rattle.sched_book.specs.Classes.{class_of};
ghost use Rattle.sched_book.specs.Places.{status_of};
ghost use Rattle.sched_book.specs.declared.instance.UnitBook.{UnitBook};
ghost use Rattle.sched_book.specs.declared.rows.ClassRule.{ClassRule as Rule};
ghost use Rattle.sched_book.specs.declared.world.World.{World};
ghost use Rattle.table_meaning.specs.Worlds.{agreement_limit, joined, app_place, is_queued, is_marked, account_row, app_row, version_row, class_row, unit_row, mark_row, host_row, instance_row};
ghost use Rattle.table_worlds.specs.Keys.{row_in, other_row};
ghost use Rattle.table_worlds.specs.RowsOf.{having};
ghost use Rattle.table_worlds.specs.declared.keys.WorldKey.TheVariants as key;
ghost use Rattle.table_worlds.specs.Totals.{totals_of};

use crate::keys::{WorldKey, number_of};
use crate::totals::Total;
use sched_book::count::book_status;
use sched_book::limits::MOST_INSTANCES;
use sched_book::{
    Account, Agreement, App, Cause, ClassRule, HostRow, Instance, Invariant, Outcome, Place,
    Status, Unavailable, UnitBook, Version, Workunit, World, app_index, nth,
};
use std::alloc::Global;
use table_meaning::codes::{lapse_code, status_code};
use table_meaning::rows::{
    StoredAccount, StoredApp, StoredHost, StoredInstance, StoredRow, StoredUnit, StoredUnitMark,
    StoredVersion, StoredVersionClass,
};
use texts::{Memory, Text};

/// The number as a table writes it.
fn written(number: u64) -> Result<i64, Unavailable>
    ensures { IfOk result (λ written. written ≡ pos number) }
{
    i64::try_from(number).map_err(|_| Unavailable(Cause::Broken(Invariant::WrittenNumber)))
}

/// How far apart two outputs may be. `None` if they must be equal.
fn agreement_limit(agreement: Agreement) -> Option<u32>
    ensures { result ≡ agreement_limit agreement }
{
    match agreement {
        Agreement::Exact => None,
        Agreement::Within(distance) => Some(distance),
    }
}

/// The words, joined by commas.
fn joined(alloc: Global, words: &[Text]) -> Result<Text, Memory>
    ensures { IfOk result (λ text. text ≡ joined words.now) }
{
    let mut text = String::new(alloc);
    let [first, others @ ..] = words else {
        return Ok(Text::of(text));
    };
    text.push_str(first.as_str())?;
    for word in others {
        text.push_str(",")?;
        text.push_str(word.as_str())?;
    }
    Ok(Text::of(text))
}

/// The place of the application of this name, or 0 if none has it.
pub(crate) fn app_place(world: &World, name: &str) -> Result<u32, Unavailable>
    ensures { IfOk result (λ place. place ≡ app_place world.now name.now) }
{
    match app_index(world.apps.as_slice(), name) {
        None => Ok(0),
        Some(index) => number_of(index),
    }
}

/// The row of an account. `Unavailable` if out of memory.
pub fn account_row(id: u32, account: &Account) -> Result<StoredAccount, Unavailable>
    ensures { IfOk result (λ row. row ≡ account_row id account.now) }
{
    Ok(StoredAccount {
        id,
        auth: account.authenticator.clone()?,
        name: account.name.clone()?,
    })
}

/// The row of an application. `Unavailable` if out of memory.
pub fn app_row(id: u32, app: &App) -> Result<StoredApp, Unavailable>
    ensures { IfOk result (λ row. row ≡ app_row id app.now) }
{
    Ok(StoredApp {
        id,
        name: app.name.clone()?,
        agreement: agreement_limit(app.agreement),
    })
}

/// The row of a version, for any world with its application at this place. `Unavailable` if out of memory.
pub fn version_row(id: u32, app: u32, version: &Version) -> Result<StoredVersion, Unavailable>
    ensures { IfOk result (λ row. (w : World) → app ≡ app_place w version.now.app → row ≡ version_row w id version.now) }
{
    Ok(StoredVersion {
        id,
        app_id: app,
        platform: version.platform.clone()?,
        num: version.version_num,
    })
}

/// The row of a version's class. `Unavailable` if out of memory.
pub fn class_row(id: u32, version: &Version) -> Result<StoredVersionClass, Unavailable>
    ensures { IfOk result (λ row. row ≡ class_row id version.now) }
{
    Ok(StoredVersionClass {
        version_id: id,
        class: version.class.clone()?,
    })
}

fn is_marked(rule: &ClassRule) -> bool
    ensures { result ≡ is_marked rule.now }
{
    match rule {
        ClassRule::Any => false,
        ClassRule::OfFirst | ClassRule::Only(_) => true,
    }
}

/// The class that a workunit of this rule keeps to, if it has one.
fn class_of(rule: &ClassRule) -> Result<Option<Text>, Memory>
    ensures { IfOk result (λ class. class ≡ class_of rule.now) }
{
    match rule {
        ClassRule::Any | ClassRule::OfFirst => Ok(None),
        ClassRule::Only(class) => Ok(Some(class.clone()?)),
    }
}

/// The row of the mark of any workunit of this rule. `Unavailable` if out of memory.
pub fn mark_row(id: u32, rule: &ClassRule) -> Result<StoredUnitMark, Unavailable>
    ensures { IfOk result (λ row. (b : UnitBook) → b.unit.class_rule ≡ rule.now → row ≡ mark_row id b) }
{
    Ok(StoredUnitMark {
        unit_id: id,
        marked: is_marked(rule),
        class: class_of(rule)?,
    })
}

/// The status of a workunit of the world. `Unavailable` if it has more instances than it may have.
pub(crate) fn status_of(world: &World, book: &UnitBook) -> Result<Status, Unavailable>
    ensures { IfOk result (λ status. status ≡ status_of world.now book.now) }
{
    if book.instances.len() > MOST_INSTANCES {
        return Err(Unavailable(Cause::Broken(Invariant::InstancesOfStatus)));
    }
    Ok(book_status(world.apps.as_slice(), book))
}

/// The row of a workunit, for any world where its application is at this place and it has this status, and for any
/// class rule. `Unavailable` if out of memory, or if a table can't hold a number of it.
pub fn unit_row(
    id: u32,
    app: u32,
    unit: &Workunit,
    status: Status,
) -> Result<StoredUnit, Unavailable>
    ensures { IfOk result (λ row. (w : World) (b : UnitBook) (rule : Rule) → b.unit ≡ record unit.now { class_rule = rule } → app ≡ app_place w unit.now.app → status ≡ status_of w b
        → row ≡ unit_row w id b) }
{
    Ok(StoredUnit {
        id,
        name: unit.name.clone()?,
        app_id: app,
        min_quorum: unit.min_quorum,
        target_nresults: unit.target_nresults,
        max_error_results: unit.max_error_results,
        max_total_results: unit.max_total_results,
        max_success_results: unit.max_success_results,
        delay_bound: unit.delay_bound,
        rsc_fpops_est: written(unit.rsc_fpops_est)?,
        rsc_memory_bound: written(unit.rsc_memory_bound)?,
        rsc_disk_bound: written(unit.rsc_disk_bound)?,
        credit: unit.credit,
        status: status_code(status),
    })
}

/// The row of a host, with its counted columns. `Unavailable` if out of memory, or if a table can't hold a number of
/// it.
pub fn host_row(
    alloc: Global,
    id: u32,
    host: &HostRow,
    total: Total,
) -> Result<StoredHost, Unavailable>
    ensures { IfOk result (λ row. row ≡ host_row total.held total.credit id host.now) }
{
    Ok(StoredHost {
        id,
        account_id: host.account,
        cpid: host.cpid.clone()?,
        platforms: joined(alloc, host.platforms.as_slice())?,
        fpops: written(host.p_fpops)?,
        memory: written(host.m_nbytes)?,
        disk: written(host.d_free)?,
        quota: host.quota,
        held: total.held,
        credit: written(total.credit)?,
    })
}

/// The moment of sending and the deadline.
fn times(instance: &Instance) -> Result<(Option<i64>, Option<i64>), Unavailable>
    ensures { IfOk result (λ t. t ≡ (option_map (λ o. pos o.sent) instance.now.owner, option_map (λ o. pos o.deadline) instance.now.owner)) }
{
    match &instance.owner {
        None => Ok((None, None)),
        Some(owner) => Ok((
            Some(written(owner.sent.seconds())?),
            Some(written(owner.deadline)?),
        )),
    }
}

/// The outcome, the output and the place of a report.
fn report_columns(
    report: &Option<Outcome>,
) -> Result<(Option<u32>, Option<Text>, Option<u32>), Unavailable>
    ensures { IfOk result (λ t. t ≡ (option_map (λ r. if r.success then 1 else 3) report.now, option_map (λ r. r.output) report.now, option_and_then (λ r. r.place) report.now)) }
{
    match report {
        None => Ok((None, None, None)),
        Some(report) => Ok((
            Some(if report.success { 1 } else { 3 }),
            Some(report.output.clone()?),
            report.place,
        )),
    }
}

/// The row of an instance, for any world where its workunit has this status. `Unavailable` if out of memory, or if a
/// table can't hold a number of it.
pub fn instance_row(
    place: Place,
    instance: &Instance,
    status: Status,
) -> Result<StoredInstance, Unavailable>
    ensures { IfOk result (λ row. (w : World) (b : UnitBook) → status ≡ status_of w b → row ≡ instance_row w b place.unit place.number instance.now) }
{
    let (sent, deadline) = times(instance)?;
    let (outcome, output, report_place) = report_columns(&instance.report)?;
    Ok(StoredInstance {
        unit_id: place.unit,
        num: place.number,
        host_id: instance.owner_host(),
        sent,
        deadline,
        lapse: lapse_code(instance.lapse),
        outcome,
        output,
        place: report_place,
        queued: instance.owner.is_none() && status_code(status) == 0,
    })
}

/// The row of a host, with its counted columns.
fn host_at(
    alloc: Global,
    world: &World,
    totals: &[Total],
    id: u32,
) -> Result<Option<StoredRow>, Unavailable>
    ensures { (books : List UnitBook) → totals.now ≡ totals_of (having world.now books) → IfOk result (λ row. row ≡ row_in (having world.now books) (key.Host id)) }
{
    let Some(host) = nth(world.hosts.as_slice(), id) else {
        return Ok(None);
    };
    match nth(totals, id) {
        None => Err(Unavailable(Cause::Broken(Invariant::TotalOfHost))),
        Some(total) => Ok(Some(StoredRow::Host(host_row(alloc, id, host, *total)?))),
    }
}

/// The row of a world at a key, if its hosts have these totals, for any workunits. None at a key of a workunit, a mark
/// or an instance. `Unavailable` if out of memory, or if a table can't hold a number of it.
pub(crate) fn row_at(
    alloc: Global,
    world: &World,
    totals: &[Total],
    key: WorldKey,
) -> Result<Option<StoredRow>, Unavailable>
    ensures { (books : List UnitBook) → totals.now ≡ totals_of (having world.now books) → IfOk result (λ row. row ≡ other_row (having world.now books) key) }
{
    match key {
        WorldKey::Account(id) => match nth(world.accounts.as_slice(), id) {
            None => Ok(None),
            Some(account) => Ok(Some(StoredRow::Account(account_row(id, account)?))),
        },
        WorldKey::App(id) => match nth(world.apps.as_slice(), id) {
            None => Ok(None),
            Some(app) => Ok(Some(StoredRow::App(app_row(id, app)?))),
        },
        WorldKey::Version(id) => match nth(world.versions.as_slice(), id) {
            None => Ok(None),
            Some(version) => {
                let app = app_place(world, version.app.as_str())?;
                Ok(Some(StoredRow::Version(version_row(id, app, version)?)))
            }
        },
        WorldKey::Class(id) => match nth(world.versions.as_slice(), id) {
            None => Ok(None),
            Some(version) => Ok(Some(StoredRow::VersionClass(class_row(id, version)?))),
        },
        WorldKey::Host(id) => host_at(alloc, world, totals, id),
        WorldKey::Unit(_) | WorldKey::Mark(_) | WorldKey::Instance(_) => Ok(None),
    }
}
