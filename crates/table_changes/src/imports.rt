//! The rows that an import puts: new accounts, applications, versions with their classes, and workunits with their marks.

ghost use Rattle.std.specs.Prelude.{◌≡◌, ◌+◌, ◌≤◌, [], ◌∷◌, length, replicate, IfOk, OnOk, Some};
ghost use Rattle.sched_book.specs.Count as spec;
ghost use Rattle.sched_book.specs.Imports.{with_rows};
ghost use Rattle.sched_book.specs.Places.{unit_at, status_of as spec_status};
ghost use Rattle.sched_book.specs.Settle.{fresh};
ghost use Rattle.sched_book.specs.Trusted.{Trusted};
ghost use Rattle.sched_book.specs.declared.instance.UnitBook.{UnitBook};
ghost use Rattle.sched_book.specs.declared.rows.Rows.TheVariants as kinds;
ghost use Rattle.sched_book.specs.declared.world.World.{World};
ghost use Rattle.table_worlds.specs.Changes.{AreChanges};
ghost use Rattle.table_worlds.specs.Readable.{IsReadable};
ghost use Rattle.table_changes.specs.Added.{is_instance_among, AreAdded};
ghost use Rattle.table_changes.specs.Imported.{AreImported, HaveImported};

use crate::applications::known_app;
use sched_book::count::status;
use sched_book::limits::MOST_INSTANCES;
use sched_book::{
    Account, Agreement, App, Cause, Counts, Desk, Instance, Invariant, Place, Rows, Status,
    Unavailable, Version, Workunit, fresh_instances,
};
use std::alloc::Global;
use table_meaning::rows::{RowChange, StoredRow};
use table_worlds::{
    account_row, app_row, class_row, instance_row, mark_row, unit_row, version_row,
};
use texts::Listed;

/// The number after a count.
fn next(count: u32) -> Result<u32, Unavailable>
    ensures { IfOk result (λ number. number ≡ count + 1) }
{
    count
        .checked_add(1)
        .ok_or(Unavailable(Cause::Broken(Invariant::NextNumber)))
}

/// Appends the row of a new account, and counts it.
fn push_account(
    count: Counts,
    account: &Account,
    rows: &mut Listed<RowChange>,
) -> Result<Counts, Unavailable>
    ensures { (w v : World) → AreImported w v count rows.old → IfOk result (λ counted. AreImported w (with_rows v (kinds.Accounts (account.now ∷ []))) counted rows.new) }
{
    let accounts = next(count.accounts)?;
    let row = account_row(accounts, account)?;
    rows.push(RowChange::insert(StoredRow::Account(row)))?;
    Ok(Counts { accounts, ..count })
}

/// Appends the row of a new application, and counts it.
fn push_app(count: Counts, app: &App, rows: &mut Listed<RowChange>) -> Result<Counts, Unavailable>
    ensures { (w v : World) → AreImported w v count rows.old → IfOk result (λ counted. AreImported w (with_rows v (kinds.Apps (app.now ∷ []))) counted rows.new) }
{
    let apps = next(count.apps)?;
    let row = app_row(apps, app)?;
    rows.push(RowChange::insert(StoredRow::App(row)))?;
    Ok(Counts { apps, ..count })
}

/// Appends the row of a new version and that of its class, and counts it. `Unavailable` if its application does not
/// exist.
fn push_version<D: Desk>(
    alloc: Global,
    desk: &mut D,
    count: Counts,
    version: &Version,
    rows: &mut Listed<RowChange>,
) -> Result<Counts, Unavailable>
    ensures reads { D.reads desk.old desk.new }
    ensures rows { Trusted D.Units desk.old desk.new ((v : World) → AreImported (D.world desk.old) v count rows.old
        → IfOk result (λ counted. AreImported (D.world desk.old) (with_rows v (kinds.Versions (version.now ∷ []))) counted rows.new)) }
{
    let app = known_app(alloc, desk, version.app.as_str())?;
    let versions = next(count.versions)?;
    let row = version_row(versions, app.place, version)?;
    rows.push(RowChange::insert(StoredRow::Version(row)))?;
    let class = class_row(versions, version)?;
    rows.push(RowChange::insert(StoredRow::VersionClass(class)))?;
    Ok(Counts { versions, ..count })
}

/// The status of a new workunit. `Unavailable` if it begins with more instances than it may have.
fn first_status(
    alloc: Global,
    agreement: &Agreement,
    unit: &Workunit,
) -> Result<Status, Unavailable>
    ensures { IfOk result (λ told. told ≡ spec.status agreement.now unit.now (replicate unit.now.target_nresults fresh)) }
{
    if unit.target_nresults as usize > MOST_INSTANCES {
        return Err(Unavailable(Cause::Broken(Invariant::InstancesOfFirstStatus)));
    }
    let instances = fresh_instances(alloc, unit.target_nresults as usize)?;
    Ok(status(agreement, unit, instances.as_slice()))
}

/// Appends the rows of the instances of a new workunit with this place and status.
fn push_fresh(
    unit: u32,
    count: u32,
    status: Status,
    rows: &mut Listed<RowChange>,
) -> Result<(), Unavailable>
    ensures { (w v : World) (b : UnitBook) → unit_at v unit ≡ Some b → b.instances ≡ replicate count fresh → status ≡ spec_status v b
        → OnOk result (AreAdded (is_instance_among (unit ∷ [])) w v rows.old rows.new) }
{
    for number in 0..count {
        let row = instance_row(Place { unit, number }, &Instance::unsent(), status)?;
        rows.push(RowChange::insert(StoredRow::Instance(row)))?;
    }
    Ok(())
}

/// Appends the rows of a new workunit, of its mark and of its instances, and counts it. `Unavailable` if its
/// application does not exist.
fn push_unit<D: Desk>(
    alloc: Global,
    desk: &mut D,
    count: Counts,
    unit: &Workunit,
    rows: &mut Listed<RowChange>,
) -> Result<Counts, Unavailable>
    ensures reads { D.reads desk.old desk.new }
    ensures rows { Trusted D.Units desk.old desk.new ((v : World) → AreImported (D.world desk.old) v count rows.old
        → IfOk result (λ counted. AreImported (D.world desk.old) (with_rows v (kinds.Workunits (unit.now ∷ []))) counted rows.new)) }
{
    let app = known_app(alloc, desk, unit.app.as_str())?;
    let workunits = next(count.workunits)?;
    let status = first_status(alloc, &app.agreement, unit)?;
    let row = unit_row(workunits, app.place, unit, status)?;
    rows.push(RowChange::insert(StoredRow::Unit(row)))?;
    let mark = mark_row(workunits, &unit.class_rule)?;
    rows.push(RowChange::insert(StoredRow::UnitMark(mark)))?;
    push_fresh(workunits, unit.target_nresults, status, rows)?;
    Ok(Counts { workunits, ..count })
}

/// Appends the rows of new accounts.
fn import_accounts(
    accounts: &[Account],
    count: Counts,
    rows: &mut Listed<RowChange>,
) -> Result<(), Unavailable>
    ensures { (w v : World) → AreImported w v count rows.old → OnOk result (HaveImported w (with_rows v (kinds.Accounts accounts.now)) rows.new) }
{
    let mut counted = count;
    for account in accounts {
        counted = push_account(counted, account, rows)?;
    }
    Ok(())
}

/// Appends the rows of new applications.
fn import_apps(apps: &[App], count: Counts, rows: &mut Listed<RowChange>) -> Result<(), Unavailable>
    ensures { (w v : World) → AreImported w v count rows.old → OnOk result (HaveImported w (with_rows v (kinds.Apps apps.now)) rows.new) }
{
    let mut counted = count;
    for app in apps {
        counted = push_app(counted, app, rows)?;
    }
    Ok(())
}

/// Appends the rows of new versions and of their classes.
fn import_versions<D: Desk>(
    alloc: Global,
    desk: &mut D,
    versions: &[Version],
    count: Counts,
    rows: &mut Listed<RowChange>,
) -> Result<(), Unavailable>
    ensures reads { D.reads desk.old desk.new }
    ensures rows { Trusted D.Units desk.old desk.new ((v : World) → AreImported (D.world desk.old) v count rows.old
        → OnOk result (HaveImported (D.world desk.old) (with_rows v (kinds.Versions versions.now)) rows.new)) }
{
    let mut counted = count;
    for version in versions {
        counted = push_version(alloc, desk, counted, version, rows)?;
    }
    Ok(())
}

/// Appends the rows of new workunits, of their marks and of their instances.
fn import_units<D: Desk>(
    alloc: Global,
    desk: &mut D,
    units: &[Workunit],
    count: Counts,
    rows: &mut Listed<RowChange>,
) -> Result<(), Unavailable>
    ensures reads { D.reads desk.old desk.new }
    ensures rows { Trusted D.Units desk.old desk.new ((v : World) → AreImported (D.world desk.old) v count rows.old
        → OnOk result (HaveImported (D.world desk.old) (with_rows v (kinds.Workunits units.now)) rows.new)) }
{
    let mut counted = count;
    for unit in units {
        counted = push_unit(alloc, desk, counted, unit, rows)?;
    }
    Ok(())
}

/// Appends the rows of an import.
fn import_rows<D: Desk>(
    alloc: Global,
    desk: &mut D,
    new: &Rows,
    count: Counts,
    rows: &mut Listed<RowChange>,
) -> Result<(), Unavailable>
    ensures reads { D.reads desk.old desk.new }
    ensures rows { Trusted D.Units desk.old desk.new ((v : World) → AreImported (D.world desk.old) v count rows.old
        → OnOk result (HaveImported (D.world desk.old) (with_rows v new.now) rows.new)) }
{
    match new {
        Rows::Accounts(accounts) => import_accounts(accounts.as_slice(), count, rows),
        Rows::Apps(apps) => import_apps(apps.as_slice(), count, rows),
        Rows::Versions(versions) => {
            import_versions(alloc, desk, versions.as_slice(), count, rows)
        }
        Rows::Workunits(units) => import_units(alloc, desk, units.as_slice(), count, rows),
    }
}

/// The rows that an import puts, in their order. A version is followed by its class, a workunit by its mark and its
/// instances.
pub(crate) fn rows_of_import<D: Desk>(
    alloc: Global,
    desk: &mut D,
    new: &Rows,
) -> Result<Listed<RowChange>, Unavailable>
    ensures reads { D.reads desk.old desk.new }
    ensures rows { Trusted D.Units desk.old desk.new (IsReadable (D.world desk.old) →
        IfOk result (AreChanges (D.world desk.old) (with_rows (D.world desk.old) new.now))) }
    ensures readable { Trusted D.Units desk.old desk.new (IsReadable (D.world desk.old) →
        IfOk result (λ rows. IsReadable (with_rows (D.world desk.old) new.now))) }
{
    let count = desk.counts()?;
    let mut rows = Listed::new(alloc);
    import_rows(alloc, desk, new, count, &mut rows)?;
    Ok(rows)
}
