//! Accounts, applications, versions and hosts, each from its row. A version takes its class from another row.

ghost use Rattle.std.specs.Prelude.{◌≡◌, ℕ, pos, List, All, map, IsTrue, Ok, Some, IfOk};
ghost use Rattle.sched_book.specs.Numbered.{map_from};
ghost use Rattle.sched_book.specs.Imports.{has_app};
ghost use Rattle.sched_book.specs.Limits.{most_quota, IsAccountInLimits, IsHostInLimits};
ghost use Rattle.sched_book.specs.Places.{nth as specified_nth};
ghost use Rattle.sched_book.specs.Sound.{IsSoundVersion};
ghost use Rattle.sched_book.specs.declared.rows.Account.{Account};
ghost use Rattle.sched_book.specs.declared.rows.Agreement.{Agreement};
ghost use Rattle.sched_book.specs.declared.rows.App.{App};
ghost use Rattle.sched_book.specs.declared.rows.HostRow.{HostRow};
ghost use Rattle.sched_book.specs.declared.rows.Version.{Version};
ghost use Rattle.sched_book.specs.declared.world.World.{World};
ghost use Rattle.table_meaning.specs.Rows.{columns_of};
ghost use Rattle.texts.specs.Words.{IsWord};
ghost use Rattle.table_meaning.specs.Worlds.{agreement_limit, app_place, account_row, host_row};
ghost use Rattle.table_meaning.specs.declared.rows.StoredRow.TheVariants as stored;
ghost use Rattle.table_worlds.specs.ReadBack.{account_in, app_name_at, host_in};
ghost use Rattle.table_decoding.specs.Decoding.{Gives, of_account, of_app, of_version, of_class, of_word, of_host};

use crate::fault::RowFault;
use crate::listed_rows::each;
use crate::platforms::platforms;
use sched_book::limits::MOST_QUOTA;
use sched_book::{Account, Agreement, App, HostRow, Version, nth};
use std::alloc::Global;
use table_meaning::rows::{StoredAccount, StoredHost, StoredRow, StoredVersionClass};
use texts::{Listed, Text, is_word};
use world_soundness::in_limits::{is_account_in_limits, is_host_in_limits};

/// The number that a table writes. In a row of a world it is never negative.
pub(crate) fn amount(written: i64) -> Result<u64, RowFault>
    ensures given { (n : ℕ) → written ≡ pos n → result ≡ Ok n }
    ensures read { IfOk result (λ n. written ≡ pos n) }
{
    u64::try_from(written).map_err(|_| RowFault::BadRow)
}

/// The account of a row. `BadRow` if a value is out of range.
pub fn account(row: &StoredAccount) -> Result<Account, RowFault>
    ensures given { (id : ℕ) (a : Account) → IsAccountInLimits a → row.now ≡ account_row id a → Gives result a }
    ensures read { IfOk result (λ a. a ≡ account_in (columns_of (stored.Account row.now))) }
    ensures limits { IfOk result IsAccountInLimits }
{
    let account = Account {
        authenticator: row.auth.clone()?,
        name: row.name.clone()?,
    };
    if !is_account_in_limits(&account) {
        return Err(RowFault::BadRow);
    }
    Ok(account)
}

/// The account of a row of some table.
fn told_account(row: &StoredRow) -> Result<Account, RowFault>
    ensures { (id : ℕ) (a : Account) → IsAccountInLimits a → row.now ≡ of_account id a → Gives result a }
{
    match row {
        StoredRow::Account(row) => account(row),
        _ => Err(RowFault::BadRow),
    }
}

/// The accounts of these rows.
pub(crate) fn accounts(alloc: Global, rows: &[StoredRow]) -> Result<Listed<Account>, RowFault>
    ensures { (xs : List Account) → All IsAccountInLimits xs → rows.now ≡ map_from 1 of_account xs → Gives result xs }
{
    each(alloc, rows, told_account)
}

/// How outputs are compared: they may be so far apart, or must be equal if there is no limit.
fn agreement(limit: Option<u32>) -> Agreement
    ensures { (a : Agreement) → limit ≡ agreement_limit a → result ≡ a }
{
    match limit {
        None => Agreement::Exact,
        Some(distance) => Agreement::Within(distance),
    }
}

/// The application of a row.
fn app(row: &StoredRow) -> Result<App, RowFault>
    ensures { (id : ℕ) (a : App) → row.now ≡ of_app id a → Gives result a }
{
    let StoredRow::App(row) = row else {
        return Err(RowFault::BadRow);
    };
    Ok(App {
        name: row.name.clone()?,
        agreement: agreement(row.agreement),
    })
}

/// The applications of these rows.
pub(crate) fn apps(alloc: Global, rows: &[StoredRow]) -> Result<Listed<App>, RowFault>
    ensures { (xs : List App) → rows.now ≡ map_from 1 of_app xs → Gives result xs }
{
    each(alloc, rows, app)
}

/// The name of the application at a place.
pub(crate) fn app_name(apps: &[App], place: u32) -> Result<Text, RowFault>
    ensures read { IfOk result (λ name. name ≡ app_name_at apps.now place) }
    ensures given { (w : World) (name : List ℕ) → apps.now ≡ w.apps → IsTrue (has_app w.apps name) → place ≡ app_place w name → Gives result name }
{
    match nth(apps, place) {
        None => Err(RowFault::BadRow),
        Some(app) => Ok(app.name.clone()?),
    }
}

/// The class of a row. `BadRow` if it is not a word.
pub fn version_class(row: &StoredVersionClass) -> Result<Text, RowFault>
    ensures given { IsWord row.now.class → Gives result row.now.class }
    ensures read { IfOk result (λ class. class ≡ row.now.class) }
    ensures limits { IfOk result IsWord }
{
    let class = row.class.clone()?;
    if !is_word(class.as_str().as_bytes()) {
        return Err(RowFault::BadRow);
    }
    Ok(class)
}

/// The class of a row of some table.
fn told_class(row: &StoredRow) -> Result<Text, RowFault>
    ensures { (id : ℕ) (class : List ℕ) → IsWord class → row.now ≡ of_word id class → Gives result class }
{
    match row {
        StoredRow::VersionClass(row) => version_class(row),
        _ => Err(RowFault::BadRow),
    }
}

/// The classes of these rows.
fn classes(alloc: Global, rows: &[StoredRow]) -> Result<Listed<Text>, RowFault>
    ensures { (words : List (List ℕ)) → All IsWord words → rows.now ≡ map_from 1 of_word words → Gives result words }
{
    each(alloc, rows, told_class)
}

/// The class of the version of this number.
fn class_at(classes: &[Text], id: u32) -> Result<Text, RowFault>
    ensures { (class : List ℕ) → specified_nth classes.now id ≡ Some class → Gives result class }
{
    match nth(classes, id) {
        None => Err(RowFault::BadRow),
        Some(class) => Ok(class.clone()?),
    }
}

/// The version of a row, from the applications and the classes of all versions.
fn version(apps: &[App], classes: &[Text], row: &StoredRow) -> Result<Version, RowFault>
    ensures { (w : World) (id : ℕ) (v : Version) → apps.now ≡ w.apps → IsTrue (has_app w.apps v.app) → specified_nth classes.now id ≡ Some v.class
        → row.now ≡ of_version w id v → Gives result v }
{
    let StoredRow::Version(row) = row else {
        return Err(RowFault::BadRow);
    };
    Ok(Version {
        app: app_name(apps, row.app_id)?,
        platform: row.platform.clone()?,
        version_num: row.num,
        class: class_at(classes, row.id)?,
    })
}

/// The versions of these rows, from the applications and the classes of all versions.
fn classed_versions(
    alloc: Global,
    apps: &[App],
    classes: &[Text],
    rows: &[StoredRow],
) -> Result<Listed<Version>, RowFault>
    ensures { (w : World) → apps.now ≡ w.apps → All (IsSoundVersion w.apps) w.versions → classes.now ≡ map (λ v. v.class) w.versions
        → rows.now ≡ map_from 1 (of_version w) w.versions → Gives result w.versions }
{
    each(alloc, rows, |row| version(apps, classes, row))
}

/// The versions of these rows, from the applications and the rows of the classes.
pub(crate) fn versions(
    alloc: Global,
    apps: &[App],
    rows: &[StoredRow],
    class_rows: &[StoredRow],
) -> Result<Listed<Version>, RowFault>
    ensures { (w : World) → apps.now ≡ w.apps → All (IsSoundVersion w.apps) w.versions → rows.now ≡ map_from 1 (of_version w) w.versions
        → class_rows.now ≡ map_from 1 of_class w.versions → Gives result w.versions }
{
    let classes = classes(alloc, class_rows)?;
    classed_versions(alloc, apps, classes.as_slice(), rows)
}

/// The host of a row. `BadRow` if a value is out of range. The range of its quota is the one that settings may allow.
pub fn host(alloc: Global, row: &StoredHost) -> Result<HostRow, RowFault>
    ensures given { (held credit id : ℕ) (h : HostRow) → IsHostInLimits most_quota h → row.now ≡ host_row held credit id h → Gives result h }
    ensures read { IfOk result (λ h. h ≡ host_in (columns_of (stored.Host row.now))) }
    ensures limits { IfOk result (IsHostInLimits most_quota) }
{
    let host = HostRow {
        account: row.account_id,
        cpid: row.cpid.clone()?,
        p_fpops: amount(row.fpops)?,
        m_nbytes: amount(row.memory)?,
        d_free: amount(row.disk)?,
        platforms: platforms(alloc, row.platforms.as_str())?,
        quota: row.quota,
    };
    if !is_host_in_limits(MOST_QUOTA, &host) {
        return Err(RowFault::BadRow);
    }
    Ok(host)
}

/// The host of a row of some table.
fn told_host(alloc: Global, row: &StoredRow) -> Result<HostRow, RowFault>
    ensures { (held credit : ℕ → ℕ) (id : ℕ) (h : HostRow) → IsHostInLimits most_quota h → row.now ≡ of_host held credit id h → Gives result h }
{
    match row {
        StoredRow::Host(row) => host(alloc, row),
        _ => Err(RowFault::BadRow),
    }
}

/// The hosts of these rows.
pub(crate) fn hosts(alloc: Global, rows: &[StoredRow]) -> Result<Listed<HostRow>, RowFault>
    ensures { (held credit : ℕ → ℕ) (xs : List HostRow) → All (IsHostInLimits most_quota) xs → rows.now ≡ map_from 1 (of_host held credit) xs → Gives result xs }
{
    each(alloc, rows, |row| told_host(alloc, row))
}
