//! The columns of a row: read into its struct, and lent as the parameters of the statement that puts it.

ghost use Rattle.std.specs.Prelude.{◌≡◌, length, map, IfOk, IfErr};
ghost use Rattle.sqlite_value.specs.Value.{owned};
ghost use Rattle.table_meaning.specs.declared.rows.StoredRow.TheVariants as stored;
ghost use Rattle.table_meaning.specs.declared.tables.TableName.TheVariants as named;
ghost use Rattle.table_meaning.specs.Rows.{table_of, columns_of};
ghost use Rattle.table_meaning.specs.Formats.{kinds_of, AreOf, columns_in, IsStored};
ghost use Rattle.table_rows.specs.Utf8.{HasUtf8};

use crate::opening::OpenFault;
use crate::{fields, values};
use sqlite::Row;
use sqlite::types::ValueRef;
use std::alloc::{AllocError, Global};
use table_meaning::rows::{
    StoredAccount, StoredApp, StoredBatch, StoredCall, StoredHost, StoredInstance, StoredRow,
    StoredSetting, StoredUnit, StoredUnitMark, StoredVersion, StoredVersionClass,
};
use table_meaning::tables::TableName;

/// How many columns a row of the table has.
fn width(table: TableName) -> usize
    ensures { result ≡ length (kinds_of table) }
{
    match table {
        TableName::Setting | TableName::VersionClass => 2,
        TableName::Account | TableName::App | TableName::UnitMark => 3,
        TableName::Version | TableName::Batch => 4,
        TableName::Kept => 5,
        TableName::Unit => 14,
        TableName::Host | TableName::Instance => 10,
    }
}

fn setting(alloc: Global, row: &Row) -> Result<StoredSetting, OpenFault>
    ensures read { IfOk result (λ s. columns_of (stored.Setting s) ≡ columns_in row.now 2) }
    ensures utf8 { IfOk result (λ s. HasUtf8 (columns_of (stored.Setting s))) }
    ensures bad { IfErr result (λ e. e ≡ OpenFault.BadRow → ¬ AreOf (kinds_of named.Setting) row.now 0) }
{
    Ok(StoredSetting {
        name: fields::text(alloc, row, 0)?,
        value: fields::setting_value(alloc, row, 1)?,
    })
}

pub(crate) fn account(alloc: Global, row: &Row) -> Result<StoredAccount, OpenFault>
    ensures read { IfOk result (λ a. columns_of (stored.Account a) ≡ columns_in row.now 3) }
    ensures utf8 { IfOk result (λ a. HasUtf8 (columns_of (stored.Account a))) }
    ensures bad { IfErr result (λ e. e ≡ OpenFault.BadRow → ¬ AreOf (kinds_of named.Account) row.now 0) }
{
    Ok(StoredAccount {
        id: fields::whole(alloc, row, 0)?,
        auth: fields::text(alloc, row, 1)?,
        name: fields::text(alloc, row, 2)?,
    })
}

pub(crate) fn app(alloc: Global, row: &Row) -> Result<StoredApp, OpenFault>
    ensures read { IfOk result (λ a. columns_of (stored.App a) ≡ columns_in row.now 3) }
    ensures utf8 { IfOk result (λ a. HasUtf8 (columns_of (stored.App a))) }
    ensures bad { IfErr result (λ e. e ≡ OpenFault.BadRow → ¬ AreOf (kinds_of named.App) row.now 0) }
{
    Ok(StoredApp {
        id: fields::whole(alloc, row, 0)?,
        agreement: fields::optional_whole(alloc, row, 2)?,
        name: fields::text(alloc, row, 1)?,
    })
}

fn version(alloc: Global, row: &Row) -> Result<StoredVersion, OpenFault>
    ensures read { IfOk result (λ v. columns_of (stored.Version v) ≡ columns_in row.now 4) }
    ensures utf8 { IfOk result (λ v. HasUtf8 (columns_of (stored.Version v))) }
    ensures bad { IfErr result (λ e. e ≡ OpenFault.BadRow → ¬ AreOf (kinds_of named.Version) row.now 0) }
{
    Ok(StoredVersion {
        id: fields::whole(alloc, row, 0)?,
        app_id: fields::whole(alloc, row, 1)?,
        num: fields::whole(alloc, row, 3)?,
        platform: fields::text(alloc, row, 2)?,
    })
}

pub(crate) fn unit(alloc: Global, row: &Row) -> Result<StoredUnit, OpenFault>
    ensures read { IfOk result (λ u. columns_of (stored.Unit u) ≡ columns_in row.now 14) }
    ensures utf8 { IfOk result (λ u. HasUtf8 (columns_of (stored.Unit u))) }
    ensures bad { IfErr result (λ e. e ≡ OpenFault.BadRow → ¬ AreOf (kinds_of named.Unit) row.now 0) }
{
    Ok(StoredUnit {
        id: fields::whole(alloc, row, 0)?,
        app_id: fields::whole(alloc, row, 2)?,
        min_quorum: fields::whole(alloc, row, 3)?,
        target_nresults: fields::whole(alloc, row, 4)?,
        max_error_results: fields::whole(alloc, row, 5)?,
        max_total_results: fields::whole(alloc, row, 6)?,
        max_success_results: fields::whole(alloc, row, 7)?,
        delay_bound: fields::whole(alloc, row, 8)?,
        rsc_fpops_est: fields::int(alloc, row, 9)?,
        rsc_memory_bound: fields::int(alloc, row, 10)?,
        rsc_disk_bound: fields::int(alloc, row, 11)?,
        credit: fields::whole(alloc, row, 12)?,
        status: fields::whole(alloc, row, 13)?,
        name: fields::text(alloc, row, 1)?,
    })
}

pub(crate) fn host(alloc: Global, row: &Row) -> Result<StoredHost, OpenFault>
    ensures read { IfOk result (λ h. columns_of (stored.Host h) ≡ columns_in row.now 10) }
    ensures utf8 { IfOk result (λ h. HasUtf8 (columns_of (stored.Host h))) }
    ensures bad { IfErr result (λ e. e ≡ OpenFault.BadRow → ¬ AreOf (kinds_of named.Host) row.now 0) }
{
    Ok(StoredHost {
        id: fields::whole(alloc, row, 0)?,
        account_id: fields::whole(alloc, row, 1)?,
        fpops: fields::int(alloc, row, 4)?,
        memory: fields::int(alloc, row, 5)?,
        disk: fields::int(alloc, row, 6)?,
        quota: fields::whole(alloc, row, 7)?,
        held: fields::whole(alloc, row, 8)?,
        credit: fields::int(alloc, row, 9)?,
        cpid: fields::text(alloc, row, 2)?,
        platforms: fields::text(alloc, row, 3)?,
    })
}

pub(crate) fn instance(alloc: Global, row: &Row) -> Result<StoredInstance, OpenFault>
    ensures read { IfOk result (λ i. columns_of (stored.Instance i) ≡ columns_in row.now 10) }
    ensures utf8 { IfOk result (λ i. HasUtf8 (columns_of (stored.Instance i))) }
    ensures bad { IfErr result (λ e. e ≡ OpenFault.BadRow → ¬ AreOf (kinds_of named.Instance) row.now 0) }
{
    Ok(StoredInstance {
        unit_id: fields::whole(alloc, row, 0)?,
        num: fields::whole(alloc, row, 1)?,
        host_id: fields::optional_whole(alloc, row, 2)?,
        sent: fields::optional_int(alloc, row, 3)?,
        deadline: fields::optional_int(alloc, row, 4)?,
        lapse: fields::whole(alloc, row, 5)?,
        outcome: fields::optional_whole(alloc, row, 6)?,
        place: fields::optional_whole(alloc, row, 8)?,
        queued: fields::flag(alloc, row, 9)?,
        output: fields::optional_text(alloc, row, 7)?,
    })
}

pub(crate) fn call(alloc: Global, row: &Row) -> Result<StoredCall, OpenFault>
    ensures read { IfOk result (λ k. columns_of (stored.Kept k) ≡ columns_in row.now 5) }
    ensures utf8 { IfOk result (λ k. HasUtf8 (columns_of (stored.Kept k))) }
    ensures bad { IfErr result (λ e. e ≡ OpenFault.BadRow → ¬ AreOf (kinds_of named.Kept) row.now 0) }
{
    Ok(StoredCall {
        host_id: fields::whole(alloc, row, 0)?,
        slot: fields::whole(alloc, row, 1)?,
        seqno: fields::whole(alloc, row, 2)?,
        text: fields::text(alloc, row, 3)?,
        reply: fields::text(alloc, row, 4)?,
    })
}

pub(crate) fn batch(alloc: Global, row: &Row) -> Result<StoredBatch, OpenFault>
    ensures read { IfOk result (λ b. columns_of (stored.Batch b) ≡ columns_in row.now 4) }
    ensures utf8 { IfOk result (λ b. HasUtf8 (columns_of (stored.Batch b))) }
    ensures bad { IfErr result (λ e. e ≡ OpenFault.BadRow → ¬ AreOf (kinds_of named.Batch) row.now 0) }
{
    Ok(StoredBatch {
        kind: fields::text(alloc, row, 0)?,
        name: fields::text(alloc, row, 1)?,
        text: fields::octets(alloc, row, 2)?,
        answer: fields::text(alloc, row, 3)?,
    })
}

pub(crate) fn version_class(alloc: Global, row: &Row) -> Result<StoredVersionClass, OpenFault>
    ensures read { IfOk result (λ c. columns_of (stored.VersionClass c) ≡ columns_in row.now 2) }
    ensures utf8 { IfOk result (λ c. HasUtf8 (columns_of (stored.VersionClass c))) }
    ensures bad { IfErr result (λ e. e ≡ OpenFault.BadRow → ¬ AreOf (kinds_of named.VersionClass) row.now 0) }
{
    Ok(StoredVersionClass {
        version_id: fields::whole(alloc, row, 0)?,
        class: fields::text(alloc, row, 1)?,
    })
}

pub(crate) fn unit_mark(alloc: Global, row: &Row) -> Result<StoredUnitMark, OpenFault>
    ensures read { IfOk result (λ m. columns_of (stored.UnitMark m) ≡ columns_in row.now 3) }
    ensures utf8 { IfOk result (λ m. HasUtf8 (columns_of (stored.UnitMark m))) }
    ensures bad { IfErr result (λ e. e ≡ OpenFault.BadRow → ¬ AreOf (kinds_of named.UnitMark) row.now 0) }
{
    Ok(StoredUnitMark {
        unit_id: fields::whole(alloc, row, 0)?,
        marked: fields::flag(alloc, row, 1)?,
        class: fields::optional_text(alloc, row, 2)?,
    })
}

/// Reads the row of a table into its struct. `BadRow` if it does not have the format of the table.
pub(crate) fn stored_row(alloc: Global, table: TableName, row: &Row) -> Result<StoredRow, OpenFault>
    ensures exact { IfOk result (λ stored. columns_of stored ≡ row.now) }
    ensures of_table { IfOk result (λ stored. table_of stored ≡ table) }
    ensures utf8 { IfOk result (λ stored. HasUtf8 (columns_of stored)) }
    ensures bad { IfErr result (λ e. e ≡ OpenFault.BadRow → ¬ IsStored table row.now) }
{
    if row.column_count() != width(table) {
        return Err(OpenFault::BadRow);
    }
    Ok(match table {
        TableName::Setting => StoredRow::Setting(setting(alloc, row)?),
        TableName::Account => StoredRow::Account(account(alloc, row)?),
        TableName::App => StoredRow::App(app(alloc, row)?),
        TableName::Version => StoredRow::Version(version(alloc, row)?),
        TableName::Unit => StoredRow::Unit(unit(alloc, row)?),
        TableName::Host => StoredRow::Host(host(alloc, row)?),
        TableName::Instance => StoredRow::Instance(instance(alloc, row)?),
        TableName::Kept => StoredRow::Kept(call(alloc, row)?),
        TableName::Batch => StoredRow::Batch(batch(alloc, row)?),
        TableName::VersionClass => StoredRow::VersionClass(version_class(alloc, row)?),
        TableName::UnitMark => StoredRow::UnitMark(unit_mark(alloc, row)?),
    })
}

/// The values of a version's columns, in order.
fn version_values(alloc: Global, row: &StoredVersion) -> Result<Vec<ValueRef<'_>>, AllocError>
    ensures values { IfOk result (λ values. map owned values.items ≡ columns_of (stored.Version row.now)) }
    ensures utf8 { IfOk result (λ values. HasUtf8 (columns_of (stored.Version row.now))) }
{
    Ok(vec![in alloc;
        values::whole(row.id),
        values::whole(row.app_id),
        values::text(&row.platform),
        values::whole(row.num),
    ]?)
}

/// The values of a workunit's columns, in order.
fn unit_values(alloc: Global, row: &StoredUnit) -> Result<Vec<ValueRef<'_>>, AllocError>
    ensures values { IfOk result (λ values. map owned values.items ≡ columns_of (stored.Unit row.now)) }
    ensures utf8 { IfOk result (λ values. HasUtf8 (columns_of (stored.Unit row.now))) }
{
    Ok(vec![in alloc;
        values::whole(row.id),
        values::text(&row.name),
        values::whole(row.app_id),
        values::whole(row.min_quorum),
        values::whole(row.target_nresults),
        values::whole(row.max_error_results),
        values::whole(row.max_total_results),
        values::whole(row.max_success_results),
        values::whole(row.delay_bound),
        ValueRef::Int(row.rsc_fpops_est),
        ValueRef::Int(row.rsc_memory_bound),
        ValueRef::Int(row.rsc_disk_bound),
        values::whole(row.credit),
        values::whole(row.status),
    ]?)
}

/// The values of a host's columns, in order.
fn host_values(alloc: Global, row: &StoredHost) -> Result<Vec<ValueRef<'_>>, AllocError>
    ensures values { IfOk result (λ values. map owned values.items ≡ columns_of (stored.Host row.now)) }
    ensures utf8 { IfOk result (λ values. HasUtf8 (columns_of (stored.Host row.now))) }
{
    Ok(vec![in alloc;
        values::whole(row.id),
        values::whole(row.account_id),
        values::text(&row.cpid),
        values::text(&row.platforms),
        ValueRef::Int(row.fpops),
        ValueRef::Int(row.memory),
        ValueRef::Int(row.disk),
        values::whole(row.quota),
        values::whole(row.held),
        ValueRef::Int(row.credit),
    ]?)
}

/// The values of an instance's columns, in order.
fn instance_values(alloc: Global, row: &StoredInstance) -> Result<Vec<ValueRef<'_>>, AllocError>
    ensures values { IfOk result (λ values. map owned values.items ≡ columns_of (stored.Instance row.now)) }
    ensures utf8 { IfOk result (λ values. HasUtf8 (columns_of (stored.Instance row.now))) }
{
    Ok(vec![in alloc;
        values::whole(row.unit_id),
        values::whole(row.num),
        values::optional_whole(row.host_id),
        values::optional_int(row.sent),
        values::optional_int(row.deadline),
        values::whole(row.lapse),
        values::optional_whole(row.outcome),
        values::optional_text(&row.output),
        values::optional_whole(row.place),
        values::whole(u32::from(row.queued)),
    ]?)
}

/// The values of a kept call's columns, in order.
fn call_values(alloc: Global, row: &StoredCall) -> Result<Vec<ValueRef<'_>>, AllocError>
    ensures values { IfOk result (λ values. map owned values.items ≡ columns_of (stored.Kept row.now)) }
    ensures utf8 { IfOk result (λ values. HasUtf8 (columns_of (stored.Kept row.now))) }
{
    Ok(vec![in alloc;
        values::whole(row.host_id),
        values::whole(row.slot),
        values::whole(row.seqno),
        values::text(&row.text),
        values::text(&row.reply),
    ]?)
}

/// The values of a kept batch's columns, in order.
fn batch_values(alloc: Global, row: &StoredBatch) -> Result<Vec<ValueRef<'_>>, AllocError>
    ensures values { IfOk result (λ values. map owned values.items ≡ columns_of (stored.Batch row.now)) }
    ensures utf8 { IfOk result (λ values. HasUtf8 (columns_of (stored.Batch row.now))) }
{
    Ok(vec![in alloc;
        values::text(&row.kind),
        values::text(&row.name),
        ValueRef::Blob(row.text.as_slice()),
        values::text(&row.answer),
    ]?)
}

/// The values of a row's columns, in order. Its texts are in UTF-8.
pub(crate) fn values_of<'a>(
    alloc: Global,
    row: &'a StoredRow,
) -> Result<Vec<ValueRef<'a>>, AllocError>
    ensures values { IfOk result (λ values. map owned values.items ≡ columns_of row.now) }
    ensures utf8 { IfOk result (λ values. HasUtf8 (columns_of row.now)) }
{
    match row {
        StoredRow::Setting(row) => Ok(vec![in alloc;
            values::text(&row.name),
            values::setting_value(&row.value),
        ]?),
        StoredRow::Account(row) => Ok(vec![in alloc;
            values::whole(row.id),
            values::text(&row.auth),
            values::text(&row.name),
        ]?),
        StoredRow::App(row) => {
            Ok(vec![in alloc;
                values::whole(row.id),
                values::text(&row.name),
                values::optional_whole(row.agreement),
            ]?)
        }
        StoredRow::Version(row) => version_values(alloc, row),
        StoredRow::Unit(row) => unit_values(alloc, row),
        StoredRow::Host(row) => host_values(alloc, row),
        StoredRow::Instance(row) => instance_values(alloc, row),
        StoredRow::Kept(row) => call_values(alloc, row),
        StoredRow::Batch(row) => batch_values(alloc, row),
        StoredRow::VersionClass(row) => Ok(vec![in alloc;
            values::whole(row.version_id),
            values::text(&row.class),
        ]?),
        StoredRow::UnitMark(row) => Ok(vec![in alloc;
            values::whole(row.unit_id),
            values::whole(u32::from(row.marked)),
            values::optional_text(&row.class),
        ]?),
    }
}
