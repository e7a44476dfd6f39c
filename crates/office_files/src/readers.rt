//! The readers of the four imports.

ghost use Rattle.std.specs.Prelude.{◌+◌, All, IfOk, IfErr, Ok, Err, map};
ghost use Rattle.csv.specs.Records.{fields_of};
ghost use Rattle.sched_book.specs.Limits.{AreRowsInLimits};
ghost use Rattle.office_files.specs.Faults.{GivesReading};
ghost use Rattle.office_files.specs.Importing.{row_of, rows_from, rows_of_records, accounts_in, apps_in, versions_in, workunits_in, Says, Refuses};

use crate::data_row::DataRow;
use crate::fault::RowsFault;
use crate::kinds::ImportRow;
use crate::texts_of_csv::records_of;
use csv::ByteRecord;
use sched_book::{Account, App, Rows, Version, Workunit};
use std::alloc::Global;
use texts::Listed;

/// Reads a data row, which has as many fields as its header.
#[tactic(auto, unfolding(crate::specs::Importing::row_of))]
fn read_row<R: ImportRow>(alloc: Global, field_count: usize, row: &DataRow) -> Result<R, RowsFault>
    ensures said { GivesReading result (row_of R.reads field_count row.now.number (fields_of row.now.record.now)) }
    ensures limits { IfOk result R.is_in_limits }
{
    if row.record.len() != field_count {
        return Err(RowsFault::BadCsv {
            row: row.number,
            column: 0,
        });
    }
    R::read(alloc, row)
}

/// Reads the data rows under a header with this number of fields.
#[tactic(auto, unfolding(crate::specs::Importing::rows_from, texts::specs::Reading::and_then))]
fn read_data<R: ImportRow>(
    alloc: Global,
    field_count: usize,
    records: &[ByteRecord],
) -> Result<Listed<R>, RowsFault>
    ensures said { GivesReading result (rows_from (row_of R.reads field_count) 1 (map fields_of records.now)) }
    ensures limits { IfOk result (All R.is_in_limits) }
{
    let mut rows = Listed::new(alloc);
    for (index, record) in records.iter().enumerate() {
        let number = index as u64 + 1;
        rows.push(read_row(alloc, field_count, &DataRow { number, record })?)?;
    }
    Ok(rows)
}

/// Reads the records of an import.
fn read_records<R: ImportRow>(alloc: Global, records: &[ByteRecord]) -> Result<Listed<R>, RowsFault>
    ensures said { GivesReading result (rows_of_records R.reads R.header (map fields_of records.now)) }
    ensures limits { IfOk result (All R.is_in_limits) }
{
    let [header, records @ ..] = records else {
        return Err(RowsFault::BadCsv { row: 0, column: 0 });
    };
    match R::header_fault(header) {
        Some(column) => Err(RowsFault::BadCsv { row: 0, column }),
        None => read_data(alloc, header.len(), records),
    }
}

/// Reads the text of an import.
fn read_text<R: ImportRow>(alloc: Global, text: &[u8]) -> Result<Listed<R>, RowsFault>
    ensures ok { IfOk result (λ rows. Says (rows_of_records R.reads R.header) text.now (Ok rows)) }
    ensures err { IfErr result (Refuses (rows_of_records R.reads R.header) text.now) }
    ensures limits { IfOk result (All R.is_in_limits) }
{
    let records = records_of(alloc, text)?;
    read_records(alloc, records.as_slice())
}

/// Reads an import of accounts, under the header `authenticator,name`.
///
/// [`RowsFault::BadCsv`] names the first faulty row, and in it the first faulty column. [`RowsFault::Unavailable`]
/// means that there is no memory.
#[tactic(auto, unfolding(crate::specs::Importing::accounts_in, texts::specs::Reading::and_then))]
pub fn read_accounts(alloc: Global, text: &[u8]) -> Result<Rows, RowsFault>
    ensures ok { IfOk result (λ rows. Says accounts_in text.now (Ok rows)) }
    ensures err { IfErr result (Refuses accounts_in text.now) }
    ensures limits { IfOk result AreRowsInLimits }
{
    Ok(Rows::Accounts(read_text(alloc, text)?))
}

/// Reads an import of applications, under the header `name,agreement`. The faults are those of [`read_accounts`].
#[tactic(auto, unfolding(crate::specs::Importing::apps_in, texts::specs::Reading::and_then))]
pub fn read_apps(alloc: Global, text: &[u8]) -> Result<Rows, RowsFault>
    ensures ok { IfOk result (λ rows. Says apps_in text.now (Ok rows)) }
    ensures err { IfErr result (Refuses apps_in text.now) }
    ensures limits { IfOk result AreRowsInLimits }
{
    Ok(Rows::Apps(read_text(alloc, text)?))
}

/// Reads an import of versions, under the header `app,platform,version_num` or
/// `app,platform,version_num,version_class`. Under the shorter one the class of a version is its platform's word. The
/// faults are those of [`read_accounts`].
#[tactic(auto, unfolding(crate::specs::Importing::versions_under, texts::specs::Reading::and_then))]
pub fn read_versions(alloc: Global, text: &[u8]) -> Result<Rows, RowsFault>
    ensures ok { IfOk result (λ rows. Says versions_in text.now (Ok rows)) }
    ensures err { IfErr result (Refuses versions_in text.now) }
    ensures limits { IfOk result AreRowsInLimits }
{
    Ok(Rows::Versions(read_text(alloc, text)?))
}

/// Reads an import of workunits. The header has twelve columns, which have BOINC's names, or these and `marked`. Under
/// the shorter one no workunit is marked. The faults are those of [`read_accounts`].
#[tactic(auto, unfolding(crate::specs::Importing::workunits_under, texts::specs::Reading::and_then))]
pub fn read_workunits(alloc: Global, text: &[u8]) -> Result<Rows, RowsFault>
    ensures ok { IfOk result (λ rows. Says workunits_in text.now (Ok rows)) }
    ensures err { IfErr result (Refuses workunits_in text.now) }
    ensures limits { IfOk result AreRowsInLimits }
{
    Ok(Rows::Workunits(read_text(alloc, text)?))
}
