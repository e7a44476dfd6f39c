//! The four kinds of rows that an import may bring.

ghost use Rattle.std.specs.Prelude.{◌≡◌, List, ℕ, Result, IfOk, length, map};
ghost use Rattle.csv.specs.Records.{fields_of};
ghost use Rattle.sched_book.specs.Limits.{IsAccountInLimits, IsAppInLimits, IsVersionInLimits, IsNewUnit};
ghost use Rattle.office_files.specs.Faults.{GivesReading};
ghost use Rattle.office_files.specs.Importing as spec;

use crate::data_row::DataRow;
use crate::fault::RowsFault;
use csv::ByteRecord;
use sched_book::limits::{MOST_AMOUNT, MOST_CREDIT, MOST_DELAY, MOST_INSTANCES, MOST_VERSION_NUM};
use sched_book::{Account, App, Version, Workunit};
use std::alloc::Global;

/// The greatest value of any count of a workunit.
const MOST_IN_UNIT: u32 = MOST_INSTANCES as u32;

/// The columns of workunits. An import may lack the last.
const WORKUNIT_COLUMNS: [&str; 13] = [
    "name",
    "app",
    "min_quorum",
    "target_nresults",
    "max_error_results",
    "max_total_results",
    "max_success_results",
    "delay_bound",
    "rsc_fpops_est",
    "rsc_memory_bound",
    "rsc_disk_bound",
    "credit",
    "marked",
];

/// A kind of rows.
pub(crate) trait ImportRow: Drop {
    ghost use Rattle.office_files.specs.declared.fault.RowsFault.{RowsFault};

    /// The fields of its header, if the first record has this number of them.
    ghost header: { ℕ → List (List ℕ) };

    /// What a data row with this number of fields says.
    ghost reads: { ℕ → List (List ℕ) → Result Self RowsFault };

    /// The ranges of its values.
    ghost is_in_limits: { Self → Type 0 };

    /// The column named for a faulty header: the first whose field is another, or 0 if their number is wrong.
    fn header_fault(fields: &ByteRecord) -> Option<u64>
        ensures { result ≡ spec.header_fault (header (length (fields_of fields.now))) (fields_of fields.now) };

    /// Reads a data row with this number of fields.
    fn read(alloc: Global, row: &DataRow) -> Result<Self, RowsFault>
        ensures said { GivesReading result (reads row.now.number (fields_of row.now.record.now)) }
        ensures limits { IfOk result is_in_limits };
}

fn is_field(fields: &ByteRecord, index: usize, name: &str) -> bool
    ensures { result ≡ spec.is_field (fields_of fields.now) index name.now }
{
    match fields.get(index) {
        None => false,
        Some(field) => field == name.as_bytes(),
    }
}

/// The first column whose field is not the name.
fn first_other(names: &[&str], fields: &ByteRecord) -> Option<u64>
    ensures { result ≡ spec.first_other (fields_of fields.now) 0 (map (λ name. name.now) names.now) }
{
    for (index, name) in names.iter().enumerate() {
        if !is_field(fields, index, name) {
            return Some(index as u64 + 1);
        }
    }
    None
}

fn header_fault(names: &[&str], fields: &ByteRecord) -> Option<u64>
    ensures { result ≡ spec.header_fault (map (λ name. name.now) names.now) (fields_of fields.now) }
{
    if fields.len() == names.len() {
        first_other(names, fields)
    } else {
        Some(0)
    }
}

impl ImportRow for Account {
    ghost header = { spec.account_header };

    ghost reads = { spec.account_of };

    ghost is_in_limits = { IsAccountInLimits };

    fn header_fault(fields: &ByteRecord) -> Option<u64> {
        header_fault(&["authenticator", "name"], fields)
    }

    #[tactic(auto, unfolding(crate::specs::Importing::account_of, texts::specs::Reading::and_then))]
    fn read(alloc: Global, row: &DataRow) -> Result<Account, RowsFault> {
        Ok(Account {
            authenticator: row.word(alloc, 1)?,
            name: row.name(alloc, 2)?,
        })
    }
}

impl ImportRow for App {
    ghost header = { spec.app_header };

    ghost reads = { spec.app_of };

    ghost is_in_limits = { IsAppInLimits };

    fn header_fault(fields: &ByteRecord) -> Option<u64> {
        header_fault(&["name", "agreement"], fields)
    }

    #[tactic(auto, unfolding(crate::specs::Importing::app_of, texts::specs::Reading::and_then))]
    fn read(alloc: Global, row: &DataRow) -> Result<App, RowsFault> {
        Ok(App {
            name: row.word(alloc, 1)?,
            agreement: row.agreement(2)?,
        })
    }
}

impl ImportRow for Version {
    ghost header = { spec.version_header };

    ghost reads = { spec.version_of };

    ghost is_in_limits = { IsVersionInLimits };

    fn header_fault(fields: &ByteRecord) -> Option<u64> {
        if fields.len() == 4 {
            return header_fault(&["app", "platform", "version_num", "version_class"], fields);
        }
        header_fault(&["app", "platform", "version_num"], fields)
    }

    #[tactic(auto, unfolding(crate::specs::Importing::version_of, texts::specs::Reading::and_then))]
    fn read(alloc: Global, row: &DataRow) -> Result<Version, RowsFault> {
        let app = row.word(alloc, 1)?;
        let platform = row.word(alloc, 2)?;
        let version_num = row.small(3, 1, MOST_VERSION_NUM)?;
        let class = row.word_or(alloc, 4, &platform)?;
        Ok(Version {
            app,
            platform,
            version_num,
            class,
        })
    }
}

impl ImportRow for Workunit {
    ghost header = { spec.workunit_header };

    ghost reads = { spec.workunit_of };

    ghost is_in_limits = { IsNewUnit };

    fn header_fault(fields: &ByteRecord) -> Option<u64> {
        let count = if fields.len() == 13 { 13 } else { 12 };
        header_fault(&WORKUNIT_COLUMNS[..count], fields)
    }

    #[tactic(auto, unfolding(crate::specs::Importing::workunit_of, texts::specs::Reading::and_then))]
    fn read(alloc: Global, row: &DataRow) -> Result<Workunit, RowsFault> {
        let name = row.word(alloc, 1)?;
        let app = row.word(alloc, 2)?;
        let min_quorum = row.small(3, 1, MOST_IN_UNIT)?;
        let target_nresults = row.small(4, min_quorum, MOST_IN_UNIT)?;
        let max_error_results = row.small(5, 0, MOST_IN_UNIT)?;
        let max_total_results = row.small(6, target_nresults, MOST_IN_UNIT)?;
        let max_success_results = row.small(7, 0, MOST_IN_UNIT)?;
        let delay_bound = row.small(8, 1, MOST_DELAY)?;
        let rsc_fpops_est = row.number(9, 1, MOST_AMOUNT)?;
        let rsc_memory_bound = row.number(10, 0, MOST_AMOUNT)?;
        let rsc_disk_bound = row.number(11, 0, MOST_AMOUNT)?;
        let credit = row.small(12, 0, MOST_CREDIT)?;
        let class_rule = row.rule(13)?;
        Ok(Workunit {
            name,
            app,
            min_quorum,
            target_nresults,
            max_error_results,
            max_total_results,
            max_success_results,
            delay_bound,
            rsc_fpops_est,
            rsc_memory_bound,
            rsc_disk_bound,
            credit,
            class_rule,
        })
    }
}
