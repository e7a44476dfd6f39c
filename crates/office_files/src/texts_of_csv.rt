//! The records of a text of comma-separated values (RFC 4180), read by `csv`.

ghost use Rattle.std.specs.Prelude.{IfOk, map};
ghost use Rattle.csv.specs.Records.{fields_of};
ghost use Rattle.office_files.specs.Records.{AreRecordsOf};

use csv::{ByteRecord, ReaderBuilder};
use std::alloc::{AllocError, Global};
use texts::Memory;

/// The records of a text of comma-separated values, with any number of fields each.
///
/// `csv` can return several errors. A fault of its reader can't occur, since a slice never fails, though no contract
/// says so. Records of bytes may have any length, so the only other error is a lack of memory. Each error is returned
/// as that.
pub(crate) fn records_of(alloc: Global, text: &[u8]) -> Result<Vec<ByteRecord>, Memory>
    ensures { IfOk result (λ records. AreRecordsOf text.now (map fields_of records.items)) }
{
    let reader = ReaderBuilder::new()
        .has_headers(false)
        .flexible(true)
        .from_reader(alloc, text);
    let mut records = Vec::new(alloc);
    for read in reader.into_byte_records() {
        let Ok(record) = read else {
            return Err(AllocError);
        };
        records.push(record)?;
    }
    Ok(records)
}
