//! How many rows an import has.

ghost use Rattle.std.specs.Prelude.{◌≡◌, IfOk, ◌<◌, true, is_ok};
ghost use Rattle.sched_book.specs.Imports.{row_count};

use sched_book::{Cause, Invariant, Rows, Unavailable};

/// How many rows there are. Refused if the count exceeds 32 bits.
pub(crate) fn row_count(rows: &Rows) -> Result<u32, Unavailable>
    ensures value { IfOk result (λ count. count ≡ row_count rows.now) }
    ensures counted { row_count rows.now < 4294967296 → is_ok result ≡ true }
{
    let count = match rows {
        Rows::Accounts(accounts) => accounts.len(),
        Rows::Apps(apps) => apps.len(),
        Rows::Versions(versions) => versions.len(),
        Rows::Workunits(workunits) => workunits.len(),
    };
    match u32::try_from(count) {
        Ok(count) => Ok(count),
        Err(_) => Err(Unavailable(Cause::Spoiled(Invariant::RowsOfImport))),
    }
}
