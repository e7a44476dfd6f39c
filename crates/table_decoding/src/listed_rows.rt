//! Decodes lists of rows, row by row.

ghost use Rattle.std.specs.Prelude.{◌≡◌, ℕ, List, Some, Result};
ghost use Rattle.std.specs.Fn.{FnReturnsAt};
ghost use Rattle.sched_book.specs.Numbered.{map_from};
ghost use Rattle.sched_book.specs.Places.{nth};
ghost use Rattle.table_decoding.specs.Decoding.{Gives};
ghost use Rattle.table_decoding.specs.declared.fault.RowFault.{RowFault};

use crate::fault::RowFault;
use std::alloc::Global;
use texts::Listed;

/// Decodes each of these rows, in their order.
pub(crate) fn each<R, T: Drop, F: Fn(&R) -> Result<T, RowFault>>(
    alloc: Global,
    rows: &[R],
    told: F,
) -> Result<Listed<T>, RowFault>
    requires { F.IsAlwaysCallable told }
    ensures { (place : ℕ → T → R) (xs : List T) → ((id : ℕ) (x : T) (told_as : Result T RowFault) → nth xs id ≡ Some x → FnReturnsAt F.Fn told (place id x) told_as → Gives told_as x)
        → rows.now ≡ map_from 1 place xs → Gives result xs }
{
    let mut items = Listed::new(alloc);
    for row in rows {
        items.push(told(row)?)?;
    }
    Ok(items)
}
