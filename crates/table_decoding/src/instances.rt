//! The instances of a workunit, from their rows.

ghost use Rattle.std.specs.Prelude.{◌≡◌, ◌≤◌, ◌==◌, ◌-◌, ℕ, pos, Bool, Option, if◌then◌else◌, option_map, option_and_then, All, Ok, IfOk, IfSome};
ghost use Rattle.sched_book.specs.Numbered.{map_from};
ghost use Rattle.sched_book.specs.Limits.{last_moment, IsInstanceInLimits};
ghost use Rattle.sched_book.specs.declared.instance.Instance.{Instance};
ghost use Rattle.sched_book.specs.declared.instance.Lapse.{Lapse};
ghost use Rattle.sched_book.specs.declared.instance.Outcome.{Outcome};
ghost use Rattle.sched_book.specs.declared.instance.Owner.{Owner};
ghost use Rattle.sched_book.specs.declared.instance.UnitBook.{UnitBook};
ghost use Rattle.sched_book.specs.declared.world.World.{World};
ghost use Rattle.sqlite.specs.Values.{or_null};
ghost use Rattle.sqlite_value.specs.declared.value.Value.TheVariants.{Int, Text};
ghost use Rattle.sqlite_value.specs.Order.{bytes};
ghost use Rattle.table_meaning.specs.Codes.{lapse_code, lapse_in};
ghost use Rattle.table_meaning.specs.Kept.{number_of};
ghost use Rattle.table_meaning.specs.Rows.{columns_of};
ghost use Rattle.table_meaning.specs.Worlds.{instance_row};
ghost use Rattle.table_meaning.specs.declared.rows.StoredRow.TheVariants as stored;
ghost use Rattle.table_worlds.specs.ReadBack.{owner_in, report_in, job_in};
ghost use Rattle.table_decoding.specs.Decoding.{Gives};

use crate::fault::RowFault;
use crate::listed_rows::each;
use crate::rows::amount;
use sched_book::{Instance, Lapse, Moment, Outcome, Owner};
use std::alloc::Global;
use table_meaning::codes::lapse_of_code;
use table_meaning::rows::StoredInstance;
use texts::Listed;
use world_soundness::in_limits::is_instance_in_limits;

/// The moment of a number that a table writes.
fn moment(written: i64) -> Result<Moment, RowFault>
    ensures given { (n : ℕ) → n ≤ last_moment → written ≡ pos n → result ≡ Ok n }
    ensures read { IfOk result (λ moment. written ≡ pos moment) }
{
    Moment::new(amount(written)?).ok_or(RowFault::BadRow)
}

/// The host that the instance of a row was sent to, the moment of sending, and the deadline.
fn owner(row: &StoredInstance) -> Result<Option<Owner>, RowFault>
    ensures read { IfOk result (λ o. o ≡ owner_in row.now.host_id (number_of (or_null Int row.now.sent)) (number_of (or_null Int row.now.deadline))) }
    ensures given { (o : Option Owner) → IfSome o (λ (o : Owner). o.sent ≤ last_moment) → row.now.host_id ≡ option_map (λ (o : Owner). o.host) o
        → row.now.sent ≡ option_map (λ (o : Owner). pos o.sent) o → row.now.deadline ≡ option_map (λ (o : Owner). pos o.deadline) o → result ≡ Ok o }
{
    match (row.host_id, row.sent, row.deadline) {
        (None, None, None) => Ok(None),
        (Some(host), Some(sent), Some(deadline)) => Ok(Some(Owner {
            host,
            sent: moment(sent)?,
            deadline: amount(deadline)?,
        })),
        _ => Err(RowFault::BadRow),
    }
}

/// The lapse of a code.
fn lapse(code: u32) -> Result<Option<Lapse>, RowFault>
    ensures given { (l : Option Lapse) → code ≡ lapse_code l → result ≡ Ok l }
    ensures read { IfOk result (λ l. l ≡ lapse_in code) }
{
    lapse_of_code(code).ok_or(RowFault::BadRow)
}

/// Whether an outcome of this code is a success.
fn is_success(code: u32) -> Result<bool, RowFault>
    ensures given { (success : Bool) → code ≡ (if success then 1 else 3) → result ≡ Ok success }
    ensures read { IfOk result (λ success. success ≡ (code == 1)) }
{
    match code {
        1 => Ok(true),
        3 => Ok(false),
        _ => Err(RowFault::BadRow),
    }
}

/// The report of the instance of a row.
fn report(row: &StoredInstance) -> Result<Option<Outcome>, RowFault>
    ensures read { IfOk result (λ o. o ≡ report_in row.now.outcome (bytes (or_null Text row.now.output)) row.now.place) }
    ensures given { (o : Option Outcome) → row.now.outcome ≡ option_map (λ (r : Outcome). if r.success then 1 else 3) o
        → row.now.output ≡ option_map (λ (r : Outcome). r.output) o → row.now.place ≡ option_and_then (λ (r : Outcome). r.place) o → Gives result o }
{
    match (row.outcome, &row.output) {
        (None, None) => Ok(None),
        (Some(code), Some(output)) => Ok(Some(Outcome {
            success: is_success(code)?,
            output: output.clone()?,
            place: row.place,
        })),
        _ => Err(RowFault::BadRow),
    }
}

/// The instance of a row. `BadRow` if a value is out of range.
pub fn instance(row: &StoredInstance) -> Result<Instance, RowFault>
    ensures given { (w : World) (b : UnitBook) (unit number : ℕ) (x : Instance) → IsInstanceInLimits x → row.now ≡ instance_row w b unit number x → Gives result x }
    ensures read { IfOk result (λ x. x ≡ job_in (columns_of (stored.Instance row.now))) }
    ensures limits { IfOk result IsInstanceInLimits }
{
    let instance = Instance {
        owner: owner(row)?,
        lapse: lapse(row.lapse)?,
        report: report(row)?,
    };
    if !is_instance_in_limits(&instance) {
        return Err(RowFault::BadRow);
    }
    Ok(instance)
}

/// The instances of a workunit from their rows, in the order of their numbers.
pub(crate) fn instances(
    alloc: Global,
    rows: &[StoredInstance],
) -> Result<Listed<Instance>, RowFault>
    ensures { (w : World) (b : UnitBook) (unit : ℕ) → All IsInstanceInLimits b.instances → rows.now ≡ map_from 1 (λ n x. instance_row w b unit (n - 1) x) b.instances → Gives result b.instances }
{
    each(alloc, rows, instance)
}
