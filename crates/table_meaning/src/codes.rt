//! The numbers that the tables write for a status and for a lapse, and what each number means.

ghost use Rattle.std.specs.Prelude.{◌≡◌, Option, Some, IfSome};
ghost use Rattle.sched_book.specs.declared.instance.Lapse.{Lapse};
ghost use Rattle.table_meaning.specs.Codes.{status_code, status_of_code, lapse_code, lapse_in};

use sched_book::{Lapse, Status};

/// The number of a status.
pub fn status_code(status: Status) -> u32
    ensures { result ≡ status_code status }
{
    match status {
        Status::Open => 0,
        Status::Done => 1,
        Status::FailedErrors => 2,
        Status::FailedSuccess => 3,
        Status::FailedTotal => 4,
    }
}

/// The status of a number, if it has one.
pub fn status_of_code(number: u32) -> Option<Status>
    ensures { result ≡ status_of_code number }
{
    match number {
        0 => Some(Status::Open),
        1 => Some(Status::Done),
        2 => Some(Status::FailedErrors),
        3 => Some(Status::FailedSuccess),
        4 => Some(Status::FailedTotal),
        _ => None,
    }
}

/// The number of a lapse, or of none.
pub fn lapse_code(lapse: Option<Lapse>) -> u32
    ensures { result ≡ lapse_code lapse }
{
    match lapse {
        None => 0,
        Some(Lapse::Late) => 1,
        Some(Lapse::Dropped) => 2,
    }
}

/// What a number says about a lapse. `None` if it is not the number of a lapse or of none.
pub fn lapse_of_code(code: u32) -> Option<Option<Lapse>>
    ensures given { (l : Option Lapse) → code ≡ lapse_code l → result ≡ Some l }
    ensures read { IfSome result (λ l. l ≡ lapse_in code) }
{
    match code {
        0 => Some(None),
        1 => Some(Some(Lapse::Late)),
        2 => Some(Some(Lapse::Dropped)),
        _ => None,
    }
}
