//! The statement of a host: what became of each instance that it was ever given, as comma-separated values.
//!
//! The rows are those that `csv` writes, each ended by a line feed. Under the header there is a row for each instance
//! that the host owns, in the order of their places. The last row is `total`; its other columns are empty, except the
//! last.
//!
//! | Column | What it holds |
//! |---|---|
//! | `result` | the instance's name |
//! | `app` | the application of its workunit |
//! | `sent`, `deadline` | `YYYY-MM-DD HH:MM:SS`, in UTC |
//! | `server_state` | 5 if the instance is over, by a report or a lapse, and else 4 |
//! | `outcome` | 1 for a success, 3 for a client error; without a report 4 for a lapse, and else 0 |
//! | `validate_state` | 1 for a valid result, 2 for an invalid one, 3 for a report that was not judged, and else 0 |
//! | `credit` | the workunit's for a valid result, and else none, in credits of three places; in the last row the sum |

ghost use Rattle.std.specs.Prelude.{◌≡◌, IfOk};
ghost use Rattle.sched_book.specs.Trusted.{Trusted};
ghost use Rattle.office_files.specs.Statements as spec;

mod civil;
pub mod line;
mod lines;
mod rows;
mod states;

pub use line::StatementLine;
use lines::lines_at;
use rows::text_of_lines;
use sched_book::{Desk, Place, Unavailable};
use std::alloc::Global;
use texts::Text;

/// The text of a statement of the instances at these places.
fn text_at<D: Desk>(alloc: Global, desk: &mut D, places: &[Place]) -> Result<Text, Unavailable>
    ensures reads { D.reads desk.old desk.new }
    ensures answer { Trusted D.Units desk.old desk.new (
        IfOk result (λ text. text ≡ spec.text_of_lines (spec.lines_at (D.world desk.old) places.now))) }
{
    let lines = lines_at(alloc, desk, places)?;
    text_of_lines(alloc, lines.as_slice())
}

/// Returns the statement of the host of this number, or `None` if there is no such host.
///
/// It is unavailable if there is no memory, or if a deadline is too late for a year of four digits. In a sound world
/// none is.
pub fn host_statement<D: Desk>(
    alloc: Global,
    desk: &mut D,
    host: u32,
) -> Result<Option<Text>, Unavailable>
    ensures reads { D.reads desk.old desk.new }
    ensures answer { Trusted D.Units desk.old desk.new (
        IfOk result (λ text. text ≡ spec.statement_of (D.world desk.old) host)) }
{
    if desk.host_by_id(alloc, host)?.is_none() {
        return Ok(None);
    }
    let places = desk.owned_by(alloc, host)?;
    Ok(Some(text_at(alloc, desk, places.as_slice())?))
}
