//! Applications by their names.

ghost use Rattle.std.specs.Prelude.{◌≡◌, IsTrue, IfOk};
ghost use Rattle.sched_book.specs.Imports.{has_app};
ghost use Rattle.sched_book.specs.Places.{agreement_by};
ghost use Rattle.sched_book.specs.Trusted.{Trusted};
ghost use Rattle.table_meaning.specs.Worlds.{app_place};

use sched_book::{Agreement, Cause, Desk, Invariant, Unavailable};
use std::alloc::Global;

/// What rows and statuses need of an application: its place, and how it compares outputs.
#[derive(Clone, Copy)]
pub(crate) struct KnownApp {
    pub place: u32,
    pub agreement: Agreement,
}

/// The application of this name. `Unavailable` if it does not exist.
pub(crate) fn known_app<D: Desk>(
    alloc: Global,
    desk: &mut D,
    name: &str,
) -> Result<KnownApp, Unavailable>
    ensures reads { D.reads desk.old desk.new }
    ensures place { Trusted D.Units desk.old desk.new (IfOk result (λ app. app.place ≡ app_place (D.world desk.old) name.now)) }
    ensures agreement { Trusted D.Units desk.old desk.new (IfOk result (λ app. app.agreement ≡ agreement_by (D.world desk.old).apps name.now)) }
    ensures stands { Trusted D.Units desk.old desk.new (IfOk result (λ app. IsTrue (has_app (D.world desk.old).apps name.now))) }
{
    match desk.app_by_name(alloc, name)? {
        None => Err(Unavailable(Cause::Broken(Invariant::AppOfRow))),
        Some(app) => Ok(KnownApp {
            place: app.place,
            agreement: app.row.agreement,
        }),
    }
}
