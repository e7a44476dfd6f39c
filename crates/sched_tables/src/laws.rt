//! Laws of tables. Each function does nothing; its contract is the law.

ghost use Rattle.sqlite.specs.Steps.{over_memory};
ghost use Rattle.sched_tables.specs.Held.{NeverFails};
ghost use Rattle.sched_tables.specs.Laws.{HeldCanBeOpened, OpenedAreTaken, ReopenedHolds, UpgradedCanBeOpened, UpgradedHolds};

use sqlite::Alter;

/// Tables in memory have no disk. So they are never shut, and what they say needs no premise.
pub fn memory_never_fails()
    ensures { NeverFails over_memory }
{}

/// Tables that are opened over the rows that a stop left hold what it left.
pub fn reopened_holds<S: Alter, R: Alter>()
    ensures { ReopenedHolds S.Store R.Store }
{}

/// Tables that were upgraded hold what they held before: the world, the imports, and the kept calls of each host.
pub fn upgraded_holds<S: Alter>()
    ensures { UpgradedHolds S.Store }
{}

/// Suppose tables hold a sound world, with calls and imports that may be kept with it, and their texts are in UTF-8.
/// Then they can be opened again. They are those of the newest schema, and say so. Their rows are those of a sound
/// world with what may be kept with it.
pub fn held_can_be_opened()
    ensures { HeldCanBeOpened }
{}

/// Suppose tables of any schema hold a sound world, with calls and imports that may be kept with it, and their texts
/// are in UTF-8. Once they are upgraded, they can be opened.
pub fn upgraded_can_be_opened()
    ensures { UpgradedCanBeOpened }
{}

/// An opening takes tables that can be opened again. Only memory or the disk can make it refuse them.
pub fn opened_are_taken()
    ensures { OpenedAreTaken }
{}
