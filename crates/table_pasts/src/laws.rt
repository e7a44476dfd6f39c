//! Laws of tables and of messages. Each function does nothing; its contract is the law.

ghost use Rattle.table_pasts.specs.Laws.{UpgradedTablesStand};
ghost use Rattle.table_pasts.specs.Stops.{NewDatabasesStand, OpenedTablesStand, StoppedTablesStand, StoppedUpgradesStand};

use sched_server::laws::{former_worlds_are_unclassed, reopened_stands, upgraded_stands};
use sched_tables::Tables;
use sched_tables::laws::upgraded_holds;
use sqlite::Alter;
use stores::Store;

/// Suppose tables of the first or the second schema agreed with a list of messages and their answers. Upgraded and
/// opened, they agree with that list. It then has one more upgrade point for each schema step: the number of answered
/// messages.
pub fn upgraded_tables_stand<S: Alter + Drop>()
    ensures { UpgradedTablesStand S.Store ⟦<Tables<S> as Store>⟧ }
{
    former_worlds_are_unclassed();
    upgraded_stands();
    upgraded_holds::<S>();
    reopened_stands::<Tables<S>>();
}

/// Tables that were opened agree with all that the rows of their database agree with.
pub fn opened_tables_stand<S: Alter + Drop>()
    ensures { OpenedTablesStand S.Store ⟦<Tables<S> as Store>⟧ }
{
    reopened_stands::<Tables<S>>();
}

/// What a stop leaves of tables can be opened again, if the tables could be. What is opened agrees with all that the
/// tables agree with, or with that and one message in doubt.
pub fn stopped_tables_stand<S: Alter + Drop>()
    ensures { StoppedTablesStand S.Store ⟦<Tables<S> as Store>⟧ }
{}

/// What a stop leaves of an upgrade agrees with all that the tables agreed with: the tables as they were, or those of a
/// later schema, with one more upgrade point for each step that was made.
pub fn stopped_upgrades_stand()
    ensures { StoppedUpgradesStand }
{
    former_worlds_are_unclassed();
    upgraded_stands();
}

/// A database of new tables can be opened, and agrees with no messages.
pub fn new_databases_stand()
    ensures { NewDatabasesStand }
{}
