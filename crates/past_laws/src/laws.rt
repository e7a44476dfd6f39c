//! Laws of tables. Each function does nothing; its contract is the law. In each the settings are within their limits,
//! and the tables before agree with some past.

ghost use Rattle.past_laws.specs.Classes.{OwnersAreOfClassesAtAMessage, OwnersAreOfClassesOverMessages, OwnersWereGiven};
ghost use Rattle.past_laws.specs.Laws.{StandsIsSound, TablesAreDetermined, HoldsOfMessages, HoldsWhereTablesStand, SettingsStay, DeadlinesMoveByResendsAlone, DeadlinesMoveByResendsOverMessages, NoHeldJobDropsFromSight};
ghost use Rattle.sched_machine.specs.Classes.{ClassesStay};
ghost use Rattle.sched_machine.specs.Decisions.{UnitsStay, CanonicalsStay, VerdictsStay, StatusesStay, CreditsStay, CreditsAddUp};
ghost use Rattle.sched_machine.specs.Runs.{OwnersStay, ReportsStay, LapsesStay, OneForEachUser};

/// Tables that agree with a past are sound.
pub fn what_stands_is_sound()
    ensures { StandsIsSound }
{}

/// The messages and the settings determine what tables hold, and the answers. So no two runs answer the same messages.
pub fn tables_are_determined()
    ensures { TablesAreDetermined }
{}

/// No message changes the settings.
pub fn settings_stay()
    ensures { HoldsOfMessages SettingsStay }
{}

/// For any messages, an instance that was given to a host stays that host's, with its moment of sending.
pub fn owners_stay()
    ensures { HoldsOfMessages OwnersStay }
{}

/// A deadline moves only if a call of the instance's host has the instance sent again.
pub fn deadlines_move_by_resends_alone()
    ensures { DeadlinesMoveByResendsAlone }
{}

/// The same over many messages, and so between any two of them.
pub fn deadlines_move_by_resends_over_messages()
    ensures { DeadlinesMoveByResendsOverMessages }
{}

/// What was reported of an instance stays.
pub fn reports_stay()
    ensures { HoldsOfMessages ReportsStay }
{}

/// An instance that lapsed keeps its lapse.
pub fn lapses_stay()
    ensures { HoldsOfMessages LapsesStay }
{}

/// A workunit that exists still exists.
pub fn units_stay()
    ensures { HoldsOfMessages UnitsStay }
{}

/// A canonical result stays the canonical one.
pub fn canonicals_stay()
    ensures { HoldsOfMessages CanonicalsStay }
{}

/// So does each verdict.
pub fn verdicts_stay()
    ensures { HoldsOfMessages VerdictsStay }
{}

/// What is done stays done, and what failed stays failed, for the same reason.
pub fn statuses_stay()
    ensures { HoldsOfMessages StatusesStay }
{}

/// The credit of no host and no user falls.
pub fn credits_never_fall()
    ensures { HoldsOfMessages CreditsStay }
{}

/// The hosts together, and the users together, have the credit of all valid results.
pub fn credits_add_up()
    ensures { HoldsWhereTablesStand CreditsAddUp }
{}

/// No workunit has two instances that were given to hosts of one user.
pub fn one_for_each_user()
    ensures { HoldsWhereTablesStand OneForEachUser }
{}

/// Suppose that a first-heard call lists what its client has, and that lost jobs are sent again. Then its host holds
/// just what it held, lists and did not report, and what the reply names.
pub fn no_held_job_drops_from_sight()
    ensures { NoHeldJobDropsFromSight }
{}

/// A workunit that keeps to a class keeps to it for ever. One that is not marked is never marked.
pub fn classes_stay()
    ensures { HoldsOfMessages ClassesStay }
{}

/// If a host owns an instance after a message, it owned it before, or the message is its call. That call gives it the
/// instance with a version of the class that the workunit then keeps to, if the workunit is marked.
pub fn owners_are_of_classes_at_a_message()
    ensures { OwnersAreOfClassesAtAMessage }
{}

/// The same over many messages: some call among them gave it, with a version of the class that the workunit keeps to at
/// their end.
pub fn owners_are_of_classes_over_messages()
    ensures { OwnersAreOfClassesOverMessages }
{}

/// If tables agree with a past, each owner got its instance by a call of its host in their run. The version was of the
/// class that the workunit keeps to.
pub fn owners_were_given()
    ensures { OwnersWereGiven }
{}
