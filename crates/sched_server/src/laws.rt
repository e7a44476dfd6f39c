//! Laws of the definitions. Each function does nothing; its contract is the law.

ghost use Rattle.past_laws.specs.Laws.{SettingsStay};
ghost use Rattle.sched_machine.specs.Bounds.{IsCreditBounded};
ghost use Rattle.sched_machine.specs.Classes.{ClassesStay};
ghost use Rattle.sched_machine.specs.Decisions.{UnitsStay, CanonicalsStay, VerdictsStay, StatusesStay, CreditsStay, CreditsAddUp};
ghost use Rattle.sched_machine.specs.Runs.{OwnersStay, ReportsStay, LapsesStay, OneForEachUser};
ghost use Rattle.sched_server.specs.Classes.{OwnersAreOfClassesAtAMessage, OwnersAreOfClassesOverMessages, OwnersWereGiven};
ghost use Rattle.sched_server.specs.FirstCalls.{FirstCallsAreSteps};
ghost use Rattle.sched_server.specs.Laws.{NewStoresStand, HandledStands, ServedStands, ReadsStand, WhatIsLeftStands, StopsAreHandled, ReopenedStands, UpgradedStands, FormerWorldsAreUnclassed, StoresAreDetermined, HoldsOfWhatStands, Lasts, HoldsOverStops, AllStay, DeadlinesMoveByResendsAlone, DeadlinesMoveByResendsOverMessages, NoHeldJobDropsFromSight};

use crate::service::Service;
use http_messages::laws::a_message_has_one_meaning;
use http_serving::Handler;
use stores::Store;

/// A new store, which has heard nothing, agrees with no arrivals. The key is the operator's key of its settings.
pub fn new_stores_stand<S: Store>()
    ensures { NewStoresStand S.Store }
{}

/// A store that handles a message still agrees with all arrivals.
pub fn handled_stands<S: Store>()
    ensures { HandledStands S.Store }
{}

/// A service that [`http_serving::serve_one`] served, over a reader and a writer, handled one message. Its bytes are
/// those that were read. Its answer has the text that was written. If the writer failed, it has the text of which a
/// front was written. If there was no memory for the whole message, it is unavailable.
pub fn served_stands<S: Store>()
    ensures { ServedStands S.Store ⟦<Service<S> as Handler>⟧ }
{}

/// A store that was only read agrees with what it agreed with, even if a fault has shut it. So does what a stop may
/// leave of it.
pub fn reads_stand<S: Store>()
    ensures { ReadsStand S.Store }
{}

/// With no open transaction, what a stop leaves of a store agrees with all arrivals, as the store does: every answered
/// message is in it.
pub fn what_is_left_stands<S: Store>()
    ensures { WhatIsLeftStands S.Store }
{}

/// What a stop leaves of an open store that acts on a message is what that message leaves, with some answer. So the
/// laws over messages below also hold up to what a stop leaves.
pub fn stops_are_handled<S: Store>()
    ensures { StopsAreHandled S.Store }
{}

/// A store that is opened again, and holds what a stop left, agrees with what that agreed with.
pub fn reopened_stands<S: Store>()
    ensures { ReopenedStands S.Store }
{}

/// If an upgrade of the tables leaves what they hold as it was, that agrees in the next era with all that it agreed
/// with.
pub fn upgraded_stands()
    ensures { UpgradedStands }
{}

/// What agrees with arrivals from before versions had classes is unclassed: the class of each version is its platform,
/// and no workunit is marked. So an upgrade of its tables can add these, and leave it as it was.
pub fn former_worlds_are_unclassed()
    ensures { FormerWorldsAreUnclassed }
{}

/// The answered arrivals, the upgrade points and the settings determine what a store holds, and the responses. So one
/// list of messages has one world.
pub fn stores_are_determined()
    ensures { StoresAreDetermined }
{
    a_message_has_one_meaning();
}

/// No message changes the settings.
pub fn settings_stay()
    ensures { Lasts SettingsStay }
{}

/// For any messages, an instance that was given to a host stays that host's, with its moment of sending.
pub fn owners_stay()
    ensures { Lasts OwnersStay }
{}

/// A deadline moves only if a call of the instance's host has the instance sent again.
pub fn deadlines_move_by_resends_alone()
    ensures { DeadlinesMoveByResendsAlone }
{}

/// The same over many messages: a deadline stays, or some call of the instance's host among them has the instance sent
/// again.
pub fn deadlines_move_by_resends_over_messages()
    ensures { DeadlinesMoveByResendsOverMessages }
{}

/// What was reported of an instance stays.
pub fn reports_stay()
    ensures { Lasts ReportsStay }
{}

/// An instance that lapsed keeps its lapse.
pub fn lapses_stay()
    ensures { Lasts LapsesStay }
{}

/// A workunit that exists still exists.
pub fn units_stay()
    ensures { Lasts UnitsStay }
{}

/// A canonical result stays the canonical one.
pub fn canonicals_stay()
    ensures { Lasts CanonicalsStay }
{}

/// So does each verdict.
pub fn verdicts_stay()
    ensures { Lasts VerdictsStay }
{}

/// What is done stays done, and what failed stays failed, for the same reason.
pub fn statuses_stay()
    ensures { Lasts StatusesStay }
{}

/// The credit of no host and no user falls.
pub fn credits_never_fall()
    ensures { Lasts CreditsStay }
{}

/// Everything that stays over messages stays over any number of stops between them. Each stop may come at any moment of
/// the last message before it.
pub fn all_stays_over_stops()
    ensures { HoldsOverStops AllStay }
{}

/// The hosts together, and the users together, have the credit of all valid results, each once.
pub fn credits_add_up()
    ensures { HoldsOfWhatStands CreditsAddUp }
{}

/// All credit together is at most 2 x 10^15 millicredits. So is that of each host and each user.
pub fn credit_is_bounded()
    ensures { HoldsOfWhatStands IsCreditBounded }
{}

/// No workunit has two instances that were given to hosts of one user.
pub fn one_for_each_user()
    ensures { HoldsOfWhatStands OneForEachUser }
{}

/// Suppose that a first-heard call lists what its client has, and that lost jobs are sent again. Then its host holds
/// just what it held, lists and did not report, and what the reply names.
pub fn no_held_job_drops_from_sight()
    ensures { NoHeldJobDropsFromSight }
{}

/// A first-heard call of a host is a step of the machine. Its reply has one job for each instance that the call sends
/// again or grants, in order, and the host then holds each of them. A grant alone changes the class of a workunit.
pub fn first_calls_are_steps()
    ensures { FirstCallsAreSteps }
{}

/// A workunit that keeps to a class keeps to it for ever. One that is not marked is never marked.
pub fn classes_stay()
    ensures { Lasts ClassesStay }
{}

/// If a host owns an instance after a message, it owned it before, or the message is its call. That call gives it the
/// instance with a version of the class that the workunit then keeps to, if the workunit is marked.
pub fn owners_are_of_classes_at_a_message()
    ensures { OwnersAreOfClassesAtAMessage }
{}

/// The same over many messages: some call among them gave it, with a version of the class that the workunit keeps to at
/// their end.
pub fn owners_are_of_classes_over_messages()
    ensures { OwnersAreOfClassesOverMessages }
{}

/// Each owner in the stored world got its instance by a call of its host, in the run that the store agrees with. The
/// version was of the class that the workunit keeps to.
pub fn owners_were_given()
    ensures { OwnersWereGiven }
{}
