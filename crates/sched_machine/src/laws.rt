//! Laws of the machine. Each function does nothing; its contract is the law.

ghost use Rattle.sched_machine.specs.Alike.{SettledIsLike};
ghost use Rattle.sched_machine.specs.Classes.{ClassesAreByPlace, ClassesStay, OwnersAreOfClasses, OwnersAreOfClassesInRuns};
ghost use Rattle.sched_machine.specs.Bounds.{CreditIsBounded, ResentSecondsAreBounded};
ghost use Rattle.sched_machine.specs.Decisions.{UnitsStay, CanonicalsStay, VerdictsStay, StatusesStay, CreditsStay, CreditsAddUp};
ghost use Rattle.sched_machine.specs.Held.{ReportsEndHolding, HeldByPlaces, HoldsWhatIsListedOrNamed};
ghost use Rattle.sched_machine.specs.Laws.{EntryKeepsSound, ReportsKeepWell, LapsesKeepWell, LostJobsKeepWell, SettlementSettles, GrantKeepsSettled, ImportKeepsSound, StepKeepsSound, RunsKeepSound, EmptyIsSound};
ghost use Rattle.sched_machine.specs.Results.{RepliesNameEachJob};
ghost use Rattle.sched_machine.specs.Runs.{HoldsInRuns, OwnersStay, ReportsStay, LapsesStay, StepIsDetermined, RunIsDetermined, HoldsAlways, OneForEachUser, DeadlinesMoveByResends};
ghost use Rattle.sched_machine.specs.Stretches.{DeadlinesMoveByResendsInRuns, HoldsWhatIsListedOrNamedInRuns};

/// If a call's host is renewed, or made with room for it, a sound world stays sound.
pub fn entry_keeps_sound()
    ensures { EntryKeepsSound }
{}

/// Reports keep a world well: sound, except that open workunits may lack instances, and marked ones their class.
pub fn reports_keep_well()
    ensures { ReportsKeepWell }
{}

/// So do lapses at a deadline.
pub fn lapses_keep_well()
    ensures { LapsesKeepWell }
{}

/// So do lost jobs, which are sent again or dropped.
pub fn lost_jobs_keep_well()
    ensures { LostJobsKeepWell }
{}

/// Settlement makes a well world settled: sound, except that a marked workunit may have owners before it has its class.
pub fn settlement_settles()
    ensures { SettlementSettles }
{}

/// A grant to a host that exists leaves a settled world settled.
pub fn grant_keeps_settled()
    ensures { GrantKeepsSettled }
{}

/// An import whose rows were checked leaves a sound world sound.
pub fn import_keeps_sound()
    ensures { ImportKeepsSound }
{}

/// Each step of the machine leaves a sound world sound, if the values of the call are in range.
pub fn step_keeps_sound()
    ensures { StepKeepsSound }
{}

/// Each run keeps all its worlds sound.
pub fn runs_keep_sound()
    ensures { RunsKeepSound }
{}

/// The world of new tables is sound.
pub fn the_empty_world_is_sound()
    ensures { EmptyIsSound }
{}

/// For the host that calls, the settled world is like the world before the call: a grant of one is a grant of the other.
pub fn the_settled_world_is_like_the_first()
    ensures { SettledIsLike }
{}

/// Between any two worlds of a run from a sound world, an instance that was given to a host stays with that host, with
/// its moment of sending.
pub fn owners_stay()
    ensures { HoldsInRuns OwnersStay }
{}

/// What was reported of an instance stays.
pub fn reports_stay()
    ensures { HoldsInRuns ReportsStay }
{}

/// An instance that lapsed keeps its lapse.
pub fn lapses_stay()
    ensures { HoldsInRuns LapsesStay }
{}

/// A call at a moment leaves one world and gives one answer.
pub fn a_step_is_determined()
    ensures { StepIsDetermined }
{}

/// So a list of calls has one run.
pub fn a_run_is_determined()
    ensures { RunIsDetermined }
{}

/// In a run from a sound world no workunit ever has two instances that were given to hosts of one user.
pub fn one_for_each_user()
    ensures { HoldsAlways OneForEachUser }
{}

/// A step keeps the deadline of an instance that was given to a host, or sends it again to that host, which is the one
/// that calls.
pub fn deadlines_move_by_resends_alone()
    ensures { DeadlinesMoveByResends }
{}

/// After the reports of a call its host holds exactly what it held and did not report.
pub fn reports_end_holding()
    ensures { ReportsEndHolding }
{}

/// Suppose lost jobs are sent again, and a call lists what its client has. After it the host holds exactly what it held,
/// lists and did not report, what is sent again, and what is granted.
pub fn held_jobs_by_place()
    ensures { HeldByPlaces }
{}

/// So it holds exactly what it held, lists and did not report, and what the reply names.
pub fn a_host_holds_what_is_listed_or_named()
    ensures { HoldsWhatIsListedOrNamed }
{}

/// From a sound world, the reply of a call has one job for each place that is sent again or granted, in order: with the
/// name of the instance and its deadline. The host then holds each of these instances.
pub fn replies_name_each_job()
    ensures { RepliesNameEachJob }
{}

/// A workunit that exists still exists.
pub fn units_stay()
    ensures { HoldsInRuns UnitsStay }
{}

/// In every run a canonical result stays the canonical one.
pub fn canonicals_stay()
    ensures { HoldsInRuns CanonicalsStay }
{}

/// A verdict stays too.
pub fn verdicts_stay()
    ensures { HoldsInRuns VerdictsStay }
{}

/// What is done stays done, and what failed stays failed for the same reason.
pub fn statuses_stay()
    ensures { HoldsInRuns StatusesStay }
{}

/// The credit of a host or a user never falls.
pub fn credits_never_fall()
    ensures { HoldsInRuns CreditsStay }
{}

/// In each world of a run from a sound world, the hosts together, and the users together, have the credit of all valid
/// results.
pub fn credits_add_up()
    ensures { HoldsAlways CreditsAddUp }
{}

/// In a sound world the credit of all valid results is at most 2 * 10^15 millicredits. So is that of each host and of
/// each user.
pub fn credit_is_bounded()
    ensures { CreditIsBounded }
{}

/// From a sound world the jobs that a call sends again take at most 2 * 10^15 seconds.
pub fn resent_seconds_are_bounded()
    ensures { ResentSecondsAreBounded }
{}

/// Between any two worlds of a run, the deadline of an instance that was given to a host stays, or some call between
/// them sends it again to that host, which is the one that calls.
pub fn deadlines_move_by_resends_in_runs()
    ensures { DeadlinesMoveByResendsInRuns }
{}

/// Suppose lost jobs are sent again, and a call of a run lists what its client has. After it the host holds exactly what
/// it held, lists and did not report, and what the reply names.
pub fn a_host_holds_what_is_listed_or_named_in_runs()
    ensures { HoldsWhatIsListedOrNamedInRuns }
{}

/// In every run a workunit that keeps to a class always keeps to it, and one that is not marked is never marked.
pub fn classes_stay()
    ensures { HoldsInRuns ClassesStay }
{}

/// A grant changes the class of a workunit only if the workunit is marked, has no class, and one of its instances is
/// granted. It then takes the class of the version that the host runs. Nothing else changes.
pub fn classes_are_by_place()
    ensures { ClassesAreByPlace }
{}

/// From a sound world: after a step the owner of an instance owned it before, or is the caller and got it by this step.
/// If the workunit is marked, it then keeps to the class of the version with which the owner got the instance.
pub fn owners_are_of_classes()
    ensures { OwnersAreOfClasses }
{}

/// So in a world of a run the owner of an instance owned it at the beginning, or got it by an earlier call, with a
/// version of the class that the workunit keeps to in that world.
pub fn owners_are_of_classes_in_runs()
    ensures { OwnersAreOfClassesInRuns }
{}
