//! Laws of pasts. Each function does nothing; its contract is the law.

ghost use Rattle.pasts.specs.ByNumber.{KeptByNumber};
ghost use Rattle.pasts.specs.Laws.{NewTablesStand, StandsCarried, StandsCarriedByAll, FirstHeardIsToldNothing, RunsTheFirstHeard, RowsAreOfFirstHeard, FirstHeardBegins, NumbersRise, IsOneRun, ServesByOneRun};
ghost use Rattle.pasts.specs.Leaves.{StepLeavesTheRest};
ghost use Rattle.pasts.specs.UpgradePoints.{NewPastsAreInEra, ErasGoOn, UpgradesLeadOn, NewTablesHaveOneEra, KeptSinceTheFirstUpgrade};
ghost use Rattle.pasts.specs.Repeats.{KeptAreTheLatestFour, CallsAreToldBesideTheKept, BatchesCountOnce};

/// New tables agree with the empty past.
pub fn new_tables_stand()
    ensures { NewTablesStand }
{}

/// If tables agree with a past and serve a message, they then agree with the past and that message. This holds for any
/// message, however often it came before and whichever others were lost.
pub fn stands_is_carried()
    ensures { StandsCarried }
{}

/// The same for tables that serve many messages, one after the other.
pub fn stands_is_carried_by_all()
    ensures { StandsCarriedByAll }
{}

/// If tables agree with a past, they have no answer for a message without a step exactly if it is first heard after
/// that past. Whether it is follows from the messages alone.
pub fn first_heard_is_told_nothing()
    ensures { FirstHeardIsToldNothing }
{}

/// If tables agree with a past, their run is over just the first-heard messages of the past.
pub fn runs_the_first_heard()
    ensures { RunsTheFirstHeard }
{}

/// It is one run of the job machine, within limits, from the world of new tables to the stored one.
pub fn stands_by_one_run()
    ensures { IsOneRun }
{}

/// Many messages are one run of the job machine, from the world before them to the world after them.
pub fn serves_by_one_run()
    ensures { ServesByOneRun }
{}

/// The imported rows are those of the first-heard imports, in their order. The hosts are those of the first-heard
/// calls' keys, in their order.
pub fn rows_are_of_first_heard()
    ensures { RowsAreOfFirstHeard }
{}

/// A step of the machine leaves the settings, the imported rows, and whose host each number is, except for what it
/// adds.
pub fn a_step_leaves_the_rest()
    ensures { StepLeavesTheRest }
{}

/// The first-heard messages of a past begin with those of each shorter one.
pub fn first_heard_begins()
    ensures { FirstHeardBegins }
{}

/// The numbers of a key's first-heard calls rise.
pub fn numbers_rise()
    ensures { NumbersRise }
{}

/// What is kept of a key is its latest four first-heard calls. Those of the first era are counted from the last one on.
pub fn kept_are_the_latest_four()
    ensures { KeptAreTheLatestFour }
{}

/// A repeat of a kept call gets the same answer. Another call with its number is refused, and so is any other that is
/// not above the last one. A call with a greater number is first heard.
pub fn calls_are_told_beside_the_kept()
    ensures { CallsAreToldBesideTheKept }
{}

/// A repeat of a batch that was heard gets the same answer. Other bytes under its name are refused.
pub fn batches_count_once()
    ensures { BatchesCountOnce }
{}

/// Calls that are kept by the number of their host are those kept by key, and no number beyond the hosts has any.
pub fn calls_are_kept_by_number()
    ensures { KeptByNumber }
{}

/// The empty past is in any era, with the upgrade points of new tables.
pub fn new_pasts_are_in_era()
    ensures { NewPastsAreInEra }
{}

/// A past stays in its era with one message more of that era.
pub fn eras_go_on()
    ensures { ErasGoOn }
{}

/// An upgrade leads to the next era, and no message of the past changes its own.
pub fn upgrades_lead_on()
    ensures { UpgradesLeadOn }
{}

/// With the upgrade points of new tables all messages are of one era.
pub fn new_tables_have_one_era()
    ensures { NewTablesHaveOneEra }
{}

/// Since the first upgrade, what is kept of a key is its latest four calls, counted from its last call before that
/// upgrade on.
pub fn kept_since_the_first_upgrade()
    ensures { KeptSinceTheFirstUpgrade }
{}
