//! Laws of the definitions. Each function does nothing; its contract is the law.

ghost use Rattle.sched_book.specs.Laws.{CanonicalIsFirstLeader, VersionIsNewestOfFirst, SettlementIsPointwise, FirstReportsAreFirst, ReportsAreRecordedByPlace, MadeNamesAreSplit, SplitNamesAreMade, FittingKeepsBounds, FirstKnownIsFirst};
ghost use Rattle.sched_book.specs.Bounds.{SoundIsBounded, InstancesAreFew, ChargesAreFew};
ghost use Rattle.sched_book.specs.PlaceLaws.{FirstReportsAreOfEachName, FirstNamesAreOfEachName, GoodAreJudgedSuccesses, PlacesAreThoseThatPass, OffersAreTheUnsent, UnitsOfUserAreThoseHad, LostAreHeldAndUnlisted, ReportsChangeInstancesAlone, LapsesAreByPlace, GrantsAreByPlace, LostJobsAreByPlace};

/// Take the shortest front of the good reports in which some report agrees with a majority. The canonical result is the
/// first such report. If no front has one, there is none.
pub fn canonical_result_leads_the_least_front()
    ensures { CanonicalIsFirstLeader }
{}

/// The version for a host is for the first of its platforms that has any, and no version for that platform is newer.
pub fn version_is_the_newest_of_the_first_platform()
    ensures { VersionIsNewestOfFirst }
{}

/// Settlement gives each workunit the instances that it needs and each host its quota, and changes nothing else.
pub fn settlement_is_pointwise()
    ensures { SettlementIsPointwise }
{}

/// A report of a call counts if no earlier one has its name.
pub fn first_reports_are_the_first_of_their_names()
    ensures { FirstReportsAreFirst }
{}

/// Each instance is as it was, or has a first report of its host recorded. No report on an instance that awaits one is
/// missed.
pub fn reports_are_recorded_by_place()
    ensures { ReportsAreRecordedByPlace }
{}

/// A name made of a workunit's name and a number below 100 is split into these two.
pub fn made_names_are_split()
    ensures { MadeNamesAreSplit }
{}

/// A name that can be split was made of its parts, so different names have different parts.
pub fn split_names_are_made()
    ensures { SplitNamesAreMade }
{}

/// The row that an import reports as a duplicate is the first one whose name a known or an earlier row has. If none is
/// reported, there is no such row.
pub fn first_known_is_first()
    ensures { FirstKnownIsFirst }
{}

/// Changes that fit a world keep every table within its bounds.
pub fn fitting_changes_keep_bounds()
    ensures { FittingKeepsBounds }
{}

/// The first reports of a call are those whose name no earlier one has, in their order. Each reported name has one of
/// them.
pub fn first_reports_are_of_each_name()
    ensures { FirstReportsAreOfEachName }
{}

/// The same of the names that a client lists.
pub fn first_names_are_of_each_name()
    ensures { FirstNamesAreOfEachName }
{}

/// The good reports are the judged successes, each once, by the places of their reports.
pub fn good_reports_are_the_judged_successes()
    ensures { GoodAreJudgedSuccesses }
{}

/// The places of a test, such as those that a host holds or that are overdue, are those at which it passes, each once,
/// in order.
pub fn places_are_those_that_pass()
    ensures { PlacesAreThoseThatPass }
{}

/// The candidates from a place on are the unsent instances of open workunits, each once, in order, each with its
/// workunit's row. No such instance is passed over.
pub fn offers_are_the_unsent()
    ensures { OffersAreTheUnsent }
{}

/// The workunits of a user are those of which some instance was given to a host of the user, each once, in order.
pub fn units_of_user_are_those_had()
    ensures { UnitsOfUserAreThoseHad }
{}

/// The lost jobs of a host are what it holds and its client does not list, each once, in the order of their places.
pub fn lost_jobs_are_held_and_unlisted()
    ensures { LostAreHeldAndUnlisted }
{}

/// Reports change only instances.
pub fn reports_change_instances_alone()
    ensures { ReportsChangeInstancesAlone }
{}

/// At a tick each held instance whose deadline is past lapses, and nothing else changes.
pub fn lapses_are_by_place()
    ensures { LapsesAreByPlace }
{}

/// A grant gives its jobs to the host, from that moment on and for their workunits' delay bounds, and changes nothing
/// else.
pub fn grants_are_by_place()
    ensures { GrantsAreByPlace }
{}

/// Each lost job is sent again, with a deadline that its host can meet, or is dropped. Nothing else changes.
pub fn lost_jobs_are_by_place()
    ensures { LostJobsAreByPlace }
{}

/// A sound world keeps every table within its bounds.
pub fn sound_is_bounded()
    ensures { SoundIsBounded }
{}

/// A bounded world has at most 20,000,000 instances. So no host holds more, and no more are overdue.
pub fn instances_are_few()
    ensures { InstancesAreFew }
{}

/// What counts for and against a host in one step is bounded as well.
pub fn charges_are_few()
    ensures { ChargesAreFew }
{}
