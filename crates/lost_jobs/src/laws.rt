//! Laws of the definitions. Each function does nothing; its contract is the law.

ghost use Rattle.lost_jobs.specs.Laws.{ReportsHoldNoMore, ReportsKeepDeadlines, FatesResendOrDrop};
ghost use Rattle.lost_jobs.specs.Requested.{LostJobsAreOfTheRequest};

/// What a host holds after the reports of its call it also held before.
pub fn reports_hold_no_more()
    ensures { ReportsHoldNoMore }
{}

/// What a host holds after the reports of its call has the deadline that it had before.
pub fn reports_keep_deadlines()
    ensures { ReportsKeepDeadlines }
{}

/// The fates of the jobs that a client lost send each of them again or drop it.
pub fn fates_resend_or_drop()
    ensures { FatesResendOrDrop }
{}

/// The jobs that are lost after the reports of a request are those that its host held before, and that the request
/// neither reports nor lists.
pub fn lost_jobs_are_of_the_request()
    ensures { LostJobsAreOfTheRequest }
{}
