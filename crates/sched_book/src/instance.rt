//! Instances of workunits, and what happened to them.

ghost use Rattle.std.specs.Prelude.{◌≡◌, Some};
ghost use Rattle.std.specs.Bool.{Decides};
ghost use Rattle.sched_book.specs.Count.{tells_success, tells_error, is_judged, is_held, is_live, CountAlike, is_open, has_failed};
ghost use Rattle.sched_book.specs.Places.{host_of, is_owned_by, is_held_by, was_sent, is_overdue};
ghost use Rattle.sched_book.specs.Reports.{awaits_report};
ghost use Rattle.sched_book.specs.Settle.{fresh};

use crate::moment::Moment;
use crate::rows::Workunit;
use texts::{Listed, Same, Text};

/// The place of an instance: that of its workunit in the order of imports, from 1, and its number in the
/// workunit, from 0. Jobs are offered and sent in the order of their places.
#[derive(Clone, Copy, Debug, PartialEq, Eq, PartialOrd, Ord)]
pub struct Place {
    pub unit: u32,
    pub number: u32,
}

/// The host to which an instance was given.
#[derive(Clone, Copy, PartialEq, Eq)]
pub struct Owner {
    /// The host's number.
    pub host: u32,
    pub sent: Moment,
    /// The last second of its time, in seconds since 1970-01-01T00:00:00Z.
    pub deadline: u64,
}

/// Why an instance that its host held ended without a report.
#[derive(Clone, Copy, Debug, PartialEq, Eq)]
pub enum Lapse {
    /// Its deadline passed.
    Late,
    /// Its host lost it, and it was not sent again.
    Dropped,
}

/// What was reported of an instance.
#[derive(Clone, PartialEq, Eq, Drop)]
pub struct Outcome {
    /// A success, or else a client error.
    pub success: bool,
    pub output: Text,
    /// Its place among the judged reports of its workunit, from 1, if it was judged.
    pub place: Option<u32>,
}

/// An instance of a workunit: one result that a host is to compute, computes or computed.
#[derive(Clone, PartialEq, Eq, Drop)]
pub struct Instance {
    pub owner: Option<Owner>,
    pub lapse: Option<Lapse>,
    pub report: Option<Outcome>,
}

/// A workunit with its instances. An instance's number is its index.
#[derive(Clone, Drop)]
pub struct UnitBook {
    pub unit: Workunit,
    pub instances: Listed<Instance>,
}

/// The status of a workunit.
#[derive(Clone, Copy, Debug, PartialEq, Eq)]
pub enum Status {
    Open,
    /// It has a canonical result.
    Done,
    /// It had more errors than it may have.
    FailedErrors,
    /// It had more successes than it may have, without a decision.
    FailedSuccess,
    /// It would need more instances than it may have.
    FailedTotal,
}

/// The verdict on a judged success of a workunit that is done.
#[derive(Clone, Copy, Debug, PartialEq, Eq)]
pub enum Verdict {
    /// Its output agrees with that of the canonical result.
    Valid,
    Invalid,
}

impl Outcome {
    /// Whether it is a success that was judged.
    pub fn is_judged_success(&self) -> bool
        ensures { result ≡ tells_success (Some self.now) }
    {
        self.success && self.place.is_some()
    }

    /// Whether it is a client error that was judged.
    pub fn is_judged_error(&self) -> bool
        ensures { result ≡ tells_error (Some self.now) }
    {
        !self.success && self.place.is_some()
    }
}

impl Instance {
    /// An instance that was given to nobody.
    pub fn unsent() -> Instance
        ensures { result ≡ fresh }
    {
        Instance {
            owner: None,
            lapse: None,
            report: None,
        }
    }

    /// The number of the host that it was given to, if it was given to one.
    pub fn owner_host(&self) -> Option<u32>
        ensures { result ≡ host_of self.now }
    {
        self.owner.as_ref().map(|owner| owner.host)
    }

    /// Whether it was given to the host of this number.
    pub fn is_owned_by(&self, host: u32) -> bool
        ensures { result ≡ is_owned_by host self.now }
    {
        self.owner_host().is_some_and(|owner| owner == host)
    }

    /// Whether a host holds it: it was given to a host, and has neither report nor lapse.
    pub fn is_held(&self) -> bool
        ensures { result ≡ is_held self.now }
    {
        self.owner.is_some() && self.report.is_none() && self.lapse.is_none()
    }

    /// Whether the host of this number holds it.
    pub fn is_held_by(&self, host: u32) -> bool
        ensures { result ≡ is_held_by host self.now }
    {
        self.is_owned_by(host) && self.is_held()
    }

    /// Whether it was given to the host of this number on a day.
    pub(crate) fn was_sent(&self, host: u32, day: u64) -> bool
        ensures { result ≡ was_sent host day self.now }
    {
        match &self.owner {
            None => false,
            Some(owner) => owner.host == host && owner.sent.day() == day,
        }
    }

    /// Whether it is held and its deadline is before `now`.
    pub(crate) fn is_overdue(&self, now: Moment) -> bool
        ensures { result ≡ is_overdue now self.now }
    {
        match &self.owner {
            None => false,
            Some(owner) => self.is_held() && owner.deadline < now.seconds(),
        }
    }

    /// Whether it may still bring a result: it was not given to a host, or a host holds it.
    pub fn is_live(&self) -> bool
        ensures { result ≡ is_live self.now }
    {
        self.owner.is_none() || self.is_held()
    }

    /// Whether it counts like another: both have the same report, and both or neither may still bring a result.
    pub fn counts_like(&self, other: &Instance) -> bool
        ensures { Decides result (CountAlike self.now other.now) }
    {
        self.is_live() == other.is_live() && self.report == other.report
    }

    /// Whether it was given to the host of this number, which has not reported it yet.
    pub fn awaits_report_of(&self, host: u32) -> bool
        ensures { result ≡ awaits_report host self.now }
    {
        self.is_owned_by(host) && self.report.is_none()
    }

    /// Whether it has a judged report of a success.
    pub fn is_judged_success(&self) -> bool
        ensures { result ≡ tells_success self.now.report }
    {
        match &self.report {
            None => false,
            Some(outcome) => outcome.is_judged_success(),
        }
    }

    /// Whether it has a judged report of a client error.
    pub fn is_judged_error(&self) -> bool
        ensures { result ≡ tells_error self.now.report }
    {
        match &self.report {
            None => false,
            Some(outcome) => outcome.is_judged_error(),
        }
    }

    /// Whether a report on it was judged.
    pub fn is_judged(&self) -> bool
        ensures { result ≡ is_judged self.now }
    {
        match &self.report {
            None => false,
            Some(outcome) => outcome.place.is_some(),
        }
    }
}

impl Status {
    /// Whether a workunit of this status takes part in new grants.
    pub fn is_open(self) -> bool
        ensures { result ≡ is_open self }
    {
        match self {
            Status::Open => true,
            Status::Done | Status::FailedErrors | Status::FailedSuccess | Status::FailedTotal => {
                false
            }
        }
    }

    /// Whether a workunit of this status has failed.
    pub fn has_failed(self) -> bool
        ensures { result ≡ has_failed self }
    {
        match self {
            Status::Open | Status::Done => false,
            Status::FailedErrors | Status::FailedSuccess | Status::FailedTotal => true,
        }
    }
}

impl Same for Instance {
    ghost use Rattle.std.proofs.Common.{rules};

    ghost exact = { λ instance copy is_copy. Prim.search rules };
}

impl Same for UnitBook {
    ghost use Rattle.std.proofs.Common.{rules};

    ghost exact = { λ book copy is_copy. Prim.search rules };
}
