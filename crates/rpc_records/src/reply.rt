//! A scheduler_reply and its jobs.

ghost use Rattle.std.specs.Prelude.{◌≡◌};
ghost use Rattle.rpc_records.specs.Replies.{end_word_of};

use texts::{Listed, Text};

/// Why a reply has no more jobs.
#[derive(Clone, Copy, Debug, PartialEq, Eq)]
pub enum EndWord {
    /// As many seconds as were asked for.
    Enough,
    /// As many jobs as one reply may have.
    ReplyLimit,
    /// As many jobs as a host may have in progress.
    InProgressLimit,
    /// As many jobs as the host may get on one day.
    DailyQuota,
    /// No further job that this host may do.
    NoEligibleWork,
}

impl EndWord {
    /// Its word in a reply.
    pub(crate) fn word(self) -> &'static str
        ensures { result.now ≡ end_word_of self }
    {
        match self {
            EndWord::Enough => "enough",
            EndWord::ReplyLimit => "reply_limit",
            EndWord::InProgressLimit => "in_progress_limit",
            EndWord::DailyQuota => "daily_quota",
            EndWord::NoEligibleWork => "no_eligible_work",
        }
    }
}

/// A job of a reply: one instance of a workunit, with the version of its application that the host can run.
#[derive(Debug, Drop)]
pub struct Job {
    pub app_name: Text,
    /// Seconds that the job will take on this host.
    pub estimate: u64,
    /// The instance's name.
    pub name: Text,
    /// The platform of the version.
    pub platform: Text,
    /// The moment by which its report is due, in seconds since 1970-01-01T00:00:00Z.
    pub report_deadline: u64,
    /// Whether the host had it before and lost it.
    pub resent: bool,
    pub version_num: u32,
    /// The workunit's name.
    pub wu_name: Text,
}

/// A scheduler_reply.
#[derive(Debug, Drop)]
pub struct Reply {
    pub end_word: EndWord,
    /// Millicredits of the host.
    pub host_total_credit: u64,
    /// The host's number.
    pub hostid: u32,
    /// Seconds that the client must wait before its next call.
    pub request_delay: u32,
    /// The names of the results that the client should no longer work on.
    pub result_abort: Listed<Text>,
    /// The names of the reports that were taken. The client may forget them.
    pub result_ack: Listed<Text>,
    /// First the jobs that are sent again, then the new ones.
    pub results: Listed<Job>,
    /// The number of the call that is answered.
    pub rpc_seqno: u32,
    pub user_name: Text,
    /// Millicredits of the user, over all hosts.
    pub user_total_credit: u64,
}
