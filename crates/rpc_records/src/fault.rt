//! The refusals of the profile, each with its name and its number.

ghost use Rattle.std.specs.Prelude.{◌≡◌};
ghost use Rattle.rpc_records.specs.Members.{member_name, path_of};
ghost use Rattle.rpc_records.specs.Replies.{name_of, fault_number};
ghost use Rattle.rpc_records.specs.declared.fault.Fault.TheVariants.{Unavailable};

use std::alloc::{AllocError, AllocFailed};
use std::error::Error;
use std::fmt;

/// A member of a request, in the order in which they are checked.
#[derive(Clone, Copy, Debug, PartialEq, Eq)]
pub enum Member {
    Authenticator,
    Hostid,
    RpcSeqno,
    HostInfo,
    HostCpid,
    PFpops,
    MNbytes,
    DFree,
    PlatformName,
    AltPlatforms,
    WorkReqSeconds,
    OtherResults,
    Results,
}

impl Member {
    /// Its name in its object. Four of them are in host_info.
    pub(crate) fn key(self) -> &'static str
        ensures { result.now ≡ member_name self }
    {
        match self {
            Member::Authenticator => "authenticator",
            Member::Hostid => "hostid",
            Member::RpcSeqno => "rpc_seqno",
            Member::HostInfo => "host_info",
            Member::HostCpid => "host_cpid",
            Member::PFpops => "p_fpops",
            Member::MNbytes => "m_nbytes",
            Member::DFree => "d_free",
            Member::PlatformName => "platform_name",
            Member::AltPlatforms => "alt_platforms",
            Member::WorkReqSeconds => "work_req_seconds",
            Member::OtherResults => "other_results",
            Member::Results => "results",
        }
    }

    /// Its name in a refusal, such as `host_info.host_cpid`.
    pub(crate) fn path(self) -> &'static str
        ensures { result.now ≡ path_of self }
    {
        match self {
            Member::HostCpid => "host_info.host_cpid",
            Member::PFpops => "host_info.p_fpops",
            Member::MNbytes => "host_info.m_nbytes",
            Member::DFree => "host_info.d_free",
            Member::Authenticator
            | Member::Hostid
            | Member::RpcSeqno
            | Member::HostInfo
            | Member::PlatformName
            | Member::AltPlatforms
            | Member::WorkReqSeconds
            | Member::OtherResults
            | Member::Results => self.key(),
        }
    }
}

/// A refusal. Each changes nothing.
#[derive(Clone, Copy, Debug, PartialEq, Eq)]
pub enum Fault {
    /// The message's head is faulty, or its body is cut short.
    BadHttp,
    /// No such route.
    NoRoute,
    /// The route takes another method.
    WrongMethod,
    /// The message does not say how long its body is.
    LengthRequired,
    /// The body is longer than the route takes.
    TooLarge,
    /// The body is no JSON object.
    BadJson,
    /// A member is missing or faulty: the first one in the order of [`Member`].
    BadMember(Member),
    /// No account has this authenticator.
    BadAccount,
    /// The number is not that of the caller's host.
    BadHost,
    /// A call of the host with a greater number was answered; the number given is the greatest.
    Stale(u32),
    /// A kept call of the host has the same number and said something else. The number given is that of the host's last
    /// call.
    Reused(u32),
    /// The limit of hosts is reached.
    HostsFull,
    /// The operator's key is missing or wrong.
    NotOperator,
    /// The first faulty row of an import, and in it the first faulty column.
    BadCsv { row: u64, column: u64 },
    /// The name in this row exists already.
    DuplicateName(u64),
    /// This row names an application that does not exist.
    UnknownReference(u64),
    /// The batch of this name had other bytes.
    BatchReused,
    /// More rows than a table may have.
    TableFull,
    /// No host has this number.
    NoSuchHost,
    /// There is not enough memory or disk, or a size is too large.
    Unavailable,
}

impl Fault {
    /// Its name in the body of the refusal.
    pub fn name(self) -> &'static str
        ensures { result.now ≡ name_of self }
    {
        match self {
            Fault::BadHttp => "bad_http",
            Fault::NoRoute => "no_route",
            Fault::WrongMethod => "wrong_method",
            Fault::LengthRequired => "length_required",
            Fault::TooLarge => "too_large",
            Fault::BadJson => "bad_json",
            Fault::BadMember(_) => "bad_member",
            Fault::BadAccount => "bad_account",
            Fault::BadHost => "bad_host",
            Fault::Stale(_) => "stale",
            Fault::Reused(_) => "reused",
            Fault::HostsFull => "hosts_full",
            Fault::NotOperator => "not_operator",
            Fault::BadCsv { .. } => "bad_csv",
            Fault::DuplicateName(_) => "duplicate_name",
            Fault::UnknownReference(_) => "unknown_reference",
            Fault::BatchReused => "batch_reused",
            Fault::TableFull => "table_full",
            Fault::NoSuchHost => "no_such_host",
            Fault::Unavailable => "unavailable",
        }
    }

    /// Its number, 1 to 20.
    pub fn number(self) -> u8
        ensures { result ≡ fault_number self }
    {
        match self {
            Fault::BadHttp => 1,
            Fault::NoRoute => 2,
            Fault::WrongMethod => 3,
            Fault::LengthRequired => 4,
            Fault::TooLarge => 5,
            Fault::BadJson => 6,
            Fault::BadMember(_) => 7,
            Fault::BadAccount => 8,
            Fault::BadHost => 9,
            Fault::Stale(_) => 10,
            Fault::Reused(_) => 11,
            Fault::HostsFull => 12,
            Fault::NotOperator => 13,
            Fault::BadCsv { .. } => 14,
            Fault::DuplicateName(_) => 15,
            Fault::UnknownReference(_) => 16,
            Fault::BatchReused => 17,
            Fault::TableFull => 18,
            Fault::NoSuchHost => 19,
            Fault::Unavailable => 20,
        }
    }
}

impl fmt::Display for Fault {
    fn fmt<W: fmt::Write>(&self, f: &mut fmt::Formatter<W>) -> fmt::Result {
        f.write_str(self.name())
    }
}

impl Error for Fault {}

impl From<AllocError> for Fault {
    ghost from_gives = { λ _ fault. fault ≡ Unavailable };

    fn from(_refused: AllocError) -> Fault {
        Fault::Unavailable
    }
}

impl<T: Drop> From<AllocFailed<T>> for Fault {
    ghost from_gives = { λ _ fault. fault ≡ Unavailable };

    fn from(_refused: AllocFailed<T>) -> Fault {
        Fault::Unavailable
    }
}
