//! Who makes a call, and why a call is refused before the machine acts on it.

ghost use Rattle.std.specs.Prelude.{◌≡◌, true, Some, None, IfOk, IsErrOf};
ghost use Rattle.sched_book.specs.Places.{account_place};
ghost use Rattle.sched_book.specs.Step.{IsCaller};
ghost use Rattle.sched_book.specs.Trusted.{Trusted};
ghost use Rattle.sched_book.specs.declared.cause.Cause.{Cause};
ghost use Rattle.sched_machine.specs.Admission.{names_host, NamesWrongNumber};
ghost use Rattle.sched_machine.specs.declared.admission.AdmissionError.TheVariants as error;

use rpc_records::Request;
use sched_book::{Caller, Cause, Desk, Unavailable};
use std::alloc::Global;
use std::error::Error;
use std::fmt;

/// Why a call is not admitted.
#[derive(Clone, Copy, Debug, PartialEq, Eq)]
pub enum AdmissionError {
    /// No account has its authenticator.
    BadAccount,
    /// Its host number is neither 0 nor that of the caller's host.
    BadHost,
    /// The desk is unavailable, for this cause.
    Unavailable(Cause),
}

impl fmt::Display for AdmissionError {
    fn fmt<W: fmt::Write>(&self, f: &mut fmt::Formatter<W>) -> fmt::Result {
        match self {
            AdmissionError::BadAccount => write!(f, "no account has the authenticator"),
            AdmissionError::BadHost => write!(f, "the number is not that of the caller's host"),
            AdmissionError::Unavailable(_) => write!(f, "unavailable"),
        }
    }
}

impl Error for AdmissionError {}

impl From<Unavailable> for AdmissionError {
    ghost from_gives = { λ unavailable why. why ≡ error.Unavailable unavailable.0 };

    fn from(unavailable: Unavailable) -> AdmissionError {
        AdmissionError::Unavailable(unavailable.0)
    }
}

/// Whether a call names no number, or that of its host.
fn names_host(hostid: u32, number: Option<u32>) -> bool
    ensures { result ≡ names_host hostid number }
{
    hostid == 0 || number.is_some_and(|number| hostid == number)
}

/// Returns who makes a call: the account that it names, and the number of its host, if the host is known.
#[tactic(auto, using(crate::proofs::Rows::Admitted::account_is))]
pub fn caller_of<D: Desk>(
    alloc: Global,
    desk: &mut D,
    request: &Request,
) -> Result<Caller, AdmissionError>
    ensures reads { D.reads desk.old desk.new }
    ensures caller { Trusted D.Units desk.old desk.new (IfOk result (λ caller.
        IsCaller (D.world desk.old) caller request.now × (names_host request.now.hostid caller.host ≡ true))) }
    ensures bad_account { Trusted D.Units desk.old desk.new (IsErrOf result error.BadAccount →
        account_place (D.world desk.old) request.now.authenticator ≡ None) }
    ensures bad_host { Trusted D.Units desk.old desk.new (IsErrOf result error.BadHost →
        NamesWrongNumber (D.world desk.old) request.now) }
    ensures causes { Trusted D.Units desk.old desk.new ((cause : Cause) → IsErrOf result (error.Unavailable cause) → D.may_fail desk.old (record { 0 = cause })) }
{
    let found = desk.account_by_key(alloc, request.authenticator.as_str())?;
    let Some(account) = found.map(|account| account.place) else {
        return Err(AdmissionError::BadAccount);
    };
    let host = desk.host_by_key(account, request.host.host_cpid.as_str())?;
    if !names_host(request.hostid, host) {
        return Err(AdmissionError::BadHost);
    }
    Ok(Caller { account, host })
}
