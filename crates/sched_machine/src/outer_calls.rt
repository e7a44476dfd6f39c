//! Calls that the program does not make, for tests and other schedulers. [`admit`] and [`step`] have one error for all
//! refusals, [`Refused`]. They call [`caller_of`], [`step_call`], [`step_import`] and [`step_tick`], as the program
//! does, and convert the error.

ghost use Rattle.std.specs.Prelude.{◌≡◌, true, None, IfOk, IsErrOf};
ghost use Rattle.sched_book.specs.Delta.{applied, Fits};
ghost use Rattle.sched_book.specs.Places.{account_place};
ghost use Rattle.sched_book.specs.Sound.{Sound};
ghost use Rattle.sched_book.specs.Step.{IsCaller, Step};
ghost use Rattle.sched_book.specs.Trusted.{Trusted};
ghost use Rattle.sched_machine.specs.Admission.{names_host, NamesWrongNumber};
ghost use Rattle.sched_machine.specs.Calling.{IsFull, MayBeHeard};
ghost use Rattle.sched_machine.specs.Refusals.{admission_refusal, step_refusal};
ghost use Rattle.sched_machine.specs.declared.outer_calls.Refused.TheVariants as refused;

use crate::admission::{AdmissionError, caller_of};
use crate::step_error::StepError;
use crate::steps::{step_call, step_import, step_tick};
use rpc_records::Request;
use sched_book::{Answered, Call, Caller, Cause, Delta, Desk, Moment, Unavailable, copy_of};
use std::alloc::Global;
use std::error::Error;
use std::fmt;

/// Why a call is refused: by its admission ([`AdmissionError`]) or by its step ([`StepError`]).
#[derive(Clone, Copy, Debug, PartialEq, Eq)]
pub enum Refused {
    /// No account has its authenticator.
    BadAccount,
    /// Its host number is neither 0 nor that of the caller's host.
    BadHost,
    /// The host is new, and the project has as many hosts as its settings allow.
    HostsFull,
    /// The desk is unavailable, for this cause.
    Unavailable(Cause),
}

impl fmt::Display for Refused {
    fn fmt<W: fmt::Write>(&self, f: &mut fmt::Formatter<W>) -> fmt::Result {
        match self {
            Refused::BadAccount => write!(f, "no account has the authenticator"),
            Refused::BadHost => write!(f, "the number is not that of the caller's host"),
            Refused::HostsFull => write!(f, "there is no room for another host"),
            Refused::Unavailable(_) => write!(f, "unavailable"),
        }
    }
}

impl Error for Refused {}

impl From<Unavailable> for Refused {
    ghost from_gives = { λ unavailable why. why ≡ refused.Unavailable unavailable.0 };

    fn from(unavailable: Unavailable) -> Refused {
        Refused::Unavailable(unavailable.0)
    }
}

impl From<AdmissionError> for Refused {
    ghost from_gives = { λ error why. why ≡ admission_refusal error };

    fn from(error: AdmissionError) -> Refused {
        match error {
            AdmissionError::BadAccount => Refused::BadAccount,
            AdmissionError::BadHost => Refused::BadHost,
            AdmissionError::Unavailable(cause) => Refused::Unavailable(cause),
        }
    }
}

impl From<StepError> for Refused {
    ghost from_gives = { λ error why. why ≡ step_refusal error };

    fn from(error: StepError) -> Refused {
        match error {
            StepError::HostsFull => Refused::HostsFull,
            StepError::Unavailable(cause) => Refused::Unavailable(cause),
        }
    }
}

/// Returns who makes a call: [`caller_of`].
pub fn admit<D: Desk>(alloc: Global, desk: &mut D, request: &Request) -> Result<Caller, Refused>
    ensures reads { D.reads desk.old desk.new }
    ensures caller { Trusted D.Units desk.old desk.new (IfOk result (λ caller.
        IsCaller (D.world desk.old) caller request.now × (names_host request.now.hostid caller.host ≡ true))) }
    ensures bad_account { Trusted D.Units desk.old desk.new (IsErrOf result refused.BadAccount →
        account_place (D.world desk.old) request.now.authenticator ≡ None) }
    ensures bad_host { Trusted D.Units desk.old desk.new (IsErrOf result refused.BadHost →
        NamesWrongNumber (D.world desk.old) request.now) }
    ensures never_full { IsErrOf result refused.HostsFull → ⊥ }
{
    Ok(caller_of(alloc, desk, request)?)
}

/// One step of the job machine of any kind: [`step_call`], [`step_import`] or [`step_tick`]. The laws of a step are
/// stated for it; the program calls these three.
pub fn step<D: Desk>(
    alloc: Global,
    desk: &mut D,
    call: &Call,
    now: Moment,
) -> Result<(Delta, Answered), Refused>
    ensures reads { D.reads desk.old desk.new }
    ensures step { Trusted D.Units desk.old desk.new (IfOk result (λ done.
        Sound (D.world desk.old) → MayBeHeard (D.world desk.old) call.now →
        Step (D.world desk.old) call.now now (applied (D.world desk.old) done.0) done.1)) }
    ensures sound { Trusted D.Units desk.old desk.new (IfOk result (λ done.
        Sound (D.world desk.old) → MayBeHeard (D.world desk.old) call.now → Sound (applied (D.world desk.old) done.0))) }
    ensures fits { Trusted D.Units desk.old desk.new (IfOk result (λ done.
        Sound (D.world desk.old) → MayBeHeard (D.world desk.old) call.now → Fits (D.world desk.old) done.0)) }
    ensures full { Trusted D.Units desk.old desk.new (IsErrOf result refused.HostsFull → IsFull (D.world desk.old) call.now) }
    ensures room { Trusted D.Units desk.old desk.new (IfOk result (λ done. IsFull (D.world desk.old) call.now → ⊥)) }
    ensures known { (IsErrOf result refused.BadAccount → ⊥) × (IsErrOf result refused.BadHost → ⊥) }
{
    match call {
        Call::Rpc(caller, request) => {
            let (delta, reply) = step_call(alloc, desk, caller, request, now)?;
            Ok((delta, Answered::Rpc(reply)))
        }
        Call::Import(rows) => {
            let Ok(rows) = copy_of(rows) else {
                return Err(Refused::Unavailable(Cause::Memory));
            };
            let (delta, count) = step_import(rows)?;
            Ok((delta, Answered::Imported(count)))
        }
        Call::Tick => {
            let (delta, count) = step_tick(alloc, desk, now)?;
            Ok((delta, Answered::Lapsed(count)))
        }
    }
}
