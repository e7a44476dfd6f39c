//! Calls that the program does not make. They are for a caller that counts one workunit by itself, or has a desk and no
//! working set: tests, or another scheduler. They use the steps that the program runs, [`record_on`], [`settle_on`] and
//! [`lapse_places`].

ghost use Rattle.std.specs.Prelude.{◌≡◌, ◌≤◌, ◌++◌, All, drop, length, map, IfOk, IfErr, OnOk};
ghost use Rattle.rpc_records.specs.Ranges.{IsReport};
ghost use Rattle.rpc_records.specs.declared.request.Report.{Report};
ghost use Rattle.sched_book.specs.Count.{agree, status, verdict_by};
ghost use Rattle.sched_book.specs.Delta.{edited, EditsFit};
ghost use Rattle.sched_book.specs.Reports.{first_reports, recorded};
ghost use Rattle.sched_book.specs.Settle.{settled};
ghost use Rattle.sched_book.specs.Sound.{Sound};
ghost use Rattle.sched_book.specs.Step.{lapsed};
ghost use Rattle.sched_book.specs.Trusted.{Trusted};
ghost use Rattle.call_working_set.specs.WorkingSets.{IsCallStateOf};
ghost use Rattle.quorum_credit.specs.Settled.{new_instances, verdicts};
ghost use Rattle.quorum_credit.specs.Settling.{IsSettlement};
ghost use Rattle.quorum_credit.specs.Taken.{AreTouched};

use crate::reports::record_on;
use crate::settlement::new_instances;
use crate::settling::{lapse_places, settle_on};
use arrayvec::ArrayVec;
use call_working_set::{CallState, WorkingSet, put_all};
use rpc_records::Request;
use sched_book::limits::MOST_INSTANCES;
use sched_book::{
    Agreement, Desk, Edit, Edits, Instance, Moment, Status, Unavailable, Verdict, Workunit, count,
};
use std::alloc::Global;
use std::collections::BTreeSet;
use std::marker::Model;
use texts::{Listed, Memory, Text};

/// Whether two outputs of an application agree.
pub fn agree(agreement: &Agreement, left: &str, right: &str) -> bool
    ensures { result ≡ agree agreement.now left.now right.now }
{
    count::agree(agreement, left, right)
}

/// The verdicts on the instances of a workunit, by number; `None` if an instance has none.
#[derive(Drop)]
pub struct Verdicts {
    row: ArrayVec<Option<Verdict>, MOST_INSTANCES>,
}

impl Model for Verdicts {
    ghost use Rattle.std.specs.Prelude.{List, Option};
    ghost use Rattle.sched_book.specs.declared.instance.Verdict.{Verdict};

    ghost Value = { List (Option Verdict) };

    ghost view = { λ v. v.row.items };
}

impl Verdicts {
    pub fn as_slice(&self) -> &[Option<Verdict>]
        ensures { result.now ≡ self.now }
    {
        self.row.as_slice()
    }
}

/// What the reports of a workunit lead to.
#[derive(Drop)]
pub struct Settled {
    pub status: Status,
    /// How many instances it is to get: what it needs if it is open, else none.
    pub new_instances: usize,
    pub verdicts: Verdicts,
}

/// The verdicts on a workunit's instances, by the number of the canonical result.
fn verdicts_by(agreement: &Agreement, instances: &[Instance], canonical: Option<usize>) -> Verdicts
    requires { length instances.now ≤ MOST_INSTANCES }
    ensures { result ≡ map (verdict_by agreement.now instances.now canonical) instances.now }
{
    let mut row = ArrayVec::new();
    for instance in instances {
        row.push(count::verdict_by(agreement, instances, canonical, instance));
    }
    Verdicts { row }
}

/// What these instances mean for the workunit: its status, how many instances it is to get, and the verdicts.
pub fn settle(agreement: &Agreement, unit: &Workunit, instances: &[Instance]) -> Settled
    requires { length instances.now ≤ MOST_INSTANCES }
    ensures status { result.status ≡ status agreement.now unit.now instances.now }
    ensures new_instances { result.new_instances ≡ new_instances agreement.now unit.now instances.now }
    ensures verdicts { result.verdicts ≡ verdicts agreement.now unit.now instances.now }
{
    let decided = count::decide(agreement, unit, instances);
    Settled {
        status: decided.status,
        new_instances: new_instances(decided.status, unit, instances),
        verdicts: verdicts_by(agreement, instances, decided.canonical),
    }
}

/// What the reports of a call lead to.
#[derive(Drop)]
pub struct Taken {
    /// The instances that they change.
    pub edits: Edits,
    /// The names that are acknowledged, each once, in the order of their first places.
    pub acked: Listed<Text>,
    /// The places of the workunits that they touch, in order and each once.
    pub touched: Listed<u32>,
}

/// The places of the workunits that edits touch, in order and each once.
///
/// # Errors
///
/// [`Memory`] if there is no memory.
fn touched_by(alloc: Global, edits: &[Edit]) -> Result<Listed<u32>, Memory>
    ensures { IfOk result (λ units. AreTouched edits.now units) }
{
    let mut units = BTreeSet::new(alloc);
    for edit in edits {
        match edit {
            Edit::Instance { place, row: _ } => {
                units.insert(place.unit)?;
            }
            Edit::Class { unit, class: _ } => {
                units.insert(*unit)?;
            }
            Edit::Host { .. } => {}
        }
    }
    Ok(Listed::of(units.iter().copied().collect(alloc)?))
}

/// Takes the reports of a call from the host of this number.
///
/// The first report of each name counts. It is recorded if the instance was given to the host, which has not reported it
/// yet, even if it lapsed. It is judged if the workunit had not failed before the call, and then gets the next place
/// among the workunit's judged reports. Every name is acknowledged, whether its report was recorded or not.
pub fn take_reports<D: Desk>(
    alloc: Global,
    desk: &mut D,
    host: u32,
    request: &Request,
) -> Result<Taken, Unavailable>
    ensures reads { D.reads desk.old desk.new }
    ensures edits { Trusted D.Units desk.old desk.new (
        IfOk result (λ taken. edited (D.world desk.old) taken.edits ≡ recorded (D.world desk.old) host request.now.results)) }
    ensures acked { IfOk result (λ taken. taken.acked ≡ map (λ (r : Report). r.name) (first_reports request.now.results)) }
    ensures fits { Trusted D.Units desk.old desk.new (
        IfOk result (λ taken. All IsReport request.now.results → Sound (D.world desk.old) → EditsFit (D.world desk.old) taken.edits)) }
    ensures touched { IfOk result (λ taken. AreTouched taken.edits taken.touched) }
    ensures causes { Trusted D.Units desk.old desk.new (IfErr result (D.may_fail desk.old)) }
{
    let mut call_state = CallState::new(alloc, desk.settings(alloc)?);
    let mut working_set = WorkingSet {
        desk,
        call_state: &mut call_state,
    };
    let acked = record_on(alloc, &mut working_set, host, request)?;
    drop(working_set);
    let CallState { edits, .. } = call_state;
    let touched = touched_by(alloc, edits.as_slice())?;
    Ok(Taken {
        edits,
        acked,
        touched,
    })
}

/// The same over a desk with a call state, after edits that are made first.
fn settle_onto<D: Desk>(
    alloc: Global,
    desk: &mut D,
    call_state: &mut CallState,
    edits: &Edits,
    touched: &[u32],
) -> Result<(), Unavailable>
    ensures reads { D.reads desk.old desk.new }
    ensures call_state { Trusted D.Units desk.old desk.new (IsCallStateOf (D.world desk.old) call_state.old → IsCallStateOf (D.world desk.old) call_state.new) }
    ensures settled { Trusted D.Units desk.old desk.new (IsCallStateOf (D.world desk.old) call_state.old → OnOk result (
        IsSettlement (D.world desk.old) (call_state.old.edits ++ edits.now) call_state.new.edits touched.now)) }
{
    let mut working_set = WorkingSet { desk, call_state };
    put_all(alloc, &mut working_set, edits.as_slice())?;
    settle_on(alloc, &mut working_set, touched)?;
    Ok(())
}

/// The edits after the first `count`.
fn edits_after(alloc: Global, edits: Edits, count: usize) -> Result<Edits, Memory>
    ensures { IfOk result (λ more. more ≡ drop count edits) }
{
    Ok(Listed::of(edits.into_vec().into_iter().skip(count).collect(alloc)?))
}

/// Settles the workunits that edits touch, which are at these places. Returns the further edits: each open workunit
/// gets the instances that it lacks, and each of their hosts the quota that follows from what is new.
///
/// # Errors
///
/// [`Unavailable`] if there is no memory or the desk is unavailable.
pub fn settle_all<D: Desk>(
    alloc: Global,
    desk: &mut D,
    edits: &Edits,
    touched: &[u32],
) -> Result<Edits, Unavailable>
    ensures reads { D.reads desk.old desk.new }
    ensures settled { Trusted D.Units desk.old desk.new (IfOk result (λ more.
        Sound (D.world desk.old) → EditsFit (D.world desk.old) edits.now → AreTouched edits.now touched.now →
        edited (D.world desk.old) (edits.now ++ more) ≡ settled (D.world desk.old) (edited (D.world desk.old) edits.now))) }
    ensures fits { Trusted D.Units desk.old desk.new (IfOk result (λ more.
        Sound (D.world desk.old) → EditsFit (D.world desk.old) edits.now → AreTouched edits.now touched.now →
        EditsFit (D.world desk.old) (edits.now ++ more))) }
{
    let mut call_state = CallState::new(alloc, desk.settings(alloc)?);
    settle_onto(alloc, desk, &mut call_state, edits, touched)?;
    Ok(edits_after(alloc, call_state.edits, edits.len())?)
}

/// Lets each held instance whose deadline is before this moment lapse late, and settles their workunits.
///
/// # Errors
///
/// [`Unavailable`] if there is no memory or the desk is unavailable.
pub fn lapse<D: Desk>(alloc: Global, desk: &mut D, now: Moment) -> Result<Edits, Unavailable>
    ensures reads { D.reads desk.old desk.new }
    ensures settled { Trusted D.Units desk.old desk.new (IfOk result (λ edits.
        Sound (D.world desk.old) → edited (D.world desk.old) edits ≡ settled (D.world desk.old) (lapsed (D.world desk.old) now))) }
    ensures fits { Trusted D.Units desk.old desk.new (
        IfOk result (λ edits. Sound (D.world desk.old) → EditsFit (D.world desk.old) edits)) }
    ensures causes { Trusted D.Units desk.old desk.new (Sound (D.world desk.old) → IfErr result (D.may_fail desk.old)) }
{
    let places = desk.due_before(alloc, now)?;
    lapse_places(alloc, desk, places.as_slice())
}
