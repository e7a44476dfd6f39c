//! What a desk is: it represents a world, and answers what that world says.

ghost use Rattle.std.specs.Prelude.{◌≡◌, ◌≤◌, length, IsTrue, IfOk, IfErr, OnOk, OnErr};
ghost use Rattle.sched_book.specs.Limits.{most_instances};
ghost use Rattle.sched_book.specs.Places.{instance_at, host_at, unit_named, known_host, held_by, owned_by, overdue, sent_on_day, host_credit, user_credit};
ghost use Rattle.sched_book.specs.Fits.{version_at};
ghost use Rattle.sched_book.specs.Offers.{unsent, OffersAll, OffersSome, OrSkips};
ghost use Rattle.sched_book.specs.Skipping.{HadAllBefore, IsHadBy};
ghost use Rattle.sched_book.specs.Desk.{counts, account_by_key, app_by_name, workunit_at, agreement_at, unit_status, instances_at, units_of_user, version_by_key};
ghost use Rattle.sched_book.specs.declared.cause.Cause.TheVariants.{Memory};
ghost use Rattle.sched_book.specs.declared.desk.Unavailable.{Unavailable};
ghost use Rattle.sched_book.specs.declared.world.World.{World};

use crate::cause::Cause;
use crate::instance::{Instance, Place, Status};
use crate::moment::Moment;
use crate::rows::{Account, Agreement, App, HostRow, Version, Workunit};
use crate::settings::Settings;
use std::alloc::Global;
use std::fmt;
use texts::{Listed, Memory};

/// How many rows each table has.
#[derive(Clone, Copy, Debug, PartialEq, Eq)]
pub struct Counts {
    pub accounts: u32,
    pub apps: u32,
    pub versions: u32,
    pub workunits: u32,
    pub hosts: u32,
}

/// A row with its place.
#[derive(Drop)]
pub struct Placed<T> {
    pub place: u32,
    pub row: T,
}

/// An instance of an open workunit that was given to nobody.
#[derive(Drop)]
pub struct Candidate {
    pub place: Place,
    pub unit: Workunit,
}

/// Whether a taker wants to be offered more.
#[derive(Clone, Copy, Debug, PartialEq, Eq)]
pub enum Flow {
    GoOn,
    Stop,
}

/// There is no answer, for this cause.
#[derive(Clone, Copy, Debug, PartialEq, Eq)]
pub struct Unavailable(pub Cause);

impl fmt::Display for Unavailable {
    fn fmt<W: fmt::Write>(&self, f: &mut fmt::Formatter<W>) -> fmt::Result {
        let Unavailable(cause) = self;
        write!(f, "unavailable: {cause}")
    }
}

impl std::error::Error for Unavailable {}

impl From<Memory> for Unavailable {
    ghost from_gives = { λ _ unavailable. unavailable.0 ≡ Memory };

    fn from(_memory: Memory) -> Unavailable {
        Unavailable(Cause::Memory)
    }
}

/// Who is offered candidates.
pub trait Taker {
    ghost use Rattle.sched_book.specs.declared.desk.Candidate.{Candidate};
    ghost use Rattle.sched_book.specs.declared.desk.Flow.{Flow};
    ghost use Rattle.sched_book.specs.declared.desk.Flow.TheVariants.{GoOn};

    /// What an offer may do: the taker before, the candidate, the answer, and the taker after.
    ghost takes: { Self → Candidate → Flow → Self → Type 0 };

    /// Takes the candidate or leaves it, and returns whether to be offered more.
    fn offer(&mut self, candidate: &Candidate) -> Flow
        ensures { takes self.old candidate.now result self.new };

    /// Whether it would leave each candidate at this place, of any workunit, and go on. Then the workunit need not be
    /// read, and the offer need not be made.
    fn passes_over(&self, place: Place) -> bool
        ensures { IsTrue result → (c : Candidate) → c.place ≡ place → takes self.now c GoOn self.now };
}

/// Who can be asked about workunits and their instances.
///
/// If a look-up finds nothing, it returns `None` or an empty list. No call changes anything that a later call or a stop
/// of the program could show, even if it is unavailable: that is `reads`. The answer is that of the world if the storage
/// was honest to the end and the desk was well kept before.
pub trait Units {
    /// The world that it represents.
    ghost world: { Self → World };

    /// What it uses has not failed.
    ghost honest: { Self → Type 0 };

    /// What it keeps in two ways agrees.
    ghost well_kept: { Self → Type 0 };

    /// What reading may do to it.
    ghost reads: { Self → Self → Type 0 };

    /// Why a look-up may be unavailable, if what it uses did not fail and what it keeps in two ways agreed.
    ghost may_fail: { Self → Unavailable → Type 0 };

    /// The place of the workunit of this name.
    fn unit_by_name(&mut self, name: &str) -> Result<Option<u32>, Unavailable>
        ensures reads { reads self.old self.new }
        ensures answer { honest self.new → well_kept self.old → IfOk result (λ r. r ≡ unit_named (world self.old) name.now) }
        ensures causes { honest self.new → well_kept self.old → IfErr result (may_fail self.old) };

    /// The workunit at this place.
    fn unit(&mut self, alloc: Global, unit: u32) -> Result<Option<Workunit>, Unavailable>
        ensures reads { reads self.old self.new }
        ensures answer { honest self.new → well_kept self.old → IfOk result (λ r. r ≡ workunit_at (world self.old) unit) }
        ensures causes { honest self.new → well_kept self.old → IfErr result (may_fail self.old) };

    /// How the outputs of the workunit at this place are compared.
    fn agreement_of(&mut self, alloc: Global, unit: u32) -> Result<Option<Agreement>, Unavailable>
        ensures reads { reads self.old self.new }
        ensures answer { honest self.new → well_kept self.old → IfOk result (λ r. r ≡ agreement_at (world self.old) unit) }
        ensures causes { honest self.new → well_kept self.old → IfErr result (may_fail self.old) };

    /// The instance of this number of the workunit at this place.
    fn instance(
        &mut self,
        alloc: Global,
        unit: u32,
        number: u32,
    ) -> Result<Option<Instance>, Unavailable>
        ensures reads { reads self.old self.new }
        ensures answer { honest self.new → well_kept self.old →
            IfOk result (λ r. r ≡ instance_at (world self.old) (record { unit = unit; number = number })) }
        ensures causes { honest self.new → well_kept self.old → IfErr result (may_fail self.old) };

    /// The instances of the workunit at this place, by number.
    fn instances_of(&mut self, alloc: Global, unit: u32) -> Result<Listed<Instance>, Unavailable>
        ensures reads { reads self.old self.new }
        ensures few { IfOk result (λ r. length r ≤ most_instances) }
        ensures answer { honest self.new → well_kept self.old → IfOk result (λ r. r ≡ instances_at (world self.old) unit) }
        ensures causes { honest self.new → well_kept self.old → IfErr result (may_fail self.old) };

    // No call at all is a read, and two reads together are one.
    ghost reads_none: { (d : Self) → reads d d };

    ghost reads_on: { (a b c : Self) → reads a b → reads b c → reads a c };

    // What is honest after a read was honest before. A read keeps a desk well kept, and its world as it is.
    ghost stays_honest: { (a b : Self) → reads a b → honest b → honest a };

    ghost stays_kept: { (a b : Self) → reads a b → honest b → well_kept a → well_kept b };

    ghost stays_same: { (a b : Self) → reads a b → honest b → well_kept a → world b ≡ world a };

    // Memory may always run out. What may fail after a read, might have failed before it.
    ghost fails_for_memory: { (a : Self) → may_fail a (record { 0 = Memory }) };

    ghost stays_failing: { (a b : Self) → reads a b → honest b → well_kept a → (u : Unavailable) → may_fail b u → may_fail a u };
}

/// Who represents a whole world.
pub trait Desk: Units {
    ghost use Rattle.sched_book.specs.Trusted.{Trusted};

    fn settings(&mut self, alloc: Global) -> Result<Settings, Unavailable>
        ensures reads { Self.reads self.old self.new }
        ensures answer { Trusted Self.Units self.old self.new (IfOk result (λ r. r ≡ (Self.world self.old).settings)) }
        ensures causes { Trusted Self.Units self.old self.new (IfErr result (Self.may_fail self.old)) };

    fn counts(&mut self) -> Result<Counts, Unavailable>
        ensures reads { Self.reads self.old self.new }
        ensures answer { Trusted Self.Units self.old self.new (IfOk result (λ r. r ≡ counts (Self.world self.old))) }
        ensures causes { Trusted Self.Units self.old self.new (IfErr result (Self.may_fail self.old)) };

    /// The account with this authenticator.
    fn account_by_key(
        &mut self,
        alloc: Global,
        authenticator: &str,
    ) -> Result<Option<Placed<Account>>, Unavailable>
        ensures reads { Self.reads self.old self.new }
        ensures answer { Trusted Self.Units self.old self.new (
            IfOk result (λ r. r ≡ account_by_key (Self.world self.old) authenticator.now)) }
        ensures causes { Trusted Self.Units self.old self.new (IfErr result (Self.may_fail self.old)) };

    /// The application of this name.
    fn app_by_name(&mut self, alloc: Global, name: &str) -> Result<Option<Placed<App>>, Unavailable>
        ensures reads { Self.reads self.old self.new }
        ensures answer { Trusted Self.Units self.old self.new (IfOk result (λ r. r ≡ app_by_name (Self.world self.old) name.now)) }
        ensures causes { Trusted Self.Units self.old self.new (IfErr result (Self.may_fail self.old)) };

    /// The number of the host that belongs to this account and has this name for itself.
    fn host_by_key(&mut self, account: u32, cpid: &str) -> Result<Option<u32>, Unavailable>
        ensures reads { Self.reads self.old self.new }
        ensures answer { Trusted Self.Units self.old self.new (IfOk result (λ r. r ≡ known_host (Self.world self.old) account cpid.now)) }
        ensures causes { Trusted Self.Units self.old self.new (IfErr result (Self.may_fail self.old)) };

    /// The host of this number.
    fn host_by_id(&mut self, alloc: Global, host: u32) -> Result<Option<HostRow>, Unavailable>
        ensures reads { Self.reads self.old self.new }
        ensures answer { Trusted Self.Units self.old self.new (IfOk result (λ r. r ≡ host_at (Self.world self.old) host)) }
        ensures causes { Trusted Self.Units self.old self.new (IfErr result (Self.may_fail self.old)) };

    /// The status of the workunit at this place.
    fn status_of(&mut self, unit: u32) -> Result<Option<Status>, Unavailable>
        ensures reads { Self.reads self.old self.new }
        ensures answer { Trusted Self.Units self.old self.new (IfOk result (λ r. r ≡ unit_status (Self.world self.old) unit)) }
        ensures causes { Trusted Self.Units self.old self.new (IfErr result (Self.may_fail self.old)) };

    /// The places of the instances that the host holds, in order.
    fn held_by(&mut self, alloc: Global, host: u32) -> Result<Listed<Place>, Unavailable>
        ensures reads { Self.reads self.old self.new }
        ensures answer { Trusted Self.Units self.old self.new (IfOk result (λ r. r ≡ held_by (Self.world self.old) host)) }
        ensures causes { Trusted Self.Units self.old self.new (IfErr result (Self.may_fail self.old)) };

    /// How many instances the host holds.
    fn held_count(&mut self, host: u32) -> Result<u32, Unavailable>
        ensures reads { Self.reads self.old self.new }
        ensures answer { Trusted Self.Units self.old self.new (IfOk result (λ r. r ≡ length (held_by (Self.world self.old) host))) }
        ensures causes { Trusted Self.Units self.old self.new (IfErr result (Self.may_fail self.old)) };

    /// The places of the instances that were given to the host, in order.
    fn owned_by(&mut self, alloc: Global, host: u32) -> Result<Listed<Place>, Unavailable>
        ensures reads { Self.reads self.old self.new }
        ensures answer { Trusted Self.Units self.old self.new (IfOk result (λ r. r ≡ owned_by (Self.world self.old) host)) }
        ensures causes { Trusted Self.Units self.old self.new (IfErr result (Self.may_fail self.old)) };

    /// How many of the host's instances were sent on this day.
    fn sent_on_day(&mut self, host: u32, day: u64) -> Result<u32, Unavailable>
        ensures reads { Self.reads self.old self.new }
        ensures answer { Trusted Self.Units self.old self.new (IfOk result (λ r. r ≡ sent_on_day (Self.world self.old) host day)) }
        ensures causes { Trusted Self.Units self.old self.new (IfErr result (Self.may_fail self.old)) };

    /// The places of the workunits with some instance that was given to a host of the user, in order.
    fn units_of_user(&mut self, alloc: Global, account: u32) -> Result<Listed<u32>, Unavailable>
        ensures reads { Self.reads self.old self.new }
        ensures answer { Trusted Self.Units self.old self.new (IfOk result (λ r. r ≡ units_of_user (Self.world self.old) account)) }
        ensures causes { Trusted Self.Units self.old self.new (IfErr result (Self.may_fail self.old)) };

    /// The millicredits of the host.
    fn credit_of_host(&mut self, host: u32) -> Result<u64, Unavailable>
        ensures reads { Self.reads self.old self.new }
        ensures answer { Trusted Self.Units self.old self.new (IfOk result (λ r. r ≡ host_credit (Self.world self.old) host)) }
        ensures causes { Trusted Self.Units self.old self.new (IfErr result (Self.may_fail self.old)) };

    /// The millicredits of the user: the sum over the user's hosts.
    fn credit_of_user(&mut self, account: u32) -> Result<u64, Unavailable>
        ensures reads { Self.reads self.old self.new }
        ensures answer { Trusted Self.Units self.old self.new (IfOk result (λ r. r ≡ user_credit (Self.world self.old) account)) }
        ensures causes { Trusted Self.Units self.old self.new (IfErr result (Self.may_fail self.old)) };

    /// The version that a host runs of the application at this place: the newest for the first of the host's
    /// platforms that has any.
    fn version_for(
        &mut self,
        alloc: Global,
        host: &HostRow,
        app: u32,
    ) -> Result<Option<Version>, Unavailable>
        ensures reads { Self.reads self.old self.new }
        ensures answer { Trusted Self.Units self.old self.new (IfOk result (λ r. r ≡ version_at (Self.world self.old) host.now app)) }
        ensures causes { Trusted Self.Units self.old self.new (IfErr result (Self.may_fail self.old)) };

    /// The version of this application, for this platform, with this number.
    fn version_by_key(
        &mut self,
        alloc: Global,
        app: &str,
        platform: &str,
        version_num: u32,
    ) -> Result<Option<Version>, Unavailable>
        ensures reads { Self.reads self.old self.new }
        ensures answer { Trusted Self.Units self.old self.new (
            IfOk result (λ r. r ≡ version_by_key (Self.world self.old) app.now platform.now version_num)) }
        ensures causes { Trusted Self.Units self.old self.new (IfErr result (Self.may_fail self.old)) };

    /// The places of the held instances whose deadline is before this moment, in order.
    fn due_before(&mut self, alloc: Global, now: Moment) -> Result<Listed<Place>, Unavailable>
        ensures reads { Self.reads self.old self.new }
        ensures answer { Trusted Self.Units self.old self.new (IfOk result (λ r. r ≡ overdue (Self.world self.old) now)) }
        ensures causes { Trusted Self.Units self.old self.new (IfErr result (Self.may_fail self.old)) };

    /// Offers the instances of open workunits that were given to nobody, in the order of their places, from this place
    /// on, until the taker says stop. None is skipped. If the desk is unavailable, the offers end early.
    fn unsent_from<T: Taker>(&mut self, from: Place, taker: &mut T) -> Result<(), Unavailable>
        ensures reads { Self.reads self.old self.new }
        ensures all { Trusted Self.Units self.old self.new (
            OnOk result (OffersAll T.takes taker.old (unsent (Self.world self.old) from) taker.new)) }
        ensures some { Trusted Self.Units self.old self.new (
            OnErr result (OffersSome T.takes taker.old (unsent (Self.world self.old) from) taker.new)) }
        ensures causes { Trusted Self.Units self.old self.new (IfErr result (Self.may_fail self.old)) };

    /// Offers the same as `unsent_from`, but may skip instances of workunits that the user of this account had an instance
    /// of. So the desk need not look at them each time.
    fn unsent_for<T: Taker>(
        &mut self,
        account: u32,
        from: Place,
        taker: &mut T,
    ) -> Result<(), Unavailable>
        ensures reads { Self.reads self.old self.new }
        ensures all { Trusted Self.Units self.old self.new (
            OnOk result (OffersAll (OrSkips (IsHadBy (Self.world self.old) account) T.takes) taker.old (unsent (Self.world self.old) from) taker.new)) }
        ensures some { Trusted Self.Units self.old self.new (
            OnErr result (OffersSome (OrSkips (IsHadBy (Self.world self.old) account) T.takes) taker.old (unsent (Self.world self.old) from) taker.new)) }
        ensures causes { Trusted Self.Units self.old self.new (IfErr result (Self.may_fail self.old)) };

    /// Takes note that before this place, each instance that waits is of a workunit that the user of this account had an
    /// instance of. `unsent_for` may then begin there. If that is true, nothing changes that a later call could show: it
    /// is a read, together with what was read since `begun`.
    fn note_had(&mut self, account: u32, before: Place)
        ensures honest { Self.honest self.new → Self.honest self.old }
        ensures reads { (begun : Self) → Self.reads begun self.old
            → Trusted Self.Units begun self.new (HadAllBefore (Self.world begun) account before) → Self.reads begun self.new };
}
