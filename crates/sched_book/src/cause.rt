//! What failed if there is no answer: memory, the storage, a stored row, the clock, or an invariant of the program.

use std::fmt;

/// A failure of the storage, by the error code of the SQLite library.
#[derive(Clone, Copy, Debug, PartialEq, Eq)]
pub enum StorageFault {
    DiskFull,
    InputOutput,
    /// An earlier failure closed the database.
    Closed,
    Corrupt,
    NotADatabase,
    CannotOpen,
    Busy,
    TooBig,
    Interrupted,
    /// A row breaks a constraint of its table.
    Constraint,
    /// A statement or a transaction was refused for another reason.
    Statement,
}

impl fmt::Display for StorageFault {
    fn fmt<W: fmt::Write>(&self, f: &mut fmt::Formatter<W>) -> fmt::Result {
        f.write_str(match self {
            StorageFault::DiskFull => "the disk is full",
            StorageFault::InputOutput => "disk I/O error",
            StorageFault::Closed => "an earlier failure of the disk closed the file",
            StorageFault::Corrupt => "the file is corrupt",
            StorageFault::NotADatabase => "the file is not a database",
            StorageFault::CannotOpen => "the file can't be opened",
            StorageFault::Busy => "the file is in use",
            StorageFault::TooBig => "a text or a row is too big",
            StorageFault::Interrupted => "the limit on the steps of a statement was reached",
            StorageFault::Constraint => "a row breaks a constraint of its table",
            StorageFault::Statement => "a statement was refused",
        })
    }
}

/// A fact that the code relies on and tests. Its text begins with the function that tests it.
#[derive(Clone, Copy, Debug, PartialEq, Eq)]
pub enum Invariant {
    ListsOfDesk,
    InstancesOnWorkingSet,
    AppOfUnit,
    ReplacedHost,
    HostBeforeEdits,
    ReadBeforePut,
    ReadBeforeClass,
    NumberOfHost,
    StopsOfChoice,
    Growth,
    LateInstance,
    JobsOfHost,
    SecondsSentAgain,
    GrantedInstance,
    CreditOfHost,
    CreditOfUser,
    RowsOfImport,
    CallingHost,
    LateInstances,
    CreditOfStatement,
    TextOfStatement,
    DateOfMoment,
    WrittenNumber,
    InstancesOfStatus,
    TotalOfHost,
    NumberOfInstance,
    NumberOfRow,
    SumOfTotals,
    CountedInstances,
    InstancesToPut,
    AppOfRow,
    NextNumber,
    InstancesOfFirstStatus,
    MovedTotal,
    WordsOfEdits,
    HostWithoutRow,
    ReadCreditOfUser,
    OfferedUnit,
    PagesOfOffers,
    MarkOfUnit,
    ReadInstances,
    PlaceOfApp,
    ClassOfVersion,
    EndOfPage,
    BoundsOfDay,
    BoundsOfDeadline,
    SentInstances,
    RowsOfTable,
    NoTransaction,
    RowsOfFill,
    NumberOfUnit,
    KnownSchema,
}

impl fmt::Display for Invariant {
    fn fmt<W: fmt::Write>(&self, f: &mut fmt::Formatter<W>) -> fmt::Result {
        f.write_str(match self {
            Invariant::ListsOfDesk => "sched_book::ListDesk::of: each list fits its table",
            Invariant::InstancesOnWorkingSet =>
                "call_working_set::Instances::put: a workunit has at most 100 instances",
            Invariant::AppOfUnit =>
                "call_working_set::ask_unit_state: the application of a workunit exists",
            Invariant::ReplacedHost => "call_working_set::put_host: the host exists",
            Invariant::HostBeforeEdits =>
                "call_working_set::add_host: a new host comes before other edits",
            Invariant::ReadBeforePut =>
                "call_working_set::put_on_unit_state: the workunit was read",
            Invariant::ReadBeforeClass =>
                "call_working_set::class_on_unit_state: the workunit was read",
            Invariant::NumberOfHost => "call_working_set::put_row: a new host gets the next number",
            Invariant::StopsOfChoice =>
                "job_choice::offer_all: a choice stops at most once for each instance",
            Invariant::Growth =>
                "quorum_credit::push_growth: a workunit grows to at most 100 instances",
            Invariant::LateInstance => "quorum_credit::put_late: a host holds the late instance",
            Invariant::JobsOfHost => "sched_machine::held_now: the jobs of a host fit 32 bits",
            Invariant::SecondsSentAgain =>
                "sched_machine::seconds_of: the seconds of jobs sent again fit 64 bits",
            Invariant::GrantedInstance =>
                "sched_machine::give_one: nobody holds the granted instance",
            Invariant::CreditOfHost =>
                "sched_machine::host_total: the credit of a host fits 64 bits",
            Invariant::CreditOfUser =>
                "sched_machine::user_total: the credit of a user fits 64 bits",
            Invariant::RowsOfImport =>
                "sched_machine::row_count: the rows of an import fit 32 bits",
            Invariant::CallingHost => "sched_machine::renew_host: the calling host exists",
            Invariant::LateInstances => "sched_machine::step_tick: the late instances fit 32 bits",
            Invariant::CreditOfStatement =>
                "office_files::write_statement: the credit of a host fits 64 bits",
            Invariant::TextOfStatement => "office_files::text_of_lines: a statement is UTF-8",
            Invariant::DateOfMoment => "office_files::civil_text: a moment has a date",
            Invariant::WrittenNumber => "table_worlds::written: a number fits 63 bits",
            Invariant::InstancesOfStatus =>
                "table_worlds::status_of: a workunit has at most 100 instances",
            Invariant::TotalOfHost => "table_worlds::host_at: each host has a total",
            Invariant::NumberOfInstance =>
                "table_worlds::are_instance_rows: the number of an instance fits 32 bits",
            Invariant::NumberOfRow => "table_worlds::number_of: the number of a row fits 32 bits",
            Invariant::SumOfTotals =>
                "table_worlds::Total::plus: the jobs and the credit of a host fit their bits",
            Invariant::CountedInstances =>
                "table_worlds::count_unit: a workunit has at most 100 instances",
            Invariant::InstancesToPut =>
                "table_changes::push_instances_of: the instances of a workunit fit 32 bits",
            Invariant::AppOfRow => "table_changes::known_app: the application of a new row exists",
            Invariant::NextNumber => "table_changes::next: the number of a new row fits 32 bits",
            Invariant::InstancesOfFirstStatus =>
                "table_changes::first_status: a new workunit has at most 100 instances",
            Invariant::MovedTotal =>
                "table_changes::moved: the total of a host is at least its share",
            Invariant::WordsOfEdits =>
                "table_changes::rows_of_call: the texts of an edit are words",
            Invariant::HostWithoutRow =>
                "table_desk::test_none_given: a host with no row was given no instance",
            Invariant::ReadCreditOfUser => "table_desk::sum_of: the credit of a user fits 64 bits",
            Invariant::OfferedUnit =>
                "table_desk::offer_at: the workunit of a waiting instance exists",
            Invariant::PagesOfOffers =>
                "table_desk::offer_pages: the pages of waiting instances end",
            Invariant::MarkOfUnit => "table_desk::unit_at: each workunit has a mark",
            Invariant::ReadInstances =>
                "table_desk::instances_at: a workunit has at most 100 instances",
            Invariant::PlaceOfApp =>
                "table_desk::place_of: the number of an application fits 32 bits",
            Invariant::ClassOfVersion => "table_desk::version_with: each version has a class",
            Invariant::EndOfPage =>
                "table_desk::next_page: the number after an instance fits 32 bits",
            Invariant::BoundsOfDay => "table_desk::sent_on_day: the ends of a day fit 63 bits",
            Invariant::BoundsOfDeadline => "table_desk::due_before: a moment fits 63 bits",
            Invariant::SentInstances =>
                "table_rows::sent_between: the instances of a host fit 32 bits",
            Invariant::RowsOfTable => "table_rows::visit_rows: the rows of a table end",
            Invariant::NoTransaction =>
                "table_rows or table_upgrades: no transaction is open before a new one",
            Invariant::RowsOfFill => "table_upgrades::fill_all: the rows of a fill end",
            Invariant::NumberOfUnit =>
                "table_reading::test_units: the number of a workunit fits 32 bits",
            Invariant::KnownSchema =>
                "table_rows::OpenFault: the schema of open tables stays the same",
        })
    }
}

/// What failed if there is no answer.
#[derive(Clone, Copy, Debug, PartialEq, Eq)]
pub enum Cause {
    /// Memory ran out.
    Memory,
    /// The storage failed.
    Storage(StorageFault),
    /// A stored row does not have the form of its table, or has a value out of its range.
    BadRow,
    /// The clock can't be read, or shows a moment out of its range.
    Clock,
    /// Stored rows contradict each other: this fact about them does not hold.
    Spoiled(Invariant),
    /// A fact that the code relies on does not hold.
    Broken(Invariant),
}

impl fmt::Display for Cause {
    fn fmt<W: fmt::Write>(&self, f: &mut fmt::Formatter<W>) -> fmt::Result {
        match self {
            Cause::Memory => write!(f, "out of memory"),
            Cause::Storage(fault) => write!(f, "{fault}"),
            Cause::BadRow => write!(f, "a stored row has a wrong form or a value out of range"),
            Cause::Clock => write!(f, "the clock can't be read"),
            Cause::Spoiled(invariant) => {
                write!(f, "stored rows contradict each other, {invariant}")
            }
            Cause::Broken(invariant) => write!(f, "broken invariant, {invariant}"),
        }
    }
}
