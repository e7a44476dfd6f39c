//! The rows of the tables, each with its columns in order, and rows to put.

ghost use Rattle.std.specs.Prelude.{◌≡◌, IfOk};

use std::alloc::Global;
use std::marker::Model;
use texts::{Listed, Memory, Text};

/// The value of a setting.
#[derive(PartialEq, Drop)]
pub enum SettingValue {
    Number(u32),
    Word(Text),
}

#[derive(PartialEq, Drop)]
pub struct StoredSetting {
    pub name: Text,
    pub value: SettingValue,
}

#[derive(PartialEq, Drop)]
pub struct StoredAccount {
    pub id: u32,
    pub auth: Text,
    pub name: Text,
}

#[derive(PartialEq, Drop)]
pub struct StoredApp {
    pub id: u32,
    pub name: Text,
    /// How far two outputs may be apart. `None` if they must be equal.
    pub agreement: Option<u32>,
}

#[derive(PartialEq, Drop)]
pub struct StoredVersion {
    pub id: u32,
    pub app_id: u32,
    pub platform: Text,
    pub num: u32,
}

#[derive(PartialEq, Drop)]
pub struct StoredUnit {
    pub id: u32,
    pub name: Text,
    pub app_id: u32,
    pub min_quorum: u32,
    pub target_nresults: u32,
    pub max_error_results: u32,
    pub max_total_results: u32,
    pub max_success_results: u32,
    pub delay_bound: u32,
    pub rsc_fpops_est: i64,
    pub rsc_memory_bound: i64,
    pub rsc_disk_bound: i64,
    pub credit: u32,
    /// 0 open, 1 done, 2, 3 and 4 failed: errors, successes, total.
    pub status: u32,
}

#[derive(PartialEq, Drop)]
pub struct StoredHost {
    pub id: u32,
    pub account_id: u32,
    pub cpid: Text,
    /// The platforms, joined by commas.
    pub platforms: Text,
    pub fpops: i64,
    pub memory: i64,
    pub disk: i64,
    pub quota: u32,
    /// How many instances it holds.
    pub held: u32,
    /// In millicredits.
    pub credit: i64,
}

#[derive(PartialEq, Drop)]
pub struct StoredInstance {
    pub unit_id: u32,
    pub num: u32,
    pub host_id: Option<u32>,
    pub sent: Option<i64>,
    pub deadline: Option<i64>,
    /// 0 none, 1 late, 2 dropped.
    pub lapse: u32,
    /// 1 a success, 3 a client error.
    pub outcome: Option<u32>,
    pub output: Option<Text>,
    /// Its place among the judged reports of its unit.
    pub place: Option<u32>,
    /// Whether it is waiting to be sent: it has no owner, and its unit is open.
    pub queued: bool,
}

/// A kept call of a host, in one of its slots.
#[derive(PartialEq, Drop)]
pub struct StoredCall {
    pub host_id: u32,
    /// 0 to 3.
    pub slot: u32,
    pub seqno: u32,
    pub text: Text,
    pub reply: Text,
}

#[derive(Drop)]
pub struct StoredBatch {
    pub kind: Text,
    pub name: Text,
    pub text: Listed<u8>,
    pub answer: Text,
}

impl PartialEq for StoredBatch {
    ghost use Rattle.std.specs.Str.{bytes_eq};
    ghost use Rattle.std.specs.Ordering.{on, eq_of_both};
    ghost use Rattle.std.specs.Cmp.Rules.{comparing};
    ghost use Rattle.std.proofs.Common.{rules};

    ghost eq = { eq_of_both (on (λ b. b.kind) bytes_eq) (eq_of_both (on (λ b. b.name) bytes_eq) (eq_of_both (on (λ b. b.text) bytes_eq) (on (λ b. b.answer) bytes_eq))) };

    ghost laws = { Prim.search (comparing, rules) };

    fn eq(&self, other: &StoredBatch) -> bool {
        self.kind == other.kind
            && self.name == other.name
            && self.text.as_slice() == other.text.as_slice()
            && self.answer == other.answer
    }
}

/// The class of a version.
#[derive(PartialEq, Drop)]
pub struct StoredVersionClass {
    pub version_id: u32,
    pub class: Text,
}

/// Whether a workunit is marked, and the class that it keeps to, if it already has one.
#[derive(PartialEq, Drop)]
pub struct StoredUnitMark {
    pub unit_id: u32,
    pub marked: bool,
    pub class: Option<Text>,
}

/// A row of some table.
#[derive(Drop)]
pub enum StoredRow {
    Setting(StoredSetting),
    Account(StoredAccount),
    App(StoredApp),
    Version(StoredVersion),
    Unit(StoredUnit),
    Host(StoredHost),
    Instance(StoredInstance),
    Kept(StoredCall),
    Batch(StoredBatch),
    VersionClass(StoredVersionClass),
    UnitMark(StoredUnitMark),
}

/// A row to put at its key, and whether it replaces a stored row. The second fact only decides which statement is tried
/// first. What is stored afterwards does not depend on it, so contracts see only the row.
#[derive(Drop)]
pub struct RowChange {
    row: StoredRow,
    is_update: bool,
}

impl Model for RowChange {
    ghost use Rattle.table_meaning.specs.declared.rows.StoredRow.{StoredRow};

    ghost Value = { StoredRow };

    ghost view = { λ c. c.row };
}

impl RowChange {
    /// A row whose key has no stored row yet.
    pub fn insert(row: StoredRow) -> RowChange
        ensures { result ≡ row }
    {
        RowChange {
            row,
            is_update: false,
        }
    }

    /// A row that replaces a stored one.
    pub fn update(row: StoredRow) -> RowChange
        ensures { result ≡ row }
    {
        RowChange {
            row,
            is_update: true,
        }
    }

    /// Makes an insert of each of these rows. None of their keys has a stored row yet.
    pub fn inserts(alloc: Global, rows: Listed<StoredRow>) -> Result<Listed<RowChange>, Memory>
        ensures { IfOk result (λ changes. changes ≡ rows) }
    {
        let mut changes = Listed::new(alloc);
        for row in rows.into_vec() {
            changes.push(RowChange::insert(row))?;
        }
        Ok(changes)
    }

    pub fn row(&self) -> &StoredRow
        ensures { result.now ≡ self.now }
    {
        &self.row
    }

    pub fn is_update(&self) -> bool {
        self.is_update
    }
}
