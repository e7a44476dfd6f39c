//! The rows of a world and of an import.

ghost use Rattle.std.specs.Prelude.{◌≡◌, IfOk};
ghost use Rattle.sched_book.specs.Classes.{rule_after};

use crate::by_place::copy_of;
use texts::{Listed, Memory, Same, Text};

/// How two outputs of an application are compared.
#[derive(Clone, Copy, Debug, PartialEq, Eq)]
pub enum Agreement {
    /// Equal texts.
    Exact,
    /// Equal texts, or two whole numbers that are at most this far apart.
    Within(u32),
}

/// A volunteer's account.
#[derive(Clone, Drop)]
pub struct Account {
    /// Its secret word, by which a host shows that it belongs to the account.
    pub authenticator: Text,
    /// The volunteer's name, 1 to 64 bytes.
    pub name: Text,
}

/// An application of the project.
#[derive(Clone, Drop)]
pub struct App {
    pub name: Text,
    pub agreement: Agreement,
}

/// A version of an application for a platform.
#[derive(Clone, Drop)]
pub struct Version {
    /// The application's name.
    pub app: Text,
    pub platform: Text,
    /// 1 to 1,000,000.
    pub version_num: u32,
    /// The class of the version, a word. A workunit may keep to the versions of one class.
    pub class: Text,
}

/// Which versions may do a workunit. This is this profile's own rule. BOINC's homogeneous redundancy has classes of
/// hosts, and its homogeneous app version keeps to one version.
#[derive(Clone, PartialEq, Eq, Drop)]
pub enum ClassRule {
    /// Versions of any class: the workunit is not marked.
    Any,
    /// It is marked, and takes the class of the version with which its first instance is granted.
    OfFirst,
    /// It is marked, and keeps to versions of this class.
    Only(Text),
}

impl ClassRule {
    /// The rule after a version of this class was granted. If the workunit is marked, it takes the class with its first
    /// one, and then keeps it.
    pub fn after(&self, class: &Text) -> Result<ClassRule, Memory>
        ensures { IfOk result (λ after. after ≡ rule_after self.now class.now) }
    {
        match self {
            ClassRule::Any => Ok(ClassRule::Any),
            ClassRule::OfFirst => Ok(ClassRule::Only(copy_of(class)?)),
            ClassRule::Only(own) => Ok(ClassRule::Only(copy_of(own)?)),
        }
    }
}

/// A workunit: a piece of work that is done several times, once by each of its instances.
#[derive(Clone, Drop)]
pub struct Workunit {
    pub name: Text,
    /// The application's name.
    pub app: Text,
    /// How many successes a decision needs: 1 to 100.
    pub min_quorum: u32,
    /// How many instances it begins with: `min_quorum` to 100.
    pub target_nresults: u32,
    /// It fails with more errors than this: up to 100.
    pub max_error_results: u32,
    /// It fails if it would have more instances than this: `target_nresults` to 100.
    pub max_total_results: u32,
    /// It fails with more successes than this and no decision: up to 100.
    pub max_success_results: u32,
    /// Seconds from the sending of a job to its deadline: 1 to 100,000,000.
    pub delay_bound: u32,
    /// Floating-point operations that a job takes: 1 to 10^18.
    pub rsc_fpops_est: u64,
    /// Bytes of memory that a job takes: up to 10^18.
    pub rsc_memory_bound: u64,
    /// Bytes of disk that a job takes: up to 10^18.
    pub rsc_disk_bound: u64,
    /// Millicredits for each valid result: up to 100,000,000.
    pub credit: u32,
    /// Which versions may do it.
    pub class_rule: ClassRule,
}

/// A host, with what it last said of itself.
#[derive(Clone, Drop)]
pub struct HostRow {
    /// The place of the account that it belongs to.
    pub account: u32,
    /// The host's own name for itself.
    pub cpid: Text,
    /// Floating-point operations a second: 1 to 10^18.
    pub p_fpops: u64,
    /// Bytes of memory: up to 10^18.
    pub m_nbytes: u64,
    /// Bytes of free disk: up to 10^18.
    pub d_free: u64,
    /// Its platforms, the preferred one first: 1 to 8.
    pub platforms: Listed<Text>,
    /// The most jobs that it may get on one day: 1 to the setting `daily_result_quota`.
    pub quota: u32,
}

/// The rows of one import.
#[derive(Clone, Drop)]
pub enum Rows {
    Accounts(Listed<Account>),
    Apps(Listed<App>),
    Versions(Listed<Version>),
    Workunits(Listed<Workunit>),
}

impl Same for Account {
    ghost use Rattle.std.proofs.Common.{rules};

    ghost exact = { λ account copy is_copy. Prim.search rules };
}

impl Same for App {
    ghost use Rattle.std.proofs.Common.{rules};

    ghost exact = { λ app copy is_copy. Prim.search rules };
}

impl Same for Version {
    ghost use Rattle.std.proofs.Common.{rules};

    ghost exact = { λ version copy is_copy. Prim.search rules };
}

impl Same for ClassRule {
    ghost use Rattle.std.proofs.Common.{rules};

    ghost exact = { λ rule copy is_copy. Prim.search rules };
}

impl Same for Workunit {
    ghost use Rattle.std.proofs.Common.{rules};

    ghost exact = { λ workunit copy is_copy. Prim.search rules };
}

impl Same for HostRow {
    ghost use Rattle.std.proofs.Common.{rules};

    ghost exact = { λ host copy is_copy. Prim.search rules };
}

impl Same for Rows {
    ghost use Rattle.std.proofs.Common.{rules};

    ghost exact = { λ rows copy is_copy. Prim.search rules };
}
