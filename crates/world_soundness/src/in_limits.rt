//! Whether values are in the ranges that a world's values have, each kind by itself. For a whole world, and for a row
//! that is decoded alone.

ghost use Rattle.std.specs.Prelude.{◌≤◌, ◌↔◌, IsTrue, IfSome};
ghost use Rattle.sched_book.specs.Classes.{class_of};
ghost use Rattle.sched_book.specs.Limits.{distance_of, AreSettingsInLimits, IsAccountInLimits, IsAppInLimits, IsVersionInLimits, IsUnitInLimits, IsHostInLimits, IsInstanceInLimits};
ghost use Rattle.rpc_records.specs.Members.{is_output};
ghost use Rattle.texts.specs.Words.{IsWord};

use sched_book::limits::{
    LEAST_KEY_BYTES, MOST_AMOUNT, MOST_CREDIT, MOST_DELAY, MOST_DISTANCE, MOST_HOSTS,
    MOST_IN_PROGRESS, MOST_INSTANCES, MOST_QUOTA, MOST_REQUEST_DELAY, MOST_TO_SEND,
    MOST_VERSION_NUM,
};
use sched_book::{
    Account, Agreement, App, ClassRule, HostRow, Instance, Outcome, Settings, Version, Workunit,
};
use texts::{Text, is_word};

/// The most bytes of a volunteer's name.
const MOST_NAME_BYTES: usize = 64;

/// The most bytes of an output.
const MOST_OUTPUT_BYTES: usize = 1_024;

/// The most platforms of a host.
const MOST_PLATFORMS: usize = 8;

/// The last deadline, in seconds since 1970-01-01T00:00:00Z.
const LAST_DEADLINE: u64 = 250_100_000_000;

/// The most instances of a workunit, in the type of its counts.
const MOST_IN_UNIT: u32 = MOST_INSTANCES as u32;

/// Whether a text is a word: 1 to 64 ASCII letters, digits, `_`, `-` or `.`.
fn is_word_text(text: &Text) -> bool
    ensures { IsTrue result ↔ IsWord text.now }
{
    is_word(text.as_str().as_bytes())
}

/// Whether each setting is in range, including the operator's key.
pub fn are_settings_in_limits(settings: &Settings) -> bool
    ensures { IsTrue result ↔ AreSettingsInLimits settings.now }
{
    1 <= settings.daily_result_quota
        && settings.daily_result_quota <= MOST_QUOTA
        && 1 <= settings.max_hosts
        && settings.max_hosts as usize <= MOST_HOSTS
        && 1 <= settings.max_wus_in_progress
        && settings.max_wus_in_progress <= MOST_IN_PROGRESS
        && 1 <= settings.max_wus_to_send
        && settings.max_wus_to_send <= MOST_TO_SEND
        && settings.request_delay <= MOST_REQUEST_DELAY
        && LEAST_KEY_BYTES <= settings.operator_key.len()
        && is_word_text(&settings.operator_key)
}

/// Whether an account has a word for its authenticator, and a name of 1 to 64 bytes.
pub fn is_account_in_limits(account: &Account) -> bool
    ensures { IsTrue result ↔ IsAccountInLimits account.now }
{
    is_word_text(&account.authenticator)
        && !account.name.is_empty()
        && account.name.len() <= MOST_NAME_BYTES
}

/// Whether the distance that outputs may have and still agree is in range.
fn is_agreement_in_limits(agreement: Agreement) -> bool
    ensures { IsTrue result ↔ (distance_of agreement ≤ MOST_DISTANCE) }
{
    match agreement {
        Agreement::Exact => true,
        Agreement::Within(distance) => u64::from(distance) <= MOST_DISTANCE,
    }
}

/// Whether an application's name and the way its outputs are compared are in range.
pub fn is_app_in_limits(app: &App) -> bool
    ensures { IsTrue result ↔ IsAppInLimits app.now }
{
    is_word_text(&app.name) && is_agreement_in_limits(app.agreement)
}

/// Whether the names of a version, its number and its class are in range.
pub fn is_version_in_limits(version: &Version) -> bool
    ensures { IsTrue result ↔ IsVersionInLimits version.now }
{
    is_word_text(&version.app)
        && is_word_text(&version.platform)
        && 1 <= version.version_num
        && version.version_num <= MOST_VERSION_NUM
        && is_word_text(&version.class)
}

/// Whether the class that a workunit keeps to, if it has one, is a word.
fn is_rule_in_limits(rule: &ClassRule) -> bool
    ensures { IsTrue result ↔ IfSome (class_of rule.now) IsWord }
{
    match rule {
        ClassRule::Any | ClassRule::OfFirst => true,
        ClassRule::Only(class) => is_word_text(class),
    }
}

/// Whether the names, the counts, the amounts and the class of a workunit are in range.
pub fn is_unit_in_limits(unit: &Workunit) -> bool
    ensures { IsTrue result ↔ IsUnitInLimits unit.now }
{
    is_word_text(&unit.name)
        && is_word_text(&unit.app)
        && 1 <= unit.min_quorum
        && unit.min_quorum <= unit.target_nresults
        && unit.target_nresults <= unit.max_total_results
        && unit.max_total_results <= MOST_IN_UNIT
        && unit.max_error_results <= MOST_IN_UNIT
        && unit.max_success_results <= MOST_IN_UNIT
        && 1 <= unit.delay_bound
        && unit.delay_bound <= MOST_DELAY
        && 1 <= unit.rsc_fpops_est
        && unit.rsc_fpops_est <= MOST_AMOUNT
        && unit.rsc_memory_bound <= MOST_AMOUNT
        && unit.rsc_disk_bound <= MOST_AMOUNT
        && unit.credit <= MOST_CREDIT
        && is_rule_in_limits(&unit.class_rule)
}

/// Whether what a host said of itself is in range, and its quota is 1 to `most_quota`.
pub fn is_host_in_limits(most_quota: u32, host: &HostRow) -> bool
    ensures { IsTrue result ↔ IsHostInLimits most_quota host.now }
{
    let platforms = host.platforms.as_slice();
    is_word_text(&host.cpid)
        && 1 <= host.p_fpops
        && host.p_fpops <= MOST_AMOUNT
        && host.m_nbytes <= MOST_AMOUNT
        && host.d_free <= MOST_AMOUNT
        && 1 <= host.quota
        && host.quota <= most_quota
        && !platforms.is_empty()
        && platforms.len() <= MOST_PLATFORMS
        && platforms.iter().all(is_word_text)
}

/// Whether a reported output and the place of the report are in range.
fn is_outcome_in_limits(outcome: &Outcome) -> bool
    ensures { IsTrue result ↔ IsTrue (is_output outcome.now.output) × IfSome outcome.now.place (λ place. (1 ≤ place) × (place ≤ MOST_INSTANCES)) }
{
    outcome.output.len() <= MOST_OUTPUT_BYTES
        && match outcome.place {
            None => true,
            Some(place) => 1 <= place && place <= MOST_IN_UNIT,
        }
}

/// Whether the deadline of an instance and its report are in range. A [`Moment`](sched_book::Moment) always is.
pub fn is_instance_in_limits(instance: &Instance) -> bool
    ensures { IsTrue result ↔ IsInstanceInLimits instance.now }
{
    instance
        .owner
        .is_none_or(|owner| owner.deadline <= LAST_DEADLINE)
        && instance.report.as_ref().is_none_or(is_outcome_in_limits)
}
