//! The settings of a project, read from a TOML text.

ghost use Rattle.std.specs.Prelude.{◌≡◌, ℕ, Ok, option_map, IfOk, IfErr, List};
ghost use Rattle.std.specs.List.{list_all};
ghost use Rattle.std.specs.String.{string_bytes};
ghost use Rattle.std.specs.BTreeMap.{keys};
ghost use Rattle.toml.specs.Errors.{IsMemory};
ghost use Rattle.toml.specs.View.{table_view};
ghost use Rattle.sched_book.specs.Limits.{AreSettingsInLimits};
ghost use Rattle.sched_book.specs.declared.settings.Settings.{Settings};
ghost use Rattle.office_files.specs.SettingsTexts as spec;

use sched_book::Settings;
use sched_book::limits::{
    LEAST_KEY_BYTES, MOST_HOSTS, MOST_IN_PROGRESS, MOST_QUOTA, MOST_REQUEST_DELAY, MOST_TO_SEND,
};
use std::alloc::Global;
use std::error::Error;
use std::fmt;
use texts::{Memory, Text, is_word};
use toml::Table;

/// Why a text is no text of settings.
#[derive(Clone, Copy, Debug, PartialEq, Eq)]
pub enum SettingsFault {
    /// It is no TOML text, or not a table of exactly the seven settings, each of its kind and in its range.
    Bad,
    /// There is no memory.
    Memory,
}

impl fmt::Display for SettingsFault {
    fn fmt<W: fmt::Write>(&self, f: &mut fmt::Formatter<W>) -> fmt::Result {
        match self {
            SettingsFault::Bad => write!(f, "no settings"),
            SettingsFault::Memory => write!(f, "no memory"),
        }
    }
}

impl Error for SettingsFault {}

impl From<Memory> for SettingsFault {
    ghost use Rattle.office_files.specs.declared.settings.SettingsFault.TheVariants as fault;

    ghost from_gives = { λ _ given. given ≡ fault.Memory };

    fn from(_memory: Memory) -> SettingsFault {
        SettingsFault::Memory
    }
}

impl From<toml::de::Error> for SettingsFault {
    ghost use Rattle.office_files.specs.declared.settings.SettingsFault.TheVariants as fault;

    ghost from_gives = { λ error given. given ≡ fault.Bad → ¬ IsMemory error };

    fn from(error: toml::de::Error) -> SettingsFault {
        if error.is_memory() {
            SettingsFault::Memory
        } else {
            SettingsFault::Bad
        }
    }
}

/// Reads the settings of a TOML text: a table of exactly the seven keys, each with a value of its kind and in its
/// range. Any other text is [`SettingsFault::Bad`].
pub fn settings_of(alloc: Global, text: &str) -> Result<Settings, SettingsFault>
    ensures ok { IfOk result (spec.HasSettings text.now) }
    ensures range { IfOk result AreSettingsInLimits }
    ensures bad { IfErr result (λ e. e ≡ SettingsFault.Bad → (s : Settings) → ¬ spec.HasSettings text.now s) }
{
    let table = toml::table_from_str(alloc, text)?;
    settings_in(alloc, &table)
}

/// The settings of a table.
fn settings_in(alloc: Global, table: &Table) -> Result<Settings, SettingsFault>
    ensures told { IfOk result (spec.AreSettingsOf (table_view table.now)) }
    ensures bad { IfErr result (λ e. e ≡ SettingsFault.Bad → (s : Settings) → ¬ spec.AreSettingsOf (table_view table.now) s) }
{
    if !has_only_settings(table) {
        return Err(SettingsFault::Bad);
    }
    Ok(Settings {
        daily_result_quota: number_at(table, "daily_result_quota", 1, MOST_QUOTA)?,
        max_hosts: number_at(table, "max_hosts", 1, MOST_HOSTS as u32)?,
        max_wus_in_progress: number_at(table, "max_wus_in_progress", 1, MOST_IN_PROGRESS)?,
        max_wus_to_send: number_at(table, "max_wus_to_send", 1, MOST_TO_SEND)?,
        request_delay: number_at(table, "request_delay", 0, MOST_REQUEST_DELAY)?,
        resend_lost_results: boolean_at(table, "resend_lost_results").ok_or(SettingsFault::Bad)?,
        operator_key: operator_key(alloc, table)?,
    })
}

/// The operator's key.
fn operator_key(alloc: Global, table: &Table) -> Result<Text, SettingsFault>
    ensures told { IfOk result (spec.IsOperatorKey (table_view table.now)) }
    ensures bad { IfErr result (λ e. e ≡ SettingsFault.Bad → (key : List ℕ) → ¬ spec.IsOperatorKey (table_view table.now) key) }
{
    match string_at(table, "operator_key") {
        Some(key) if LEAST_KEY_BYTES <= key.len() && is_word(key.as_bytes()) => {
            Ok(Text::copied(alloc, key)?)
        }
        _ => Err(SettingsFault::Bad),
    }
}

/// Whether a table has only keys of settings.
fn has_only_settings(table: &Table) -> bool
    ensures { result ≡ list_all (λ key. spec.is_setting (string_bytes key)) (keys table.now) }
{
    table.keys().all(|key| is_setting(key.as_str()))
}

/// Whether the key is that of a setting.
fn is_setting(key: &str) -> bool
    ensures { result ≡ spec.is_setting key.now }
{
    matches!(
        key,
        "daily_result_quota"
            | "max_hosts"
            | "max_wus_in_progress"
            | "max_wus_to_send"
            | "operator_key"
            | "request_delay"
            | "resend_lost_results"
    )
}

/// The number from `least` to `most` at a key.
fn number_at(table: &Table, key: &str, least: u32, most: u32) -> Result<u32, SettingsFault>
    ensures told { IfOk result (spec.IsNumberAt key.now least most (table_view table.now)) }
    ensures all { (n : ℕ) → spec.IsNumberAt key.now least most (table_view table.now) n → result ≡ Ok n }
{
    let Some(number) = integer_at(table, key) else {
        return Err(SettingsFault::Bad);
    };
    match u32::try_from(number) {
        Ok(number) if least <= number && number <= most => Ok(number),
        _ => Err(SettingsFault::Bad),
    }
}

/// The integer at a key.
fn integer_at(table: &Table, key: &str) -> Option<i64>
    ensures { result ≡ spec.integer_at key.now (table_view table.now) }
{
    table.get(key)?.as_integer()
}

/// The string at a key.
fn string_at<'a>(table: &'a Table, key: &str) -> Option<&'a str>
    ensures { option_map (λ text. text.now) result ≡ spec.string_at key.now (table_view table.now) }
{
    table.get(key)?.as_str()
}

/// The boolean at a key.
fn boolean_at(table: &Table, key: &str) -> Option<bool>
    ensures { result ≡ spec.boolean_at key.now (table_view table.now) }
{
    table.get(key)?.as_bool()
}
