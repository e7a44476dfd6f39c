//! The files of a project's office: imports and statements as CSV, and settings as TOML.
//!
//! An operator brings accounts, applications, versions and workunits as texts of comma-separated values (RFC 4180), one
//! kind in each text. [`read_accounts`], [`read_apps`], [`read_versions`] and [`read_workunits`] read them, and
//! [`check_rows`] checks the rows against those that exist at a desk.
//!
//! The first record is the header, row 0. Each further one is a data row of as many fields. A byte order mark and empty
//! lines are ignored; CR, LF and CR LF end a record. Numbers are count texts: `0`, or a digit 1 to 9 followed by
//! digits.
//!
//! | Kind | Header | What the columns hold |
//! |---|---|---|
//! | accounts | `authenticator,name` | a word; 1 to 64 bytes of UTF-8 |
//! | applications | `name,agreement` | a word; `exact`, or `within:` and 0 to 1,000,000,000 |
//! | versions | `app,platform,version_num` | two words; 1 to 1,000,000 |
//! | | and, in a longer header, `version_class` | a word |
//! | workunits | `name`, `app` | two words |
//! | | `min_quorum` | 1 to 100 |
//! | | `target_nresults` | `min_quorum` to 100 |
//! | | `max_error_results` | 0 to 100 |
//! | | `max_total_results` | `target_nresults` to 100 |
//! | | `max_success_results` | 0 to 100 |
//! | | `delay_bound` | 1 to 100,000,000 seconds |
//! | | `rsc_fpops_est` | 1 to 10^18 operations |
//! | | `rsc_memory_bound`, `rsc_disk_bound` | 0 to 10^18 bytes |
//! | | `credit` | 0 to 100,000,000 millicredits |
//! | | and, in a longer header, `marked` | `0`, or `1` for one that keeps to the class of its first version |
//!
//! The number of fields of the first record decides which header it is. Under the shorter one a version has its
//! platform's word as its class, and no workunit is marked.
//!
//! When the tables of a project are made, its settings are a TOML text, which [`settings_of`] reads. It is a table of
//! exactly these keys, in any order.
//!
//! | Key | What it holds |
//! |---|---|
//! | `daily_result_quota` | 1 to 1,000,000 |
//! | `max_hosts` | 1 to 100,000 |
//! | `max_wus_in_progress` | 1 to 1,000 |
//! | `max_wus_to_send` | 1 to 100 |
//! | `operator_key` | a word of at least 8 bytes, as a string |
//! | `request_delay` | 0 to 2,592,000 seconds |
//! | `resend_lost_results` | `true` or `false` |
//!
//! [`host_statement`] returns what became of each instance that a host was given; [`statement`] has its format.
#![tactic(auto)]

pub mod checks;
mod columns;
mod data_row;
pub mod fault;
mod kinds;
pub mod laws;
mod named;
pub mod readers;
pub mod settings;
pub mod statement;
mod texts_of_csv;

pub use checks::check_rows;
pub use fault::RowsFault;
pub use readers::{read_accounts, read_apps, read_versions, read_workunits};
pub use settings::{SettingsFault, settings_of};
pub use statement::host_statement;
