//! The settings in a text of TOML.

use office_files::{SettingsFault, settings_of};
use std::alloc::Global;
use std::test::Fail;

const SIX: &str =
    "daily_result_quota = 4\nmax_hosts = 3\nmax_wus_in_progress = 3\nmax_wus_to_send = 2\noperator_key = \"opkey-01\"\nrequest_delay = 60\n";

const SEVEN: &str =
    "daily_result_quota = 4\nmax_hosts = 3\nmax_wus_in_progress = 3\nmax_wus_to_send = 2\noperator_key = \"opkey-01\"\nrequest_delay = 60\nresend_lost_results = true\n";

/// Whether a text has the settings that the program has by default.
fn tells_the_defaults(alloc: Global, text: &str) -> Result<bool, SettingsFault> {
    let told = settings_of(alloc, text)?;
    Ok(
        told.daily_result_quota == 4
            && told.max_hosts == 3
            && told.max_wus_in_progress == 3
            && told.max_wus_to_send == 2
            && told.operator_key.is("opkey-01")
            && told.request_delay == 60
            && told.resend_lost_results,
    )
}

#[test]
fn seven_lines_tell_settings_and_six_tell_none(rt: HostRuntime) -> Result<(), Fail> {
    let alloc = rt.alloc();
    assert!(rt; matches!(tells_the_defaults(alloc, SEVEN), Ok(true)));
    assert!(rt; matches!(tells_the_defaults(alloc, SIX), Err(SettingsFault::Bad)));
    Ok(())
}
