//! A replay: lines of standard input over tables in memory.

ghost use Rattle.std.specs.Prelude.{IfOk};
ghost use Rattle.sched_book.specs.Limits.{AreSettingsInLimits};

use crate::ending::{Ending, Failure, ended};
use crate::files::Files;
use replay_lines::replay;
use sched_book::Settings;
use sched_server::Service;
use sched_tables::Tables;
use std::alloc::Global;
use std::io;
use std::io::{BufReader, BufWriter};
use stores::Store;
use texts::{Memory, Text};

/// Answers the lines of standard input over tables in memory, with the settings in a file or the default ones.
pub(crate) fn replay_input<F: Files>(
    rt: &HostRuntime,
    files: &F,
    settings: Option<&Text>,
) -> Result<Ending, Failure> {
    let settings = match settings {
        Some(path) => files.settings(rt, path.as_str())?,
        None => default_settings(rt.alloc())?,
    };
    replay_under(rt, &settings)
}

fn replay_under(rt: &HostRuntime, settings: &Settings) -> Result<Ending, Failure> {
    replay_over(rt, Tables::in_memory(rt.alloc(), settings)?)
}

/// Answers the lines of standard input over a store.
fn replay_over<S: Store + Drop>(rt: &HostRuntime, store: S) -> Result<Ending, Failure> {
    let Ok(mut service) = Service::new(rt.alloc(), store) else {
        return Err(Failure::Unavailable);
    };
    let reader = BufReader::new(rt.alloc(), rt.reader())?;
    let writer = BufWriter::new(rt.alloc(), io::writer(rt))?;
    ended(replay(rt.alloc(), &mut service, reader, writer))
}

/// The settings of a replay for which no file of settings is named.
pub fn default_settings(alloc: Global) -> Result<Settings, Memory>
    ensures { IfOk result AreSettingsInLimits }
{
    Ok(Settings {
        daily_result_quota: 4,
        max_hosts: 3,
        max_wus_in_progress: 3,
        max_wus_to_send: 2,
        operator_key: Text::copied(alloc, "opkey-01")?,
        request_delay: 60,
        resend_lost_results: true,
    })
}
