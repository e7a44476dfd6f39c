//! Whether a world is sound.

ghost use Rattle.std.specs.Prelude.{◌↔◌, IsTrue, IfOk, All};
ghost use Rattle.sched_book.specs.Sound.{IsSoundUnit, IsSoundHost, IsSoundVersion, Sound};
ghost use Rattle.world_soundness.specs.Soundness.{FitsItsTables, AreRowsWell, KeysOccurOnce};

use crate::in_limits::{
    are_settings_in_limits, is_account_in_limits, is_app_in_limits, is_host_in_limits,
    is_version_in_limits,
};
use crate::keyed::stand_once;
use crate::sound_units::{has_app, is_sound_unit};
use sched_book::limits::{MOST_ACCOUNTS, MOST_APPS, MOST_VERSIONS, MOST_WORKUNITS};
use sched_book::{App, HostRow, Unavailable, Version, World};
use std::alloc::Global;
use texts::Memory;

/// Whether no table is longer than it may be.
fn fits_its_tables(world: &World) -> bool
    ensures { IsTrue result ↔ FitsItsTables world.now }
{
    world.accounts.len() <= MOST_ACCOUNTS
        && world.apps.len() <= MOST_APPS
        && world.versions.len() <= MOST_VERSIONS
        && world.units.len() <= MOST_WORKUNITS
        && world.hosts.len() <= world.settings.max_hosts as usize
}

/// Whether a version is in range, and its application exists.
fn is_sound_version(apps: &[App], version: &Version) -> bool
    ensures { IsTrue result ↔ IsSoundVersion apps.now version.now }
{
    has_app(apps, version.app.as_str()) && is_version_in_limits(version)
}

/// Whether a host is sound, with this number of accounts and this limit of its quota.
fn is_sound_host(accounts: usize, most_quota: u32, host: &HostRow) -> bool
    ensures { IsTrue result ↔ IsSoundHost accounts most_quota host.now }
{
    1 <= host.account && host.account as usize <= accounts && is_host_in_limits(most_quota, host)
}

/// Whether each version is in range, and its application exists.
fn are_versions_sound(apps: &[App], versions: &[Version]) -> bool
    ensures { IsTrue result ↔ All (IsSoundVersion apps.now) versions.now }
{
    versions
        .iter()
        .all(|version| is_sound_version(apps, version))
}

/// Whether each host is in range under these limits, and its account exists.
fn are_hosts_sound(accounts: usize, most_quota: u32, hosts: &[HostRow]) -> bool
    ensures { IsTrue result ↔ All (IsSoundHost accounts most_quota) hosts.now }
{
    hosts
        .iter()
        .all(|host| is_sound_host(accounts, most_quota, host))
}

/// Whether the settings and each row are in range, and what a row refers to exists. Workunits are left out.
fn are_rows_well(world: &World) -> bool
    ensures { IsTrue result ↔ AreRowsWell world.now }
{
    let settings = &world.settings;
    let accounts = world.accounts.as_slice();
    let apps = world.apps.as_slice();
    are_settings_in_limits(settings)
        && accounts.iter().all(is_account_in_limits)
        && apps.iter().all(is_app_in_limits)
        && are_versions_sound(apps, world.versions.as_slice())
        && are_hosts_sound(
            accounts.len(),
            settings.daily_result_quota,
            world.hosts.as_slice(),
        )
}

/// Whether names, authenticators and keys occur once.
fn stand_keys_once(alloc: Global, world: &World) -> Result<bool, Memory>
    ensures { IfOk result (λ once. IsTrue once ↔ KeysOccurOnce world.now) }
{
    let accounts = stand_once(alloc, world.accounts.as_slice())?;
    let apps = stand_once(alloc, world.apps.as_slice())?;
    let versions = stand_once(alloc, world.versions.as_slice())?;
    let units = stand_once(alloc, world.units.as_slice())?;
    let hosts = stand_once(alloc, world.hosts.as_slice())?;
    Ok(accounts && apps && versions && units && hosts)
}

/// Whether each workunit is sound.
fn are_units_sound(world: &World) -> bool
    ensures { IsTrue result ↔ All (IsSoundUnit world.now.hosts world.now.apps) world.now.units }
{
    let hosts = world.hosts.as_slice();
    let apps = world.apps.as_slice();
    world
        .units
        .as_slice()
        .iter()
        .all(|book| is_sound_unit(hosts, apps, book))
}

/// Whether a world is sound. Settings, rows and instances are in range, and no table is too long. Names, authenticators
/// and keys occur once, and what rows refer to exists. The instances of each workunit were given to hosts of different
/// users, and its judged reports are at places without a gap. If the workunit is open, it has the instances that it
/// needs. If it is marked and any of its instances was given out, it has its class.
///
/// The time grows with the number of rows and of instances; for names and keys also with the logarithm of their number.
/// The instances of one workunit, at most 100, are compared in pairs. Unavailable if there is no memory.
pub fn is_sound(alloc: Global, world: &World) -> Result<bool, Unavailable>
    ensures { IfOk result (λ sound. IsTrue sound ↔ Sound world.now) }
{
    Ok(
        fits_its_tables(world)
            && are_rows_well(world)
            && stand_keys_once(alloc, world)?
            && are_units_sound(world),
    )
}
