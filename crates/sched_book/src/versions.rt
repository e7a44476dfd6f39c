//! The version that a host runs.

ghost use Rattle.std.specs.Prelude.{◌≡◌, filter, IfOk};
ghost use Rattle.std.specs.Option.{option_copied};
ghost use Rattle.sched_book.specs.Fits.{is_version_for, newest_version, version_among};

use crate::rows::Version;
use texts::{Memory, Text};

fn is_for_platform(version: &Version, app: &str, platform: &str) -> bool
    ensures { result ≡ is_version_for app.now platform.now version.now }
{
    version.app.is(app) && version.platform.is(platform)
}

/// The newest version of the application for a platform; of those with the greatest number the first.
fn newest_for<'a>(versions: &'a [Version], app: &str, platform: &str) -> Option<&'a Version>
    ensures { option_copied result ≡ newest_version (filter (is_version_for app.now platform.now) versions.now) }
{
    let mut best: Option<&Version> = None;
    for version in versions {
        if is_for_platform(version, app, platform) {
            best = match best {
                Some(other) if other.version_num >= version.version_num => Some(other),
                _ => Some(version),
            };
        }
    }
    best
}

/// The newest version of the application for the first of the platforms that has any.
pub(crate) fn version_of_app(
    versions: &[Version],
    app: &str,
    platforms: &[Text],
) -> Result<Option<Version>, Memory>
    ensures { IfOk result (λ version. version ≡ version_among versions.now app.now platforms.now) }
{
    for platform in platforms {
        if let Some(version) = newest_for(versions, app, platform.as_str()) {
            return Ok(Some(version.clone()?));
        }
    }
    Ok(None)
}
