//! Versions that hosts run, by the platforms of the hosts and by applications.

ghost use Rattle.std.specs.Prelude.{◌≡◌, All, Some, IfOk, IfSome};
ghost use Rattle.sched_book.specs.Fits.{version_at};
ghost use Rattle.sched_book.specs.declared.rows.HostRow.{HostRow as BookHost};
ghost use Rattle.sched_book.specs.declared.world.World.{World};
ghost use Rattle.table_meaning.specs.Worlds.{SlotCalls};
ghost use Rattle.table_cache.specs.Remembering.{IsCacheOf, IsVersionOf};

use crate::cache::Cache;
use sched_book::{Version, copy_of};
use std::alloc::Global;
use texts::{Listed, Memory, Text};

/// The most versions that are remembered. At one more, those before it are forgotten.
const MOST_VERSIONS: usize = 100;

/// A cached version, with the platforms and the application of its look-up.
#[derive(Drop)]
pub(crate) struct VersionRead {
    platforms: Listed<Text>,
    app: u32,
    row: Version,
}

/// The version that was found for platforms and an application.
fn version_read(
    alloc: Global,
    platforms: &[Text],
    app: u32,
    found: &Version,
) -> Result<VersionRead, Memory>
    ensures { IfOk result (λ v. (v.platforms ≡ platforms.now) × (v.app ≡ app) × (v.row ≡ found.now)) }
{
    Ok(VersionRead {
        platforms: Listed::of(platforms.to_vec(alloc)?),
        app,
        row: copy_of(found)?,
    })
}

/// Adds a version at the end. If there are too many, the others are forgotten first.
fn push_version(versions: &mut Vec<VersionRead>, read: VersionRead)
    ensures { (w : World) → All (IsVersionOf w) versions.old.items → IsVersionOf w read → All (IsVersionOf w) versions.new.items }
{
    if MOST_VERSIONS <= versions.len() {
        versions.clear();
    }
    let _ = versions.push(read);
}

impl Cache {
    /// The version that a host with these platforms runs of the application at this place.
    pub fn version(&self, platforms: &[Text], app: u32) -> Result<Option<Version>, Memory>
        ensures { (w : World) (calls : SlotCalls) (h : BookHost) → IsCacheOf w calls self.now → platforms.now ≡ h.platforms → IfOk result (λ r. IfSome r (λ v. version_at w h app ≡ Some v)) }
    {
        for read in self.versions.as_slice() {
            if read.app == app && read.platforms.as_slice() == platforms {
                return Ok(Some(copy_of(&read.row)?));
            }
        }
        Ok(None)
    }

    /// Remembers the version that a host with these platforms runs of an application, if there is memory for it.
    pub fn remember_version(
        &mut self,
        alloc: Global,
        platforms: &[Text],
        app: u32,
        found: &Option<Version>,
    )
        ensures { (w : World) (calls : SlotCalls) (h : BookHost) → IsCacheOf w calls self.old → platforms.now ≡ h.platforms → found.now ≡ version_at w h app → IsCacheOf w calls self.new }
    {
        let Some(found) = found else { return };
        let Ok(read) = version_read(alloc, platforms, app, found) else {
            return
        };
        push_version(&mut self.versions, read);
    }
}
