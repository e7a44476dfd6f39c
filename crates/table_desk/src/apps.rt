//! Applications and their versions.

ghost use Rattle.std.specs.Prelude.{◌≡◌, find, Some, IfOk, IfSome};
ghost use Rattle.std.specs.Str.{bytes_eq};
ghost use Rattle.sqlite.specs.Held.{state};
ghost use Rattle.sched_book.specs.Desk.{app_by_name as app_of_name, version_by_key as version_of_key};
ghost use Rattle.sched_book.specs.Fits.{version_among as among, version_at};
ghost use Rattle.sched_book.specs.Imports.{is_version};
ghost use Rattle.sched_book.specs.Limits.{IsVersionInLimits};
ghost use Rattle.sched_book.specs.Places.{place_where};
ghost use Rattle.sched_book.specs.declared.world.World.{World};
ghost use Rattle.table_meaning.specs.Reads.{Reads};
ghost use Rattle.table_desk.specs.Asked.{LooksUp};
ghost use Rattle.table_desk.specs.Versions.{greatest};

use sched_book::{
    App, Cause, HostRow, Invariant, Placed, Unavailable, Version, app_index, copy_of, nth,
};
use sqlite::{Alter, Connection};
use std::alloc::Global;
use table_decoding::version_class;
use table_rows::{class_of, version_known, version_numbers};
use texts::Text;
use world_soundness::in_limits::is_version_in_limits;

/// The place of the application of this name.
fn place_of(apps: &[App], name: &str) -> Result<Option<u32>, Unavailable>
    ensures { IfOk result (λ place. place ≡ place_where (λ a. bytes_eq a.name name.now) apps.now) }
{
    let Some(index) = app_index(apps, name) else {
        return Ok(None);
    };
    match u32::try_from(index) {
        Err(_) => Err(Unavailable(Cause::Broken(Invariant::PlaceOfApp))),
        Ok(index) => match index.checked_add(1) {
            None => Err(Unavailable(Cause::Broken(Invariant::PlaceOfApp))),
            Some(place) => Ok(Some(place)),
        },
    }
}

/// The application of this name, of all applications.
pub fn app_by_name(apps: &[App], name: &str) -> Result<Option<Placed<App>>, Unavailable>
    ensures { (w : World) → apps.now ≡ w.apps → IfOk result (λ r. r ≡ app_of_name w name.now) }
{
    match place_of(apps, name)? {
        None => Ok(None),
        Some(place) => match nth(apps, place) {
            None => Ok(None),
            Some(row) => Ok(Some(Placed {
                place,
                row: copy_of(row)?,
            })),
        },
    }
}

/// The greatest of these numbers.
fn greatest(numbers: &[u32]) -> Option<u32>
    ensures { result ≡ greatest numbers.now }
{
    let mut best: Option<u32> = None;
    for number in numbers {
        best = match best {
            Some(other) if *number <= other => Some(other),
            _ => Some(*number),
        };
    }
    best
}

/// The version, if its values are in their ranges. Unavailable if one is not.
fn in_limits(version: Version) -> Result<Version, Unavailable>
    ensures same { IfOk result (λ v. v ≡ version) }
    ensures limits { IfOk result IsVersionInLimits }
{
    if is_version_in_limits(&version) {
        Ok(version)
    } else {
        Err(Unavailable(Cause::BadRow))
    }
}

/// The first version of an application for this platform with this number. The application is the first one of this
/// name, and is at this place. Unavailable if the version has no class, or if one of its values is out of its range.
/// What the connection shows is unchanged.
fn version_with<S: Alter>(
    alloc: Global,
    conn: &mut Connection<S>,
    app: &str,
    place: u32,
    platform: &str,
    version_num: u32,
) -> Result<Option<Version>, Unavailable>
    ensures reads { Reads (state S.Store conn.old) (state S.Store conn.new) }
    ensures answer { LooksUp S.Store conn.old conn.new (λ w. Some place ≡ place_where (λ a. bytes_eq a.name app.now) w.apps
        → IfOk result (λ r. r ≡ find (is_version app.now platform.now version_num) w.versions)) }
    ensures limits { IfOk result (λ r. IfSome r IsVersionInLimits) }
{
    let Some(id) = version_known(alloc, conn, place, platform, version_num)? else {
        return Ok(None);
    };
    let Some(row) = class_of(alloc, conn, id)? else {
        return Err(Unavailable(Cause::Broken(Invariant::ClassOfVersion)));
    };
    let version = Version {
        app: Text::copied(alloc, app)?,
        platform: Text::copied(alloc, platform)?,
        version_num,
        class: version_class(&row)?,
    };
    Ok(Some(in_limits(version)?))
}

/// The newest version of an application for the first of the platforms that has any. The application is the first one
/// of this name, and is at this place. What the connection shows is unchanged.
fn version_among<S: Alter>(
    alloc: Global,
    conn: &mut Connection<S>,
    app: &Text,
    place: u32,
    platforms: &[Text],
) -> Result<Option<Version>, Unavailable>
    ensures reads { Reads (state S.Store conn.old) (state S.Store conn.new) }
    ensures answer { LooksUp S.Store conn.old conn.new (λ w. Some place ≡ place_where (λ a. bytes_eq a.name app.now) w.apps
        → IfOk result (λ r. r ≡ among w.versions app.now platforms.now)) }
    ensures limits { IfOk result (λ r. IfSome r IsVersionInLimits) }
{
    for platform in platforms {
        let numbers = version_numbers(alloc, conn, place, platform.as_str())?;
        if let Some(version_num) = greatest(numbers.as_slice()) {
            return version_with(
                alloc,
                conn,
                app.as_str(),
                place,
                platform.as_str(),
                version_num,
            );
        }
    }
    Ok(None)
}

/// The version that a host runs of the application at this place. It is the newest one for the first of the host's
/// platforms that has any. `apps` are all applications. For any rows, it is unavailable if the version has no class, or
/// if one of its values is out of its range. What the connection shows is unchanged.
pub fn version_for<S: Alter>(
    alloc: Global,
    conn: &mut Connection<S>,
    apps: &[App],
    host: &HostRow,
    app: u32,
) -> Result<Option<Version>, Unavailable>
    ensures reads { Reads (state S.Store conn.old) (state S.Store conn.new) }
    ensures answer { LooksUp S.Store conn.old conn.new (λ w. apps.now ≡ w.apps → IfOk result (λ r. r ≡ version_at w host.now app)) }
    ensures limits { IfOk result (λ r. IfSome r IsVersionInLimits) }
{
    let Some(named) = nth(apps, app) else {
        return Ok(None);
    };
    let Some(place) = place_of(apps, named.name.as_str())? else {
        return Ok(None);
    };
    version_among(alloc, conn, &named.name, place, host.platforms.as_slice())
}

/// The version of this application, for this platform, with this number. For any rows, it is unavailable if the version
/// has no class, or if one of its values is out of its range. What the connection shows is unchanged.
pub fn version_by_key<S: Alter>(
    alloc: Global,
    conn: &mut Connection<S>,
    apps: &[App],
    app: &str,
    platform: &str,
    version_num: u32,
) -> Result<Option<Version>, Unavailable>
    ensures reads { Reads (state S.Store conn.old) (state S.Store conn.new) }
    ensures answer { LooksUp S.Store conn.old conn.new (λ w. apps.now ≡ w.apps → IfOk result (λ r. r ≡ version_of_key w app.now platform.now version_num)) }
    ensures limits { IfOk result (λ r. IfSome r IsVersionInLimits) }
{
    let Some(place) = place_of(apps, app)? else {
        return Ok(None);
    };
    version_with(alloc, conn, app, place, platform, version_num)
}
