//! The world that rows of the tables represent.

ghost use Rattle.std.specs.Prelude.{◌≡◌, [], Some, None, Ok, IfOk, IfErr, IfSome};
ghost use Rattle.sqlite_rules.specs.Lists.{Has};
ghost use Rattle.sched_book.specs.Sound.{Sound};
ghost use Rattle.sched_book.specs.declared.world.World.{World};
ghost use Rattle.table_worlds.specs.RowsOf.{AreOtherRows, without_units};
ghost use Rattle.table_decoding.specs.Decoding.{Gives, schema_row};
ghost use Rattle.table_decoding.specs.declared.fault.RowFault.TheVariants as fault;

use crate::fault::RowFault;
use crate::rows::{accounts, apps, hosts, versions};
use crate::settings::{names_schema, settings};
use sched_book::World;
use std::alloc::Global;
use table_worlds::TableRows;
use texts::Listed;

/// The world of these rows, without its workunits.
fn world_of(alloc: Global, rows: &TableRows) -> Result<World, RowFault>
    ensures told { (w : World) → Sound w → AreOtherRows w rows.now → Gives result (without_units w) }
    ensures alone { IfOk result (λ d. d.units ≡ []) }
{
    let settings = settings(rows.settings.as_slice())?;
    let accounts = accounts(alloc, rows.accounts.as_slice())?;
    let apps = apps(alloc, rows.apps.as_slice())?;
    let versions = versions(
        alloc,
        apps.as_slice(),
        rows.versions.as_slice(),
        rows.classes.as_slice(),
    )?;
    let hosts = hosts(alloc, rows.hosts.as_slice())?;
    Ok(World {
        settings,
        accounts,
        apps,
        versions,
        units: Listed::new(alloc),
        hosts,
    })
}

/// The world whose rows these are, without its workunits, if they are those of a sound world. `None` if no row names
/// the schema of the stored tables.
///
/// Nothing is promised for other rows: the result may be some world, or a refusal.
pub fn decoded_world(alloc: Global, rows: &TableRows) -> Result<Option<World>, RowFault>
    ensures decoded { (w : World) → Sound w → AreOtherRows w rows.now → IfOk result (λ d. d ≡ Some (without_units w)) }
    ensures refused { (w : World) → Sound w → AreOtherRows w rows.now → IfErr result (λ e. e ≡ fault.Unavailable) }
    ensures alone { IfOk result (λ d. IfSome d (λ world. world.units ≡ [])) }
    ensures no_schema { ¬ Has rows.now.settings schema_row → result ≡ Ok None }
    ensures other_schema { IfOk result (λ d. d ≡ None → ¬ Has rows.now.settings schema_row) }
{
    if !names_schema(rows.settings.as_slice()) {
        return Ok(None);
    }
    Ok(Some(world_of(alloc, rows)?))
}
