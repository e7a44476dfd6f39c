//! The ranges of kept calls and imports.

ghost use Rattle.std.specs.Prelude.{◌≡◌, ◌&&◌, nat_le, length};
ghost use Rattle.table_meaning.specs.declared.rows.StoredRow.TheVariants as stored;
ghost use Rattle.table_reading.specs.Reading.{is_call, is_import};

use crate::rows::Reading;
use reply_register::MOST_KEPT;
use sched_book::World;
use sched_book::limits::{MOST_IMPORT_BYTES, MOST_NUMBER};
use stores::Kind;
use table_meaning::rows::{StoredBatch, StoredCall};
use texts::is_word;

/// Whether this may be a kept call, of any host.
pub(crate) fn is_call(call: &StoredCall) -> bool
    ensures { result ≡ is_call (stored.Kept call.now) }
{
    call.host_id != 0 && (call.slot as usize) < MOST_KEPT && call.seqno <= MOST_NUMBER
}

/// Whether all kept calls may be kept with this world.
pub(crate) fn are_calls_of(world: &World, reading: &Reading) -> bool
    ensures { result ≡ (reading.now.are_calls && nat_le reading.now.last_host (length world.now.hosts)) }
{
    reading.are_calls && reading.last_host as usize <= world.hosts.len()
}

/// Whether this may be a kept import.
pub(crate) fn is_import(batch: &StoredBatch) -> bool
    ensures { result ≡ is_import (stored.Batch batch.now) }
{
    Kind::of(batch.kind.as_str()).is_some()
        && is_word(batch.name.as_str().as_bytes())
        && batch.text.len() <= MOST_IMPORT_BYTES
}
