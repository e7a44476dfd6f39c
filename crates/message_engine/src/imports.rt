//! Imports, over any store.

ghost use Rattle.std.specs.Prelude.{◌≡◌, Ok, None, is_ok, IfOk, IfErr, OnOk, if◌then◌else◌};
ghost use Rattle.std.specs.Str.{bytes_eq};
ghost use Rattle.office_files.specs.Importing.{Says, Refuses};
ghost use Rattle.rpc_records.specs.declared.fault.Fault.TheVariants as fault;
ghost use Rattle.sched_book.specs.Imports.{fault_of_rows, shelf_of};
ghost use Rattle.sched_book.specs.Limits.{AreRowsInLimits};
ghost use Rattle.sched_book.specs.Trusted.{Trusted};
ghost use Rattle.stores.specs.Acting.{ActsWhole};
ghost use Rattle.stores.specs.Held.{IsCommitted, IsKeptSoundly, MayBeCommitted};
ghost use Rattle.stores.specs.Kinds.{kind_name};
ghost use Rattle.stores.specs.declared.entry.Entry.TheVariants as entry;
ghost use Rattle.pasts.specs.Answers.{imported_text};
ghost use Rattle.pasts.specs.declared.answer.AnswerContent.TheVariants as answers;
ghost use Rattle.message_engine.specs.Imports.{reading_of, import_of, entry_of_batch, ServesImport, IsImportServed};
ghost use Rattle.message_engine.specs.Stores.{IsServed, ServesIn};

use crate::bodies::imported;
use crate::commits::commit_and_answer;
use office_files::{
    RowsFault, check_rows, read_accounts, read_apps, read_versions, read_workunits,
};
use pasts::AnswerContent;
use rpc_records::Fault;
use sched_book::{Moment, Rows, Unavailable};
use sched_machine::step_import;
use std::alloc::Global;
use stores::{Entry, KeptBatch, Kind, Store, confirmed};
use texts::{Listed, Memory, Text};

/// Reads the rows of this kind in a text, or returns its first fault.
fn read_rows(alloc: Global, kind: Kind, text: &[u8]) -> Result<Rows, RowsFault>
    ensures ok { IfOk result (λ rows. Says (reading_of kind) text.now (Ok rows)) }
    ensures err { IfErr result (Refuses (reading_of kind) text.now) }
    ensures limits { IfOk result AreRowsInLimits }
{
    match kind {
        Kind::Accounts => read_accounts(alloc, text),
        Kind::Apps => read_apps(alloc, text),
        Kind::Versions => read_versions(alloc, text),
        Kind::Workunits => read_workunits(alloc, text),
    }
}

/// The answer to a kept batch whose name comes again with these bytes.
fn told_again(kept: KeptBatch, text: &[u8]) -> AnswerContent
    ensures { result ≡ (if bytes_eq kept.text text.now then answers.Good kept.answer else answers.Refusal fault.BatchReused) }
{
    if kept.text.as_slice() == text {
        AnswerContent::Good(kept.answer)
    } else {
        AnswerContent::Refusal(Fault::BatchReused)
    }
}

/// The entry of a batch, with the body of its answer.
fn batch_entry(
    alloc: Global,
    kind: Kind,
    batch: &Text,
    text: &[u8],
    body: &Text,
) -> Result<Entry, Memory>
    ensures { IfOk result (λ made. made ≡ entry.Batch kind batch.now (record { text = text.now; answer = body.now })) }
{
    let kept = KeptBatch {
        text: Listed::of(text.to_vec(alloc)?),
        answer: body.clone()?,
    };
    Ok(Entry::Batch(kind, batch.clone()?, kept))
}

/// Adds rows that have no fault, and keeps their batch with the answer, which says how many rows it brought.
fn add_rows<S: Store>(
    alloc: Global,
    store: &mut S,
    kind: Kind,
    batch: &Text,
    text: &[u8],
    rows: Rows,
    now: Moment,
) -> Result<AnswerContent, Unavailable>
    requires limits { AreRowsInLimits rows }
    ensures acts { ActsWhole S.Store (is_ok result) (λ h.
        (S.holds store.old).batches kind batch.now ≡ None → fault_of_rows (shelf_of (S.holds store.old).world) rows ≡ None →
        IsServed (import_of now kind batch.now text.now (Ok rows)) (S.holds store.old) h) store.old store.new }
    ensures exact { Trusted S.Units store.old store.new (IfOk result (λ answer.
        (S.holds store.old).batches kind batch.now ≡ None → fault_of_rows (shelf_of (S.holds store.old).world) rows ≡ None →
        ServesIn (import_of now kind batch.now text.now (Ok rows)) answer (S.holds store.old) (S.holds store.new))) }
{
    let (delta, count) = step_import(rows)?;
    let body = imported(alloc, kind.name(), batch.as_str(), count as u64)?;
    let entry = batch_entry(alloc, kind, batch, text, &body)?;
    commit_and_answer(store, &delta, &entry, body)
}

/// Imports a batch that is not kept. Its rows are read, compared with the rows that exist, and then added or refused.
fn import_new<S: Store>(
    alloc: Global,
    store: &mut S,
    kind: Kind,
    batch: &Text,
    text: &[u8],
    now: Moment,
) -> Result<AnswerContent, Unavailable>
    ensures acts { ActsWhole S.Store (is_ok result) (λ h. (S.holds store.old).batches kind batch.now ≡ None →
        IsImportServed now kind batch.now text.now (S.holds store.old) h) store.old store.new }
    ensures exact { Trusted S.Units store.old store.new (IfOk result (λ answer. (S.holds store.old).batches kind batch.now ≡ None →
        ServesImport now kind batch.now text.now answer (S.holds store.old) (S.holds store.new))) }
{
    let rows = match read_rows(alloc, kind, text) {
        Ok(rows) => rows,
        Err(RowsFault::Unavailable(cause)) => return Err(Unavailable(cause)),
        Err(fault) => return confirmed(store, AnswerContent::Refusal(fault.fault())),
    };
    match check_rows(alloc, store, &rows) {
        Ok(()) => add_rows(alloc, store, kind, batch, text, rows, now),
        Err(RowsFault::Unavailable(cause)) => Err(Unavailable(cause)),
        Err(fault) => confirmed(store, AnswerContent::Refusal(fault.fault())),
    }
}

/// Imports a batch of rows. If the batch is kept and has the same bytes, it is answered again; with other bytes it is
/// refused. If it is not kept, its rows are read and compared with the rows that exist. Then they are added and the
/// batch is kept, or it is refused. A stop at any moment leaves the store as it was, or with the import served.
///
/// # Errors
///
/// [`Unavailable`] leaves everything as it was, unless a fault has shut the store.
pub fn import<S: Store>(
    alloc: Global,
    store: &mut S,
    kind: Kind,
    batch: &Text,
    text: &[u8],
    now: Moment,
) -> Result<AnswerContent, Unavailable>
    ensures acts { ActsWhole S.Store (is_ok result) (IsImportServed now kind batch.now text.now (S.holds store.old)) store.old store.new }
    ensures exact { Trusted S.Units store.old store.new (IfOk result (λ answer.
        ServesImport now kind batch.now text.now answer (S.holds store.old) (S.holds store.new))) }
{
    match store.kept_batch(alloc, kind, batch.as_str())? {
        Some(kept) => confirmed(store, told_again(kept, text)),
        None => import_new(alloc, store, kind, batch, text, now),
    }
}
