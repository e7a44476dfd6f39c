//! A tick, over any store.

ghost use Rattle.std.specs.Prelude.{◌≡◌, is_ok, IfOk, OnOk};
ghost use Rattle.sched_book.specs.Trusted.{Trusted};
ghost use Rattle.stores.specs.Acting.{ActsWhole};
ghost use Rattle.stores.specs.Held.{IsCommitted, IsKeptSoundly, MayBeCommitted};
ghost use Rattle.stores.specs.declared.entry.Entry.TheVariants as entry;
ghost use Rattle.pasts.specs.Answers.{lapsed_text};
ghost use Rattle.pasts.specs.Messages.{Tick, heard_now};
ghost use Rattle.pasts.specs.declared.answer.AnswerContent.TheVariants as answers;
ghost use Rattle.message_engine.specs.Stores.{IsServed, ServesIn};

use crate::bodies::lapsed;
use crate::commits::commit_and_answer;
use pasts::AnswerContent;
use sched_book::{Delta, Moment, Unavailable};
use sched_machine::step_tick;
use std::alloc::Global;
use stores::{Entry, Store};

/// Makes the changes of a tick, and answers how many instances lapsed.
fn make_lapse<S: Store>(
    alloc: Global,
    store: &mut S,
    delta: &Delta,
    count: u32,
) -> Result<AnswerContent, Unavailable>
    ensures acts { ActsWhole S.Store (is_ok result) (IsKeptSoundly delta.now entry.Nothing (S.holds store.old)) store.old store.new }
    ensures answer { IfOk result (λ answer. answer ≡ answers.Good (lapsed_text count)) }
    ensures made { Trusted S.Units store.old store.new (OnOk result (MayBeCommitted delta.now entry.Nothing (S.holds store.old) →
        IsCommitted delta.now entry.Nothing (S.holds store.old) (S.holds store.new))) }
{
    let body = lapsed(alloc, count)?;
    commit_and_answer(store, delta, &Entry::Nothing, body)
}

/// Handles a tick: one step of the job machine, whose answer says how many instances lapsed. A stop at any moment
/// leaves the store as it was, or with the tick served.
///
/// # Errors
///
/// [`Unavailable`] leaves everything as it was, unless a fault has shut the store.
pub fn tick<S: Store>(
    alloc: Global,
    store: &mut S,
    now: Moment,
) -> Result<AnswerContent, Unavailable>
    ensures acts { ActsWhole S.Store (is_ok result) (IsServed (heard_now now Tick) (S.holds store.old)) store.old store.new }
    ensures exact { Trusted S.Units store.old store.new (IfOk result (λ answer.
        ServesIn (heard_now now Tick) answer (S.holds store.old) (S.holds store.new))) }
{
    let (delta, count) = step_tick(alloc, store, now)?;
    make_lapse(alloc, store, &delta, count)
}
