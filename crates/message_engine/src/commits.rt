//! What each message commits, and its good answer.

ghost use Rattle.std.specs.Prelude.{◌≡◌, is_ok, IfOk, OnOk};
ghost use Rattle.sched_book.specs.Trusted.{Trusted};
ghost use Rattle.stores.specs.Acting.{ActsWhole};
ghost use Rattle.stores.specs.Held.{IsCommitted, IsKeptSoundly, MayBeCommitted};
ghost use Rattle.pasts.specs.declared.answer.AnswerContent.TheVariants.{Good};

use pasts::AnswerContent;
use sched_book::{Delta, Unavailable};
use stores::{Entry, Store};
use texts::Text;

/// Makes the changes of a message, keeps its entry, and answers with this body. Once they are made it needs no further
/// memory.
pub(crate) fn commit_and_answer<S: Store>(
    store: &mut S,
    delta: &Delta,
    entry: &Entry,
    body: Text,
) -> Result<AnswerContent, Unavailable>
    ensures acts { ActsWhole S.Store (is_ok result) (IsKeptSoundly delta.now entry.now (S.holds store.old)) store.old store.new }
    ensures answer { IfOk result (λ answer. answer ≡ Good body) }
    ensures made { Trusted S.Units store.old store.new (OnOk result (MayBeCommitted delta.now entry.now (S.holds store.old) →
        IsCommitted delta.now entry.now (S.holds store.old) (S.holds store.new))) }
{
    store.commit(delta, entry)?;
    Ok(AnswerContent::Good(body))
}
