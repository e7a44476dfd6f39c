//! The statement of a host, over any store.

ghost use Rattle.std.specs.Prelude.{◌≡◌, ℕ, is_ok, IfOk};
ghost use Rattle.sched_book.specs.Trusted.{Trusted};
ghost use Rattle.stores.specs.Acting.{ActsWhole};
ghost use Rattle.pasts.specs.Messages.{Read, heard_now};
ghost use Rattle.message_engine.specs.Stores.{ServesIn};
ghost use Rattle.sched_server.specs.Statements.{statement_told, told_of_host};

use office_files::host_statement;
use pasts::AnswerContent;
use rpc_records::Fault;
use sched_book::Unavailable;
use std::alloc::Global;
use stores::{Store, confirmed};
use texts::Text;

/// The answer for a host's statement, or for a host that does not exist.
fn tell(statement: Option<Text>) -> AnswerContent
    ensures { result ≡ statement_told statement }
{
    match statement {
        Some(text) => AnswerContent::Statement(text),
        None => AnswerContent::Refusal(Fault::NoSuchHost),
    }
}

/// The statement of the host of this number, the same at any moment.
///
/// # Errors
///
/// [`Unavailable`] if there is no memory, or a fault has shut the store. Nothing is changed, as by any statement.
pub(crate) fn statement<S: Store>(
    alloc: Global,
    store: &mut S,
    host: u32,
) -> Result<AnswerContent, Unavailable>
    ensures acts { ActsWhole S.Store (is_ok result) (λ h. ⊥) store.old store.new }
    ensures exact { Trusted S.Units store.old store.new (IfOk result (λ answer. (now : ℕ) →
        ServesIn (heard_now now (Read (told_of_host host))) answer (S.holds store.old) (S.holds store.new))) }
{
    let statement = host_statement(alloc, store, host)?;
    confirmed(store, tell(statement))
}
