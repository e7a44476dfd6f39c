//! The bodies of the answers to imports and ticks.

ghost use Rattle.std.specs.Prelude.{◌≡◌, IfOk};
ghost use Rattle.serde_json.specs.View.{view};
ghost use Rattle.pasts.specs.Answers.{imported_json, imported_text, lapsed_json, lapsed_text};

use serde_json::{Value, json};
use std::alloc::Global;
use texts::{Memory, Text};

fn imported_value(alloc: Global, kind: &str, batch: &str, rows: u64) -> Result<Value, Memory>
    ensures { IfOk result (λ value. view value ≡ imported_json kind.now batch.now rows) }
{
    json!(in alloc; {"batch": batch, "kind": kind, "rows": rows})
}

/// The body of an import's answer: how many rows a batch of this kind brought.
#[tactic(auto, unfolding(pasts::specs::Answers::imported_text))]
pub(crate) fn imported(alloc: Global, kind: &str, batch: &str, rows: u64) -> Result<Text, Memory>
    ensures { IfOk result (λ text. text ≡ imported_text kind.now batch.now rows) }
{
    let value = imported_value(alloc, kind, batch, rows)?;
    Ok(Text::of(value.to_string(alloc)?))
}

fn lapsed_value(alloc: Global, count: u32) -> Result<Value, Memory>
    ensures { IfOk result (λ value. view value ≡ lapsed_json count) }
{
    json!(in alloc; {"lapsed": count})
}

/// The body of a tick's answer: how many instances lapsed.
#[tactic(auto, unfolding(pasts::specs::Answers::lapsed_text))]
pub(crate) fn lapsed(alloc: Global, count: u32) -> Result<Text, Memory>
    ensures { IfOk result (λ text. text ≡ lapsed_text count) }
{
    let value = lapsed_value(alloc, count)?;
    Ok(Text::of(value.to_string(alloc)?))
}
