//! The members of an object, one at a time: what each says, or the refusal that names it.

ghost use Rattle.std.specs.Prelude.{◌≡◌, ◌≤◌, None, IfOk, ok_or};
ghost use Rattle.std.specs.Result.{result_map_both};
ghost use Rattle.serde_json.specs.Find.{get};
ghost use Rattle.serde_json.specs.View.{view, items_view};
ghost use Rattle.rpc_records.specs.Values.{text_in, whole_in, object_in, all_in, list_in};
ghost use Rattle.texts.specs.Reading.{GivesUnless};
ghost use Rattle.rpc_records.specs.Reading.{needed, defaulted};

use crate::fault::{Fault, Member};
use crate::text_kind::TextKind;
use crate::values::{items_in, text_in, whole_in};
use serde_json::Value;
use std::alloc::Global;
use texts::{Listed, Text};

/// The text at `member`, of this kind.
#[tactic(auto, unfolding(crate::specs::Reading::needed))]
pub(crate) fn text_at(
    alloc: Global,
    object: &Value,
    member: Member,
    kind: TextKind,
) -> Result<Text, Fault>
    ensures { GivesUnless Fault.Unavailable result (needed member (text_in kind) (view object.now)) }
{
    let text = object
        .get(member.key())
        .and_then(|value| text_in(value, kind))
        .ok_or(Fault::BadMember(member))?;
    Ok(Text::copied(alloc, text)?)
}

/// The whole number at `member`, from `least` to `most`.
#[tactic(auto, unfolding(crate::specs::Reading::needed))]
pub(crate) fn whole_at(object: &Value, member: Member, least: u64, most: u64) -> Result<u64, Fault>
    ensures exact { result ≡ needed member (whole_in least most) (view object.now) }
    ensures bound { IfOk result (λ n. n ≤ most) }
{
    object
        .get(member.key())
        .and_then(|value| whole_in(value, least, most))
        .ok_or(Fault::BadMember(member))
}

/// The whole number at `member`, up to `most`, or 0 if there is no such member.
#[tactic(auto, unfolding(crate::specs::Reading::defaulted))]
pub(crate) fn whole_or_zero_at(object: &Value, member: Member, most: u64) -> Result<u64, Fault>
    ensures exact { result ≡ defaulted member 0 (whole_in 0 most) (view object.now) }
    ensures bound { IfOk result (λ n. n ≤ most) }
{
    match object.get(member.key()) {
        None => Ok(0),
        Some(value) => whole_in(value, 0, most).ok_or(Fault::BadMember(member)),
    }
}

/// The object at `member`.
#[tactic(auto, unfolding(crate::specs::Reading::needed))]
pub(crate) fn object_at(object: &Value, member: Member) -> Result<&Value, Fault>
    ensures { result_map_both (λ found. view found.now) (λ fault. fault) result
        ≡ needed member object_in (view object.now) }
{
    match object.get(member.key()) {
        Some(found) if found.is_object() => Ok(found),
        _ => Err(Fault::BadMember(member)),
    }
}

/// The texts in `value`, at most `most` and each of this kind. The refusal names `member`.
pub(crate) fn texts_in(
    alloc: Global,
    value: &Value,
    member: Member,
    most: usize,
    kind: TextKind,
) -> Result<Listed<Text>, Fault>
    ensures { GivesUnless Fault.Unavailable result (ok_or (list_in most (text_in kind) (view value.now)) (Fault.BadMember member)) }
{
    let items = items_in(value, most).ok_or(Fault::BadMember(member))?;
    texts_of(alloc, items, member, kind)
}

fn texts_of(
    alloc: Global,
    items: &[Value],
    member: Member,
    kind: TextKind,
) -> Result<Listed<Text>, Fault>
    ensures { GivesUnless Fault.Unavailable result (ok_or (all_in (text_in kind) (items_view items.now)) (Fault.BadMember member)) }
{
    let mut texts = Vec::new(alloc);
    for item in items {
        let text = text_in(item, kind).ok_or(Fault::BadMember(member))?;
        texts.push(Text::copied(alloc, text)?)?;
    }
    Ok(Listed::of(texts))
}
