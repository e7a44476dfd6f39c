//! From the body of a scheduler call to its request.

ghost use Rattle.std.specs.Prelude.{◌≡◌, [], None, IfOk, ok_or, option_map};
ghost use Rattle.std.specs.Result.{result_map_both};
ghost use Rattle.serde_json.specs.View.{view, items_view};
ghost use Rattle.rpc_records.specs.Values.{all_in, alternatives_in, listed_in, report_in, reports_in};
ghost use Rattle.texts.specs.Reading.{GivesUnless};
ghost use Rattle.rpc_records.specs.Reading.{defaulted, host_info_at, platforms_at, request_at, json_of, value_meaning, meaning};
ghost use Rattle.rpc_records.specs.Ranges.{IsInRange};

use crate::fault::{Fault, Member};
use crate::members::{object_at, text_at, texts_in, whole_at, whole_or_zero_at};
use crate::request::{HostInfo, MOST_NUMBER, Report, Request};
use crate::text_kind::TextKind;
use crate::values::{items_in, status_in, text_in};
use serde_json::Value;
use std::alloc::{AllocError, Global};
use texts::{Listed, Memory, Text};

/// 10^18: the maximum of operations a second, and of bytes, that a host may name.
const MOST_AMOUNT: u64 = 1_000_000_000_000_000_000;

const MOST_SECONDS: u64 = 1_000_000_000;

const MOST_ALTERNATIVES: usize = 7;

const MOST_OTHER_RESULTS: usize = 1_024;

const MOST_RESULTS: usize = 256;

/// Reads the request in the body of a scheduler call.
///
/// If the body is no JSON object, it is refused with [`Fault::BadJson`]. If a member is missing or faulty, it is
/// refused with [`Fault::BadMember`], which names the first such member in the order of [`Member`].
/// [`Fault::Unavailable`] means that there is no memory.
#[tactic(auto, unfolding(crate::specs::Reading::meaning, texts::specs::Reading::and_then))]
pub fn decode_request(alloc: Global, body: &[u8]) -> Result<Request, Fault>
    ensures exact { GivesUnless Fault.Unavailable result (meaning body.now) }
    ensures in_range { IfOk result IsInRange }
{
    let value = value_in(alloc, body)?;
    request_in(alloc, &value)
}

/// The JSON value of a text (RFC 8259), or `None` if it has none.
///
/// # Errors
///
/// Out of memory.
pub fn json_value(alloc: Global, text: &[u8]) -> Result<Option<Value>, Memory>
    ensures { IfOk result (λ value. option_map view value ≡ json_of text.now) }
{
    match Value::from_slice(alloc, text) {
        Ok(value) => Ok(Some(value)),
        Err(error) if error.is_memory() => Err(AllocError),
        Err(_) => Ok(None),
    }
}

/// The value of a body. A body that has none is refused with [`Fault::BadJson`].
fn value_in(alloc: Global, body: &[u8]) -> Result<Value, Fault>
    ensures { GivesUnless Fault.Unavailable (result_map_both view (λ fault. fault) result) (ok_or (json_of body.now) Fault.BadJson) }
{
    match json_value(alloc, body)? {
        Some(value) => Ok(value),
        None => Err(Fault::BadJson),
    }
}

#[tactic(auto, unfolding(crate::specs::Reading::value_meaning))]
fn request_in(alloc: Global, value: &Value) -> Result<Request, Fault>
    ensures { GivesUnless Fault.Unavailable result (value_meaning (view value.now)) }
{
    if !value.is_object() {
        return Err(Fault::BadJson);
    }
    request_of(alloc, value)
}

#[tactic(auto, unfolding(crate::specs::Reading::request_at, texts::specs::Reading::and_then))]
fn request_of(alloc: Global, object: &Value) -> Result<Request, Fault>
    ensures { GivesUnless Fault.Unavailable result (request_at (view object.now)) }
{
    let authenticator = text_at(alloc, object, Member::Authenticator, TextKind::Word)?;
    let hostid = whole_or_zero_at(object, Member::Hostid, MOST_NUMBER as u64)?;
    let rpc_seqno = whole_at(object, Member::RpcSeqno, 0, MOST_NUMBER as u64)?;
    let host = host_of(alloc, object)?;
    let platforms = platforms_of(alloc, object)?;
    let asked = whole_or_zero_at(object, Member::WorkReqSeconds, MOST_SECONDS)?;
    let other_results = other_results_of(alloc, object)?;
    let results = results_of(alloc, object)?;
    Ok(Request {
        authenticator,
        hostid: hostid as u32,
        rpc_seqno: rpc_seqno as u32,
        host,
        platforms,
        asked,
        other_results,
        results,
    })
}

#[tactic(auto, unfolding(crate::specs::Reading::host_info_at, texts::specs::Reading::and_then))]
fn host_of(alloc: Global, object: &Value) -> Result<HostInfo, Fault>
    ensures { GivesUnless Fault.Unavailable result (host_info_at (view object.now)) }
{
    let info = object_at(object, Member::HostInfo)?;
    Ok(HostInfo {
        host_cpid: text_at(alloc, info, Member::HostCpid, TextKind::Word)?,
        p_fpops: whole_at(info, Member::PFpops, 1, MOST_AMOUNT)?,
        m_nbytes: whole_at(info, Member::MNbytes, 0, MOST_AMOUNT)?,
        d_free: whole_at(info, Member::DFree, 0, MOST_AMOUNT)?,
    })
}

/// The host's own platform, and after it the alternatives.
#[tactic(auto, unfolding(crate::specs::Reading::platforms_at, texts::specs::Reading::and_then))]
fn platforms_of(alloc: Global, object: &Value) -> Result<Listed<Text>, Fault>
    ensures { GivesUnless Fault.Unavailable result (platforms_at (view object.now)) }
{
    let own = text_at(alloc, object, Member::PlatformName, TextKind::Word)?;
    let mut platforms = alternatives_of(alloc, object)?.into_vec();
    platforms.insert(0, own)?;
    Ok(Listed::of(platforms))
}

#[tactic(auto, unfolding(crate::specs::Reading::defaulted))]
fn alternatives_of(alloc: Global, object: &Value) -> Result<Listed<Text>, Fault>
    ensures { GivesUnless Fault.Unavailable result
        (defaulted Member.AltPlatforms [] alternatives_in (view object.now)) }
{
    match object.get(Member::AltPlatforms.key()) {
        None => Ok(Listed::new(alloc)),
        Some(value) => texts_in(
            alloc,
            value,
            Member::AltPlatforms,
            MOST_ALTERNATIVES,
            TextKind::Word,
        ),
    }
}

#[tactic(auto, unfolding(crate::specs::Reading::defaulted))]
fn other_results_of(alloc: Global, object: &Value) -> Result<Option<Listed<Text>>, Fault>
    ensures { GivesUnless Fault.Unavailable result
        (defaulted Member.OtherResults None listed_in (view object.now)) }
{
    match object.get(Member::OtherResults.key()) {
        None => Ok(None),
        Some(value) => {
            let names = texts_in(
                alloc,
                value,
                Member::OtherResults,
                MOST_OTHER_RESULTS,
                TextKind::Name,
            )?;
            Ok(Some(names))
        }
    }
}

#[tactic(auto, unfolding(crate::specs::Reading::defaulted))]
fn results_of(alloc: Global, object: &Value) -> Result<Listed<Report>, Fault>
    ensures { GivesUnless Fault.Unavailable result (defaulted Member.Results [] reports_in (view object.now)) }
{
    match object.get(Member::Results.key()) {
        None => Ok(Listed::new(alloc)),
        Some(value) => {
            let items = items_in(value, MOST_RESULTS).ok_or(Fault::BadMember(Member::Results))?;
            reports_of(alloc, items)
        }
    }
}

fn reports_of(alloc: Global, items: &[Value]) -> Result<Listed<Report>, Fault>
    ensures { GivesUnless Fault.Unavailable result (ok_or (all_in report_in (items_view items.now)) (Fault.BadMember Member.Results)) }
{
    let mut reports = Vec::new(alloc);
    for item in items {
        reports.push(report_of(alloc, item)?)?;
    }
    Ok(Listed::of(reports))
}

#[tactic(auto, unfolding(crate::specs::Values::report_in))]
fn report_of(alloc: Global, value: &Value) -> Result<Report, Fault>
    ensures { GivesUnless Fault.Unavailable result (ok_or (report_in (view value.now)) (Fault.BadMember Member.Results)) }
{
    let faulty = Fault::BadMember(Member::Results);
    let name = value
        .get("name")
        .and_then(|name| text_in(name, TextKind::Name))
        .ok_or(faulty)?;
    let exit_status = value.get("exit_status").and_then(status_in).ok_or(faulty)?;
    let output = match value.get("output") {
        None => "",
        Some(output) => text_in(output, TextKind::Output).ok_or(faulty)?,
    };
    Ok(Report {
        name: Text::copied(alloc, name)?,
        exit_status,
        output: Text::copied(alloc, output)?,
    })
}
