//! The canonical text of a request.

ghost use Rattle.std.specs.Prelude.{◌≡◌, [], ◌∷◌, codes, drop, slice_index_or, IfOk, OnOk, MatchOption};
ghost use Rattle.serde_json.specs.Data.{string, put as with_member};
ghost use Rattle.serde_json.specs.View.{view, members_view};
ghost use Rattle.rpc_records.specs.Ranges.{IsInRange};
ghost use Rattle.rpc_records.specs.Reading.{meaning};
ghost use Rattle.rpc_records.specs.Spelling.{whole_json, list_json, with_members, own_platform, alternatives, host_json, report_json, request_json, canonical_text};

use crate::request::{HostInfo, Report, Request};
use crate::to_json::{ToJson, list_value, put, put_str, put_whole};
use serde_json::{Map, Value, json};
use std::alloc::Global;
use texts::{Memory, Text};

/// Returns the canonical text of a request: compact JSON with every member, defaults included. Only `other_results` may
/// be absent: it is there if the request has it. Two requests that were read have one text exactly if they are equal.
pub fn request_text(alloc: Global, request: &Request) -> Result<Text, Memory>
    ensures text { IfOk result (λ text. text ≡ canonical_text request.now) }
    // It can be read back as the request.
    ensures read_again { IfOk result (λ text. IsInRange request.now → meaning text ≡ Ok request.now) }
{
    let value = request_value(alloc, request)?;
    Ok(Text::of(value.to_string(alloc)?))
}

#[tactic(auto, unfolding(crate::specs::Spelling::request_json))]
fn request_value(alloc: Global, request: &Request) -> Result<Value, Memory>
    ensures { IfOk result (λ value. view value ≡ request_json request.now) }
{
    let mut members = Map::new(alloc);
    put_caller(&mut members, alloc, request)?;
    put_work(&mut members, alloc, request)?;
    put_other_results(&mut members, alloc, request)?;
    Ok(Value::Object(members))
}

/// Puts who calls, and the number of the call.
fn put_caller(
    members: &mut Map<String, Value>,
    alloc: Global,
    request: &Request,
) -> Result<(), Memory>
    ensures { OnOk result (members_view members.new.entries
        ≡ with_members
        ((codes "authenticator", string request.now.authenticator)
        ∷ (codes "host_info", host_json request.now.host)
        ∷ (codes "hostid", whole_json request.now.hostid)
        ∷ (codes "rpc_seqno", whole_json request.now.rpc_seqno) ∷ [])
        (members_view members.old.entries)) }
{
    put(members, alloc, "authenticator", &request.authenticator)?;
    put(members, alloc, "host_info", &request.host)?;
    put_whole(members, alloc, "hostid", u64::from(request.hostid))?;
    put_whole(members, alloc, "rpc_seqno", u64::from(request.rpc_seqno))
}

/// Puts what the host has done, and what it asks for.
fn put_work(
    members: &mut Map<String, Value>,
    alloc: Global,
    request: &Request,
) -> Result<(), Memory>
    ensures { OnOk result (members_view members.new.entries
        ≡ with_members
        ((codes "alt_platforms", list_json string (alternatives request.now))
        ∷ (codes "platform_name", string (own_platform request.now))
        ∷ (codes "results", list_json report_json request.now.results)
        ∷ (codes "work_req_seconds", whole_json request.now.asked) ∷ [])
        (members_view members.old.entries)) }
{
    put_platforms(members, alloc, request.platforms.as_slice())?;
    put(members, alloc, "results", &request.results)?;
    put_whole(members, alloc, "work_req_seconds", request.asked)
}

/// Puts the first platform, and those after it.
fn put_platforms(
    members: &mut Map<String, Value>,
    alloc: Global,
    platforms: &[Text],
) -> Result<(), Memory>
    ensures { OnOk result (members_view members.new.entries
        ≡ with_members
        ((codes "alt_platforms", list_json string (drop 1 platforms.now))
        ∷ (codes "platform_name", string (slice_index_or platforms.now 0 [])) ∷ [])
        (members_view members.old.entries)) }
{
    let (own, alternatives) = match platforms {
        [] => ("", platforms),
        [own, alternatives @ ..] => (own.as_str(), alternatives),
    };
    serde_json::put(
        members,
        alloc,
        "alt_platforms",
        list_value(alloc, alternatives)?,
    )?;
    put_str(members, alloc, "platform_name", own)
}

/// Puts the list of what the host has, if the request has one.
fn put_other_results(
    members: &mut Map<String, Value>,
    alloc: Global,
    request: &Request,
) -> Result<(), Memory>
    ensures { OnOk result (MatchOption request.now.other_results
        (members_view members.new.entries ≡ members_view members.old.entries)
        (λ names. members_view members.new.entries
        ≡ with_member (codes "other_results") (list_json string names) (members_view members.old.entries))) }
{
    match &request.other_results {
        None => Ok(()),
        Some(names) => put(members, alloc, "other_results", names),
    }
}

impl ToJson for HostInfo {
    ghost json = { host_json };

    fn to_json(&self, alloc: Global) -> Result<Value, Memory> {
        json!(in alloc; {
            "d_free": self.d_free,
            "host_cpid": self.host_cpid.as_str(),
            "m_nbytes": self.m_nbytes,
            "p_fpops": self.p_fpops,
        })
    }
}

impl ToJson for Report {
    ghost json = { report_json };

    fn to_json(&self, alloc: Global) -> Result<Value, Memory> {
        json!(in alloc; {
            "exit_status": self.exit_status,
            "name": self.name.as_str(),
            "output": self.output.as_str(),
        })
    }
}
