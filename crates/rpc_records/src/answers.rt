//! The texts of the answers to a scheduler call.

ghost use Rattle.std.specs.Prelude.{◌≡◌, [], ◌∷◌, codes, IfOk, OnOk};
ghost use Rattle.serde_json.specs.Data.{boolean, string};
ghost use Rattle.serde_json.specs.View.{members_view};
ghost use Rattle.rpc_records.specs.Spelling.{whole_json, list_json, with_members};
ghost use Rattle.rpc_records.specs.Replies.{end_word_of, job_json, reply_json, reply_text_of, details_of, fault_json, fault_text_of};

use crate::fault::Fault;
use crate::reply::{Job, Reply};
use crate::to_json::{ToJson, put, put_str, put_whole};
use serde_json::{Map, Value};
use std::alloc::Global;
use texts::{Memory, Text};

/// Returns the body of a reply.
pub fn reply_text(alloc: Global, reply: &Reply) -> Result<Text, Memory>
    ensures { IfOk result (λ text. text ≡ reply_text_of reply.now) }
{
    let value = reply.to_json(alloc)?;
    Ok(Text::of(value.to_string(alloc)?))
}

/// Returns the body of a refusal.
#[tactic(auto, unfolding(crate::specs::Replies::fault_text_of))]
pub fn fault_text(alloc: Global, fault: &Fault) -> Result<Text, Memory>
    ensures { IfOk result (λ text. text ≡ fault_text_of fault.now) }
{
    let value = fault.to_json(alloc)?;
    Ok(Text::of(value.to_string(alloc)?))
}

/// The body for [`Fault::Unavailable`], which needs no memory.
pub fn unavailable_text() -> &'static str
    ensures { result.now ≡ fault_text_of Fault.Unavailable }
{
    "{\"error\":\"unavailable\",\"number\":20}"
}

impl ToJson for Reply {
    ghost json = { reply_json };

    #[tactic(auto, unfolding(crate::specs::Replies::reply_json))]
    fn to_json(&self, alloc: Global) -> Result<Value, Memory> {
        let mut members = Map::new(alloc);
        put_call(&mut members, alloc, self)?;
        put_credit(&mut members, alloc, self)?;
        put_results(&mut members, alloc, self)?;
        Ok(Value::Object(members))
    }
}

/// Puts which call is answered, and how the answer ended.
fn put_call(members: &mut Map<String, Value>, alloc: Global, reply: &Reply) -> Result<(), Memory>
    ensures { OnOk result (members_view members.new.entries
        ≡ with_members
        ((codes "end_word", string (end_word_of reply.now.end_word))
        ∷ (codes "hostid", whole_json reply.now.hostid)
        ∷ (codes "request_delay", whole_json reply.now.request_delay)
        ∷ (codes "rpc_seqno", whole_json reply.now.rpc_seqno) ∷ [])
        (members_view members.old.entries)) }
{
    put_str(members, alloc, "end_word", reply.end_word.word())?;
    put_whole(members, alloc, "hostid", u64::from(reply.hostid))?;
    put_whole(
        members,
        alloc,
        "request_delay",
        u64::from(reply.request_delay),
    )?;
    put_whole(members, alloc, "rpc_seqno", u64::from(reply.rpc_seqno))
}

/// Puts the credit of the host and of its user.
fn put_credit(members: &mut Map<String, Value>, alloc: Global, reply: &Reply) -> Result<(), Memory>
    ensures { OnOk result (members_view members.new.entries
        ≡ with_members
        ((codes "host_total_credit", whole_json reply.now.host_total_credit)
        ∷ (codes "user_name", string reply.now.user_name)
        ∷ (codes "user_total_credit", whole_json reply.now.user_total_credit) ∷ [])
        (members_view members.old.entries)) }
{
    put_whole(members, alloc, "host_total_credit", reply.host_total_credit)?;
    put(members, alloc, "user_name", &reply.user_name)?;
    put_whole(members, alloc, "user_total_credit", reply.user_total_credit)
}

/// Puts the three lists of results.
fn put_results(members: &mut Map<String, Value>, alloc: Global, reply: &Reply) -> Result<(), Memory>
    ensures { OnOk result (members_view members.new.entries
        ≡ with_members
        ((codes "result_abort", list_json string reply.now.result_abort)
        ∷ (codes "result_ack", list_json string reply.now.result_ack)
        ∷ (codes "results", list_json job_json reply.now.results) ∷ [])
        (members_view members.old.entries)) }
{
    put(members, alloc, "result_abort", &reply.result_abort)?;
    put(members, alloc, "result_ack", &reply.result_ack)?;
    put(members, alloc, "results", &reply.results)
}

impl ToJson for Job {
    ghost json = { job_json };

    fn to_json(&self, alloc: Global) -> Result<Value, Memory> {
        let mut members = Map::new(alloc);
        put_names(&mut members, alloc, self)?;
        put_terms(&mut members, alloc, self)?;
        Ok(Value::Object(members))
    }
}

/// Puts what the job is an instance of, and what runs it.
fn put_names(members: &mut Map<String, Value>, alloc: Global, job: &Job) -> Result<(), Memory>
    ensures { OnOk result (members_view members.new.entries
        ≡ with_members
        ((codes "app_name", string job.now.app_name)
        ∷ (codes "name", string job.now.name)
        ∷ (codes "platform", string job.now.platform)
        ∷ (codes "wu_name", string job.now.wu_name) ∷ [])
        (members_view members.old.entries)) }
{
    put(members, alloc, "app_name", &job.app_name)?;
    put(members, alloc, "name", &job.name)?;
    put(members, alloc, "platform", &job.platform)?;
    put(members, alloc, "wu_name", &job.wu_name)
}

/// Puts how long the job takes, until when, and whether it was sent before.
fn put_terms(members: &mut Map<String, Value>, alloc: Global, job: &Job) -> Result<(), Memory>
    ensures { OnOk result (members_view members.new.entries
        ≡ with_members
        ((codes "estimate", whole_json job.now.estimate)
        ∷ (codes "report_deadline", whole_json job.now.report_deadline)
        ∷ (codes "resent", boolean job.now.resent)
        ∷ (codes "version_num", whole_json job.now.version_num) ∷ [])
        (members_view members.old.entries)) }
{
    put_whole(members, alloc, "estimate", job.estimate)?;
    put_whole(members, alloc, "report_deadline", job.report_deadline)?;
    serde_json::put(members, alloc, "resent", Value::Bool(job.resent))?;
    put_whole(members, alloc, "version_num", u64::from(job.version_num))
}

impl ToJson for Fault {
    ghost json = { fault_json };

    fn to_json(&self, alloc: Global) -> Result<Value, Memory> {
        let mut members = Map::new(alloc);
        put_str(&mut members, alloc, "error", self.name())?;
        put_whole(&mut members, alloc, "number", u64::from(self.number()))?;
        put_details(&mut members, alloc, *self)?;
        Ok(Value::Object(members))
    }
}

/// Puts what a refusal says in addition to its name and number.
fn put_details(members: &mut Map<String, Value>, alloc: Global, fault: Fault) -> Result<(), Memory>
    ensures { OnOk result (members_view members.new.entries
        ≡ with_members (details_of fault) (members_view members.old.entries)) }
{
    match fault {
        Fault::BadMember(member) => put_str(members, alloc, "member", member.path()),
        Fault::Stale(last) | Fault::Reused(last) => {
            put_whole(members, alloc, "last", u64::from(last))
        }
        Fault::BadCsv { row, column } => {
            put_whole(members, alloc, "column", column)?;
            put_whole(members, alloc, "row", row)
        }
        Fault::DuplicateName(row) | Fault::UnknownReference(row) => {
            put_whole(members, alloc, "row", row)
        }
        Fault::BadHttp
        | Fault::NoRoute
        | Fault::WrongMethod
        | Fault::LengthRequired
        | Fault::TooLarge
        | Fault::BadJson
        | Fault::BadAccount
        | Fault::BadHost
        | Fault::HostsFull
        | Fault::NotOperator
        | Fault::BatchReused
        | Fault::TableFull
        | Fault::NoSuchHost
        | Fault::Unavailable => Ok(()),
    }
}
