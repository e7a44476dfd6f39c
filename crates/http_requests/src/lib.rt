//! The messages of HTTP (RFC 9112) that the program makes itself, for the lines of a replay and for an operator's
//! commands.
//!
//! `docs/PROFILE.md` states what each of them asks for.
#![tactic(auto)]

ghost use Rattle.std.specs.Prelude.{◌≡◌, ◌++◌, IfOk};
ghost use Rattle.std.specs.String.{string_bytes};
ghost use Rattle.http_requests.specs.Requests as spec;

use std::alloc::Global;
use texts::Memory;

/// Joins a head and a body.
fn with_body(head: String, body: &[u8]) -> Result<Vec<u8>, Memory>
    ensures { IfOk result (λ message. message.items ≡ string_bytes head ++ body.now) }
{
    let mut message = head.into_bytes();
    message.extend_from_slice(body)?;
    Ok(message)
}

fn call_head(alloc: Global, size: usize) -> Result<String, Memory>
    ensures { IfOk result (λ head. string_bytes head ≡ spec.call_head size) }
{
    format!(in alloc; "POST /scheduler HTTP/1.1\r\ncontent-length: {size}\r\n\r\n")
}

fn import_head(
    alloc: Global,
    key: &str,
    kind: &str,
    batch: &str,
    size: usize,
) -> Result<String, Memory>
    ensures { IfOk result (λ head. string_bytes head ≡ spec.import_head key.now kind.now batch.now size) }
{
    format!(in alloc;
        "POST /import/{kind}/{batch} HTTP/1.1\r\nx-operator-key: {key}\r\ncontent-length: {size}\r\n\r\n"
    )
}

fn tick_head(alloc: Global, key: &str) -> Result<String, Memory>
    ensures { IfOk result (λ head. string_bytes head ≡ spec.tick_request key.now) }
{
    format!(in alloc; "POST /tick HTTP/1.1\r\nx-operator-key: {key}\r\n\r\n")
}

fn statement_head(alloc: Global, key: &str, host: &str) -> Result<String, Memory>
    ensures { IfOk result (λ head. string_bytes head ≡ spec.statement_request key.now host.now) }
{
    format!(in alloc; "GET /hosts/{host} HTTP/1.1\r\nx-operator-key: {key}\r\n\r\n")
}

/// Returns the message to the scheduler with this body.
pub fn call_request(alloc: Global, body: &[u8]) -> Result<Vec<u8>, Memory>
    ensures { IfOk result (λ message. message.items ≡ spec.call_request body.now) }
{
    with_body(call_head(alloc, body.len())?, body)
}

/// Returns the message that imports a batch of a kind, with the operator's key.
pub fn import_request(
    alloc: Global,
    key: &str,
    kind: &str,
    batch: &str,
    text: &[u8],
) -> Result<Vec<u8>, Memory>
    ensures { IfOk result (λ message. message.items ≡ spec.import_request key.now kind.now batch.now text.now) }
{
    with_body(import_head(alloc, key, kind, batch, text.len())?, text)
}

/// Returns the message of a tick, with the operator's key.
pub fn tick_request(alloc: Global, key: &str) -> Result<Vec<u8>, Memory>
    ensures { IfOk result (λ message. message.items ≡ spec.tick_request key.now) }
{
    Ok(tick_head(alloc, key)?.into_bytes())
}

/// Returns the message that asks for the statement of the host of this number, with the operator's key.
pub fn statement_request(alloc: Global, key: &str, host: &str) -> Result<Vec<u8>, Memory>
    ensures { IfOk result (λ message. message.items ≡ spec.statement_request key.now host.now) }
{
    Ok(statement_head(alloc, key, host)?.into_bytes())
}
