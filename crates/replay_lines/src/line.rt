//! The lines of a replay, each as a message of HTTP.

ghost use Rattle.std.specs.Prelude.{◌≡◌, ◌<◌, ◌==◌, length, position, IfOk, IfSome, None, option_map, option_and_then};
ghost use Rattle.std.specs.String.{string_bytes};
ghost use Rattle.serde_json.specs.Find.{as_str};
ghost use Rattle.serde_json.specs.View.{view};
ghost use Rattle.replay_lines.specs.ReplayLines as spec;

use http_requests::{call_request, import_request, statement_request, tick_request};
use instants::moment_of;
use rpc_records::json_value;
use sched_book::Moment;
use serde_json::Value;
use std::alloc::Global;
use texts::{Listed, Memory, word_of};

/// A line of a replay: a message of HTTP, and the moment at which it comes.
#[derive(Drop)]
pub struct Line {
    pub now: Moment,
    pub message: Listed<u8>,
}

/// Reads a line of a replay, `INSTANT WORD BODY` without its line feed; `None` if the line does not have that form. The
/// words are `account`, whose body is a word; `import/KIND/BATCH`, whose body is a JSON string; and `scheduler`, whose
/// body is a request's bytes, or none if it is left out. `tick` and `hosts/ID` have no body. An operator's message has
/// the key.
pub fn line_of(alloc: Global, key: &str, text: &[u8]) -> Result<Option<Line>, Memory>
    ensures { IfOk result (λ line. line ≡ spec.line_of key.now text.now) }
{
    let Some(now) = moment_of(first_part(text, b' ')) else {
        return Ok(None);
    };
    let Some(said) = second_part(text, b' ') else {
        return Ok(None);
    };
    match message_of(alloc, key, said)? {
        None => Ok(None),
        Some(message) => Ok(Some(Line { now, message })),
    }
}

fn message_of(alloc: Global, key: &str, text: &[u8]) -> Result<Option<Listed<u8>>, Memory>
    ensures { IfOk result (λ message. message ≡ spec.message_of key.now text.now) }
{
    message_by(alloc, key, first_part(text, b' '), second_part(text, b' '))
}

/// The message of this word and body.
fn message_by(
    alloc: Global,
    key: &str,
    word: &[u8],
    body: Option<&[u8]>,
) -> Result<Option<Listed<u8>>, Memory>
    ensures { IfOk result (λ message. message ≡ spec.message_by key.now word.now (option_map (λ b. b.now) body.entry)) }
{
    if word == b"account".as_slice() {
        return account_line(alloc, key, body);
    }
    if word == b"scheduler".as_slice() {
        let message = call_request(alloc, body.unwrap_or(&[]))?;
        return Ok(Some(Listed::of(message)));
    }
    if word == b"tick".as_slice() {
        return tick_line(alloc, key, body);
    }
    if first_part(word, b'/') == b"import".as_slice() {
        return import_line(alloc, key, second_part(word, b'/'), body);
    }
    if first_part(word, b'/') == b"hosts".as_slice() {
        return hosts_line(alloc, key, second_part(word, b'/'), body);
    }
    Ok(None)
}

/// A tick, which has no body.
fn tick_line(alloc: Global, key: &str, body: Option<&[u8]>) -> Result<Option<Listed<u8>>, Memory>
    ensures { IfOk result (λ message. message ≡ spec.tick_line key.now (option_map (λ b. b.now) body.entry)) }
{
    match body {
        None => Ok(Some(Listed::of(tick_request(alloc, key)?))),
        Some(_) => Ok(None),
    }
}

/// The statement of a host, which has no body.
fn hosts_line(
    alloc: Global,
    key: &str,
    host: Option<&[u8]>,
    body: Option<&[u8]>,
) -> Result<Option<Listed<u8>>, Memory>
    ensures { IfOk result (λ message.
        message ≡ spec.hosts_line key.now (option_map (λ h. h.now) host.entry) (option_map (λ b. b.now) body.entry)) }
{
    match body {
        None => host_line(alloc, key, host),
        Some(_) => Ok(None),
    }
}

fn host_line(alloc: Global, key: &str, host: Option<&[u8]>) -> Result<Option<Listed<u8>>, Memory>
    ensures { IfOk result (λ message.
        message ≡ spec.hosts_line key.now (option_map (λ h. h.now) host.entry) None) }
{
    let Some(host) = host.and_then(word_of) else {
        return Ok(None);
    };
    Ok(Some(Listed::of(statement_request(alloc, key, host)?)))
}

/// The import of the account of this name.
fn account_line(alloc: Global, key: &str, body: Option<&[u8]>) -> Result<Option<Listed<u8>>, Memory>
    ensures { IfOk result (λ message. message ≡ spec.account_line key.now (option_map (λ b. b.now) body.entry)) }
{
    let Some(body) = body else {
        return Ok(None);
    };
    let Some(name) = word_of(body) else {
        return Ok(None);
    };
    let rows = account_rows(alloc, name)?;
    let message = import_request(alloc, key, "accounts", name, rows.as_bytes())?;
    Ok(Some(Listed::of(message)))
}

fn account_rows(alloc: Global, name: &str) -> Result<String, Memory>
    ensures { IfOk result (λ text. string_bytes text ≡ spec.account_rows name.now) }
{
    format!(in alloc; "authenticator,name\n{name},{name}\n")
}

/// The import of a batch, whose kind and name are in the path.
fn import_line(
    alloc: Global,
    key: &str,
    path: Option<&[u8]>,
    body: Option<&[u8]>,
) -> Result<Option<Listed<u8>>, Memory>
    ensures { IfOk result (λ message.
        message ≡ spec.import_line key.now (option_map (λ p. p.now) path.entry) (option_map (λ b. b.now) body.entry)) }
{
    let Some(path) = path else {
        return Ok(None);
    };
    let text = text_in(alloc, body)?;
    let kind = word_of(first_part(path, b'/'));
    let batch = second_part(path, b'/').and_then(word_of);
    import_by(alloc, key, kind, batch, text)
}

/// The import of this kind, name and text, if all three are given.
fn import_by(
    alloc: Global,
    key: &str,
    kind: Option<&str>,
    batch: Option<&str>,
    text: Option<String>,
) -> Result<Option<Listed<u8>>, Memory>
    ensures { IfOk result (λ message. message ≡ spec.import_by key.now
        (option_map (λ k. k.now) kind.entry) (option_map (λ b. b.now) batch.entry) (option_map string_bytes text)) }
{
    let (Some(kind), Some(batch), Some(text)) = (kind, batch, text) else {
        return Ok(None);
    };
    let message = import_request(alloc, key, kind, batch, text.as_bytes())?;
    Ok(Some(Listed::of(message)))
}

/// The text of a JSON string (RFC 8259), if there is a body and it is one.
fn text_in(alloc: Global, body: Option<&[u8]>) -> Result<Option<String>, Memory>
    ensures { IfOk result (λ text.
        option_map string_bytes text ≡ option_and_then spec.text_told (option_map (λ b. b.now) body.entry)) }
{
    match body {
        None => Ok(None),
        Some(body) => text_told(alloc, body),
    }
}

fn text_told(alloc: Global, body: &[u8]) -> Result<Option<String>, Memory>
    ensures { IfOk result (λ text. option_map string_bytes text ≡ spec.text_told body.now) }
{
    match json_value(alloc, body)? {
        None => Ok(None),
        Some(value) => Ok(text_of(value)),
    }
}

fn text_of(value: Value) -> Option<String>
    ensures { option_map string_bytes result ≡ as_str (view value) }
{
    match value {
        Value::String(text) => Some(text),
        _ => None,
    }
}

/// What comes before the first separator, or all of it.
fn first_part(text: &[u8], separator: u8) -> &[u8]
    ensures { result.now ≡ spec.first_part separator text.now }
{
    match find_byte(text, separator) {
        Some(at) => &text[..at],
        None => text,
    }
}

/// What comes after the first separator, if there is one.
fn second_part(text: &[u8], separator: u8) -> Option<&[u8]>
    ensures { option_map (λ part. part.now) result ≡ spec.second_part separator text.now }
{
    match find_byte(text, separator) {
        Some(at) => Some(&text[at + 1..]),
        None => None,
    }
}

/// The index of the first such byte.
fn find_byte(text: &[u8], wanted: u8) -> Option<usize>
    ensures first { result ≡ position (λ byte. byte == wanted) text.now }
    ensures within { IfSome result (λ at. at < length text.now) }
{
    text.iter().position(|byte| *byte == wanted)
}
