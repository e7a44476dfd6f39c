//! Messages of HTTP as bytes, streams that stop in the middle, a socket, and the words of a command line.

use super::{Broken, CALL_START, PROJECT, REPLY, new_store, replayed_by, service_over};
use command_line::{Order, OrderFault, order_of};
use commands::serve_on;
use http_serving::{FromRead, FromWrite, IoFault, serve_one};
use replay_lines::line_of;
use sched_server::Service;
use std::alloc::Global;
use std::io;
use std::io::{ErrorKind, Read, Write};
use std::net::{Shutdown, TcpListener, TcpStream};
use std::test::Fail;
use stores::Store;
use texts::Memory;

/// A message, and the status and the body of its answer.
type Exchange = (&'static str, u16, &'static str);

const BAD_HTTP: &str = "{\"error\":\"bad_http\",\"number\":1}";

const NO_ROUTE: &str = "{\"error\":\"no_route\",\"number\":2}";

const WRONG_METHOD: &str = "{\"error\":\"wrong_method\",\"number\":3}";

const LENGTH_REQUIRED: &str = "{\"error\":\"length_required\",\"number\":4}";

const TOO_LARGE: &str = "{\"error\":\"too_large\",\"number\":5}";

const NOT_OPERATOR: &str = "{\"error\":\"not_operator\",\"number\":13}";

const NO_SUCH_HOST: &str = "{\"error\":\"no_such_host\",\"number\":19}";

const NONE_LAPSED: &str = "{\"lapsed\":0}";

/// Messages that are refused, each by another check, in the order of the checks, and one that is taken.
const MESSAGES: &[Exchange] = &[
    ("POST /tick HTTP/1.1\r\n", 400, BAD_HTTP),
    ("GET /nowhere HTTP/1.1\r\n\r\n", 404, NO_ROUTE),
    ("PUT /tick HTTP/1.1\r\n\r\n", 405, WRONG_METHOD),
    ("GET /hosts/9 HTTP/1.1\r\n\r\n", 403, NOT_OPERATOR),
    ("POST /scheduler HTTP/1.1\r\n\r\n{}", 411, LENGTH_REQUIRED),
    (
        "POST /scheduler HTTP/1.1\r\ncontent-length: 00000000002\r\n\r\n{}",
        400,
        BAD_HTTP,
    ),
    (
        "POST /scheduler HTTP/1.1\r\ncontent-length: 262145\r\n\r\n",
        413,
        TOO_LARGE,
    ),
    (
        "POST /scheduler HTTP/1.1\r\ncontent-length: 10\r\n\r\n{}",
        400,
        BAD_HTTP,
    ),
    (
        "POST /scheduler HTTP/1.1\r\ncontent-length: 2\r\n\r\n[]more",
        400,
        "{\"error\":\"bad_json\",\"number\":6}",
    ),
    (
        "GET /hosts/01 HTTP/1.1\r\nx-operator-key: opkey-01\r\n\r\n",
        404,
        NO_SUCH_HOST,
    ),
    (
        "\r\nPOST /tick?now=1 HTTP/1.0\nX-OPERATOR-KEY: opkey-01\n\n",
        200,
        NONE_LAPSED,
    ),
];

/// The status and the body of the answer to a message at moment 0, over a reader and a writer. (It has no clause, so
/// the proof of a test does not carry what each message does.)
fn answered<S: Store>(
    alloc: Global,
    service: &mut Service<S>,
    message: &[u8],
) -> Result<Vec<u8>, Fail> {
    let mut reader = message;
    let mut written = Vec::new(alloc);
    match serve_one(
        alloc,
        service,
        0,
        &mut FromRead(&mut reader),
        &mut FromWrite(&mut written),
    ) {
        Ok(()) => Ok(written),
        Err(_) => Err(Fail::new("a message over whole streams has a fault")),
    }
}

/// Whether the bytes of an answer have this status and this body.
fn tells(alloc: Global, answer: &[u8], status: u16, body: &str) -> Result<bool, Fail> {
    let start = format!(in alloc; "HTTP/1.1 {status} ")?;
    let end = format!(in alloc;
        "content-length: {}\r\nconnection: close\r\n\r\n{body}",
        body.len()
    )?;
    Ok(answer.starts_with(start.as_bytes()) && answer.ends_with(end.as_bytes()))
}

/// The first message that gets another answer over a store.
fn first_otherwise<S: Store + Drop>(
    alloc: Global,
    store: S,
    exchanges: &[Exchange],
) -> Result<Option<&'static str>, Fail> {
    first_otherwise_by(alloc, &mut service_over(alloc, store)?, exchanges)
}

fn first_otherwise_by<S: Store>(
    alloc: Global,
    service: &mut Service<S>,
    exchanges: &[Exchange],
) -> Result<Option<&'static str>, Fail> {
    for (message, status, body) in exchanges {
        let answer = answered(alloc, service, message.as_bytes())?;
        if !tells(alloc, &answer, *status, body)? {
            return Ok(Some(message));
        }
    }
    Ok(None)
}

#[test]
fn checks_come_in_their_order(rt: HostRuntime) -> Result<(), Fail> {
    assert_eq!(rt;
        first_otherwise(rt.alloc(), new_store(rt.alloc())?, MESSAGES)?,
        None
    );
    Ok(())
}

/// A message that asks for the statement of a host that does not exist.
const READS_NINTH: &str = "GET /hosts/9 HTTP/1.1\r\nx-operator-key: opkey-01\r\n\r\n";

/// All bytes of the answer to it.
const NINTH_IS_NONE: &str =
    "HTTP/1.1 404 Not Found\r\ncontent-type: application/json\r\ncontent-length: 36\r\nconnection: close\r\n\r\n{\"error\":\"no_such_host\",\"number\":19}";

/// All bytes of the answer to a method that the route of a tick does not take.
const ONLY_POST: &str =
    "HTTP/1.1 405 Method Not Allowed\r\nallow: POST\r\ncontent-type: application/json\r\ncontent-length: 35\r\nconnection: close\r\n\r\n{\"error\":\"wrong_method\",\"number\":3}";

/// Whether a statement of no host and a tick with another method get these answers, to the last byte.
fn answers_wholly<S: Store + Drop>(alloc: Global, store: S) -> Result<bool, Fail> {
    let mut service = service_over(alloc, store)?;
    let ninth = answered(alloc, &mut service, READS_NINTH.as_bytes())?;
    let put = answered(alloc, &mut service, b"PUT /tick HTTP/1.1\r\n\r\n")?;
    Ok(ninth.as_slice() == NINTH_IS_NONE.as_bytes() && put.as_slice() == ONLY_POST.as_bytes())
}

#[test]
fn answers_to_their_last_byte(rt: HostRuntime) -> Result<(), Fail> {
    assert!(rt; answers_wholly(rt.alloc(), new_store(rt.alloc())?)?);
    Ok(())
}

/// What a socket gets from a service if it sends this and then ends its side. (A connection lingers until its client
/// does.)
fn answer_on_a_socket<S: Store>(
    rt: &HostRuntime,
    service: &mut Service<S>,
    said: &[u8],
) -> Result<String, Fail> {
    let listener = TcpListener::bind(rt, ("127.0.0.1", 0u16))?;
    let mut stream = TcpStream::connect(rt, listener.local_addr()?)?;
    stream.write_all(said)?;
    stream.shutdown(Shutdown::Write)?;
    serve_on(rt, service, &listener, 1)
        .ok()
        .ok_or("the store is shut")?;
    Ok(io::read_to_string(rt.alloc(), stream)?)
}

/// The same over a store.
fn answer_over_a_store<S: Store + Drop>(
    rt: &HostRuntime,
    store: S,
    said: &[u8],
) -> Result<String, Fail> {
    answer_on_a_socket(rt, &mut service_over(rt.alloc(), store)?, said)
}

#[test]
fn a_socket_is_served(rt: HostRuntime) -> Result<(), Fail> {
    let store = new_store(rt.alloc())?;
    let answer = answer_over_a_store(&rt, store, READS_NINTH.as_bytes())?;
    assert_eq!(rt; answer.as_str(), NINTH_IS_NONE);
    Ok(())
}

/// The first bytes of a call whose body is too large.
fn too_large_call(alloc: Global) -> Result<Vec<u8>, Fail> {
    let mut said = b"POST /scheduler HTTP/1.1\r\ncontent-length: 300000\r\n\r\n".to_vec(alloc)?;
    said.extend(vec![in alloc; b'x'; 50_000]?)?;
    Ok(said)
}

#[test]
fn a_refusal_arrives_though_a_body_is_on_its_way(rt: HostRuntime) -> Result<(), Fail> {
    let said = too_large_call(rt.alloc())?;
    let answer = answer_over_a_store(&rt, new_store(rt.alloc())?, &said)?;
    assert!(rt; tells(rt.alloc(), answer.as_bytes(), 413, TOO_LARGE)?);
    Ok(())
}

/// The service over a store after the imports of the project, with no host.
fn project<S: Store + Drop>(alloc: Global, store: S) -> Result<Service<S>, Fail> {
    let mut service = service_over(alloc, store)?;
    let _printed = replayed_by(alloc, &mut service, PROJECT.as_bytes())?;
    Ok(service)
}

/// The first call of Ann's host, as a message.
fn first_call(alloc: Global) -> Result<Vec<u8>, Fail> {
    let line = format!(in alloc; "{CALL_START}}}")?;
    match line_of(alloc, "opkey-01", line.as_bytes())? {
        Some(line) => Ok(line.message.into_vec()),
        None => Err(Fail::new("the call is no line")),
    }
}

/// Whether there is a first host.
fn has_host<S: Store>(alloc: Global, service: &mut Service<S>) -> Result<bool, Fail> {
    let message = b"GET /hosts/1 HTTP/1.1\r\nx-operator-key: opkey-01\r\n\r\n";
    let answer = answered(alloc, service, message.as_slice())?;
    Ok(!tells(alloc, &answer, 404, NO_SUCH_HOST)?)
}

/// The result of serving a prefix of a message after which the reader fails, and what was written.
fn served_before_a_fault<S: Store>(
    alloc: Global,
    service: &mut Service<S>,
    prefix: &[u8],
    kind: ErrorKind,
) -> (Result<(), IoFault>, Vec<u8>) {
    let mut reader = prefix.chain(Broken { kind });
    let mut written = Vec::new(alloc);
    let served = serve_one(
        alloc,
        service,
        1000,
        &mut FromRead(&mut reader),
        &mut FromWrite(&mut written),
    );
    (served, written)
}

/// The result of serving a message if there is room for this many bytes of the answer.
fn served_into<S: Store>(
    alloc: Global,
    service: &mut Service<S>,
    message: &[u8],
    length: usize,
) -> Result<(Result<(), IoFault>, Vec<u8>), Fail> {
    let mut reader = message;
    let mut room = vec![in alloc; b' '; length]?;
    let served = serve_one(
        alloc,
        service,
        1000,
        &mut FromRead(&mut reader),
        &mut FromWrite(&mut room.as_mut_slice()),
    );
    Ok((served, room))
}

/// Whether a message whose reader fails, after each of its bytes in turn, ends as a fault of the reader, with nothing
/// written. A message that ends there must be refused.
fn prefixes_are_no_message<S: Store>(
    alloc: Global,
    service: &mut Service<S>,
    message: &[u8],
) -> Result<bool, Fail> {
    for length in 0..message.len() {
        let prefix = message.get(..length).unwrap_or(&[]);
        let (served, written) = served_before_a_fault(
            alloc,
            service,
            prefix,
            ErrorKind::ConnectionReset,
        );
        let cut = answered(alloc, service, prefix)?;
        if !matches!(served, Err(IoFault::Read)) || !written.is_empty() {
            return Ok(false);
        }
        if !tells(alloc, &cut, 400, BAD_HTTP)? {
            return Ok(false);
        }
    }
    Ok(!has_host(alloc, service)?)
}

fn no_prefix_is_a_message<S: Store + Drop>(alloc: Global, store: S) -> Result<bool, Fail> {
    let mut service = project(alloc, store)?;
    prefixes_are_no_message(alloc, &mut service, &first_call(alloc)?)
}

/// Whether a message ends as a fault of the reader, if the reader is interrupted for ever after its first half.
fn is_given_up<S: Store + Drop>(alloc: Global, store: S) -> Result<bool, Fail> {
    let mut service = project(alloc, store)?;
    let prefix = first_call(alloc)?;
    let half = prefix.get(..prefix.len() / 2).unwrap_or(&[]);
    let (served, written) = served_before_a_fault(
        alloc,
        &mut service,
        half,
        ErrorKind::Interrupted,
    );
    Ok(matches!(served, Err(IoFault::Read)) && written.is_empty())
}

#[test]
fn a_reader_that_is_interrupted_for_ever_is_given_up(rt: HostRuntime) -> Result<(), Fail> {
    assert!(rt; is_given_up(rt.alloc(), new_store(rt.alloc())?)?);
    Ok(())
}

#[test]
fn a_message_that_is_not_read_whole_never_was(rt: HostRuntime) -> Result<(), Fail> {
    assert!(rt; no_prefix_is_a_message(rt.alloc(), new_store(rt.alloc())?)?);
    Ok(())
}

/// Whether an answer whose writer fails ends as a fault of the writer. The writer fails before the first byte, and then
/// after each byte in turn. In between the whole answer must come again.
fn prefixes_come_again<S: Store>(
    alloc: Global,
    service: &mut Service<S>,
    message: &[u8],
    body: &str,
) -> Result<bool, Fail> {
    let (served, _) = served_into(alloc, service, message, 0)?;
    let whole = answered(alloc, service, message)?;
    if !matches!(served, Err(IoFault::Write)) || !tells(alloc, &whole, 200, body)? {
        return Ok(false);
    }
    for length in 1..whole.len() {
        let (served, written) = served_into(alloc, service, message, length)?;
        if !matches!(served, Err(IoFault::Write)) || !whole.starts_with(&written) {
            return Ok(false);
        }
    }
    Ok(true)
}

fn each_prefix_comes_again<S: Store + Drop>(alloc: Global, store: S) -> Result<bool, Fail> {
    let mut service = project(alloc, store)?;
    let body = REPLY.trim_start_matches("200 ").trim_end();
    prefixes_come_again(alloc, &mut service, &first_call(alloc)?, body)
}

#[test]
fn a_reply_that_is_not_written_whole_comes_again(rt: HostRuntime) -> Result<(), Fail> {
    assert!(rt; each_prefix_comes_again(rt.alloc(), new_store(rt.alloc())?)?);
    Ok(())
}

/// What a command line of these words orders.
fn ordered(alloc: Global, words: &str) -> Result<Result<Order, OrderFault>, Memory> {
    let mut all = Vec::new(alloc);
    for word in words.split(' ') {
        all.push(String::from_str(alloc, word)?)?;
    }
    Ok(order_of(alloc, &all))
}

/// Whether these words order a tick over the tables `t` at moment 0.
fn order_the_first_tick(alloc: Global, words: &str) -> Result<bool, Memory> {
    Ok(
        matches!(&ordered(alloc, words)?, Ok(Order::Tick { tables, at }) if tables.is("t") && at.seconds() == 0),
    )
}

fn are_refused(alloc: Global, words: &str) -> Result<bool, Memory> {
    Ok(matches!(&ordered(alloc, words)?, Err(OrderFault::Refused)))
}

#[test]
fn words_order_a_tick(rt: HostRuntime) -> Result<(), Fail> {
    assert!(rt;
        order_the_first_tick(
            rt.alloc(),
            "bsched tick --tables t --at 1970-01-01T00:00:00Z"
        )?
    );
    assert!(rt; are_refused(rt.alloc(), "bsched tick --tables t --at x")?);
    Ok(())
}
