//! The worked rows, and lines that are too long, broken, or not of the form of a line.

mod classes;
mod files;
mod jobs;
mod judging;
mod lapses;
mod messages;
mod orders;
mod quotas;
mod refusals;
mod rows;
mod settings;
mod spellings;
mod stops;
mod stored;
mod upgrades;

use commands::default_settings;
use files::{LASTING, Replay, done_in, empty, run_over};
use message_engine::ListStore;
use replay_lines::{Ended, replay};
use rows::first_wrong;
use sched_book::Settings;
use sched_server::Service;
use std::alloc::Global;
use std::io;
use std::io::{BufRead, BufReader, ErrorKind, Read};
use std::test::Fail;
use stores::Store;

/// Returns the service over a store.
fn service_over<S: Store + Drop>(alloc: Global, store: S) -> Result<Service<S>, Fail> {
    match Service::new(alloc, store) {
        Ok(service) => Ok(service),
        Err(_) => Err(Fail::new("no memory for a service")),
    }
}

/// Returns a store of new lists in memory. (A function that owns the service over it is generic in the store, as over
/// tables. If it named the store of lists, its proof would take a minute.)
fn new_store(alloc: Global) -> Result<ListStore, Fail> {
    Ok(ListStore::new(alloc, &default_settings(alloc)?)?)
}

/// What a service prints in a replay of the lines of a reader, and how the replay ends.
fn replayed_from<S: Store, R: BufRead + Drop>(
    alloc: Global,
    service: &mut Service<S>,
    reader: R,
) -> (Vec<u8>, Ended) {
    let mut printed = Vec::new(alloc);
    let ended = replay(alloc, service, reader, &mut printed);
    (printed, ended)
}

/// What a service prints in a replay of these lines, and how the replay ends.
fn replayed_by<S: Store>(
    alloc: Global,
    service: &mut Service<S>,
    lines: &[u8],
) -> Result<(Vec<u8>, Ended), Fail> {
    Ok(replayed_from(alloc, service, BufReader::new(alloc, lines)?))
}

/// What a replay of these lines prints over tables with these settings, and how it ends. It fails if the plain lists
/// print anything else.
fn replayed_under(
    alloc: Global,
    settings: &Settings,
    lines: &[u8],
) -> Result<(Vec<u8>, Ended), Fail> {
    let (by_lists, _) = run_over(alloc, ListStore::new(alloc, settings)?, lines)?;
    let replay = Replay {
        settings: Some(settings),
        lines,
    };
    let (by_tables, _) = done_in(alloc, &empty(alloc), LASTING, replay)?;
    if by_tables != by_lists {
        return Err(Fail::new("the tables answer otherwise than the lists"));
    }
    Ok(by_tables)
}

/// What a replay of these lines prints, and how it ends.
fn replayed(alloc: Global, lines: &[u8]) -> Result<(Vec<u8>, Ended), Fail> {
    replayed_with(alloc, 3, lines)
}

/// The same with this limit of hosts.
fn replayed_with(alloc: Global, max_hosts: u32, lines: &[u8]) -> Result<(Vec<u8>, Ended), Fail> {
    let mut settings = default_settings(alloc)?;
    settings.max_hosts = max_hosts;
    replayed_under(alloc, &settings, lines)
}

const PROJECT: &str =
    "1970-01-01T00:00:00Z import/accounts/a0 \"authenticator,name\\nk1,Ann\\nk2,Bob\\nk3,Cid\\n\"\n1970-01-01T00:00:00Z import/apps/a0 \"name,agreement\\ndock,exact\\nfold,within:2\\n\"\n1970-01-01T00:00:00Z import/versions/a0 \"app,platform,version_num\\ndock,linux,101\\ndock,linux,102\\nfold,linux,7\\n\"\n";

const PROJECT_IMPORTED: &str =
    "200 {\"batch\":\"a0\",\"kind\":\"accounts\",\"rows\":3}\n200 {\"batch\":\"a0\",\"kind\":\"apps\",\"rows\":2}\n200 {\"batch\":\"a0\",\"kind\":\"versions\",\"rows\":3}\n";

/// Whether these lines get these answers after the project's imports, with this limit of hosts.
fn answers_in_project(
    alloc: Global,
    max_hosts: u32,
    lines: &str,
    told: &str,
) -> Result<bool, Fail> {
    let input = format!(in alloc; "{PROJECT}{lines}")?;
    let output = format!(in alloc; "{PROJECT_IMPORTED}{told}")?;
    let (printed, ended) = replayed_with(alloc, max_hosts, input.as_bytes())?;
    Ok(ended == Ended::Good && printed.as_slice() == output.as_bytes())
}

#[test]
fn repeats_and_refusals(rt: HostRuntime) -> Result<(), Fail> {
    assert_eq!(rt; first_wrong(rt.alloc(), 3, refusals::ROWS)?, None);
    Ok(())
}

#[test]
fn grants_and_lost_jobs(rt: HostRuntime) -> Result<(), Fail> {
    assert_eq!(rt; first_wrong(rt.alloc(), 3, jobs::ROWS)?, None);
    Ok(())
}

#[test]
fn reports_and_quorums(rt: HostRuntime) -> Result<(), Fail> {
    assert_eq!(rt; first_wrong(rt.alloc(), 5, judging::ROWS)?, None);
    Ok(())
}

#[test]
fn credit_and_quotas(rt: HostRuntime) -> Result<(), Fail> {
    assert_eq!(rt; first_wrong(rt.alloc(), 5, quotas::ROWS)?, None);
    Ok(())
}

#[test]
fn lapses_and_failures(rt: HostRuntime) -> Result<(), Fail> {
    assert_eq!(rt; first_wrong(rt.alloc(), 5, lapses::ROWS)?, None);
    Ok(())
}

#[test]
fn classes_of_versions(rt: HostRuntime) -> Result<(), Fail> {
    assert_eq!(rt; first_wrong(rt.alloc(), 3, classes::ROWS)?, None);
    Ok(())
}

#[test]
fn odd_spellings(rt: HostRuntime) -> Result<(), Fail> {
    assert_eq!(rt; first_wrong(rt.alloc(), 3, spellings::ROWS)?, None);
    Ok(())
}

/// The first call of Ann's host, without its end.
const CALL_START: &str =
    "1970-01-01T00:16:40Z scheduler {\"authenticator\":\"k1\",\"rpc_seqno\":1,\"host_info\":{\"host_cpid\":\"c1\",\"p_fpops\":1000,\"m_nbytes\":8000,\"d_free\":9000},\"platform_name\":\"linux\"";

/// Its reply, if it reports nothing.
const REPLY: &str =
    "200 {\"end_word\":\"enough\",\"host_total_credit\":0,\"hostid\":1,\"request_delay\":60,\"result_abort\":[],\"result_ack\":[],\"results\":[],\"rpc_seqno\":1,\"user_name\":\"Ann\",\"user_total_credit\":0}\n";

/// Whether a replay of these lines prints this, and ends like this.
fn prints(alloc: Global, lines: &str, told: &str, end: Ended) -> Result<bool, Fail> {
    let (printed, ended) = replayed(alloc, lines.as_bytes())?;
    Ok(ended == end && printed.as_slice() == told.as_bytes())
}

/// Whether a replay of this line between two imports of accounts ends there.
fn ends_at(alloc: Global, line: &str) -> Result<bool, Fail> {
    let lines = format!(in alloc;
        "1970-01-01T00:00:00Z account k1\n{line}\n1970-01-01T00:00:00Z account k3\n"
    )?;
    prints(alloc, lines.as_str(), K1_IMPORTED, Ended::Line(2))
}

/// The answer to the import of the account `k1`.
const K1_IMPORTED: &str = "200 {\"batch\":\"k1\",\"kind\":\"accounts\",\"rows\":1}\n";

#[test]
fn lines_that_are_none_end_the_run(rt: HostRuntime) -> Result<(), Fail> {
    let alloc = rt.alloc();
    assert!(rt; prints(alloc, "", "", Ended::Good)?);
    // The last line may lack its line feed.
    assert!(rt;
        prints(
            alloc,
            "9892-03-08T12:26:40Z account k1",
            K1_IMPORTED,
            Ended::Good
        )?
    );
    assert!(rt; ends_at(alloc, "1970-01-01T00:00:00Z tick x")?);
    assert!(rt; ends_at(alloc, "1970-01-01T00:00:00.5Z account k2")?);
    assert!(rt; ends_at(alloc, "noon account k2")?);
    Ok(())
}

/// A reader that fails at each read.
#[derive(Drop)]
struct Broken {
    kind: ErrorKind,
}

impl Read for Broken {
    fn read(&mut self, _buf: &mut [u8]) -> io::Result<usize> {
        Err(io::Error::from(self.kind))
    }
}

/// A reader of a text, which is interrupted before each read.
#[derive(Drop)]
struct Interrupted<'a> {
    text: &'a [u8],
    is_ready: bool,
}

impl Read for Interrupted<'_> {
    fn read(&mut self, buf: &mut [u8]) -> io::Result<usize> {
        self.is_ready = !self.is_ready;
        if self.is_ready {
            return Err(io::Error::from(ErrorKind::Interrupted));
        }
        self.text.read(buf)
    }
}

/// The lines of a short run.
fn short_run(alloc: Global) -> Result<String, Fail> {
    Ok(format!(in alloc;
        "1970-01-01T00:00:00Z import/accounts/a0 \"authenticator,name\\nk1,Ann\\n\"\n1970-01-01T00:00:00Z account k2\n{CALL_START}}}\n"
    )?)
}

/// The answers to them.
fn short_answers(alloc: Global) -> Result<String, Fail> {
    Ok(format!(in alloc;
        "200 {{\"batch\":\"a0\",\"kind\":\"accounts\",\"rows\":1}}\n200 {{\"batch\":\"k2\",\"kind\":\"accounts\",\"rows\":1}}\n{REPLY}"
    )?)
}

/// What a replay over a store prints if its reader is interrupted before each few bytes, and how it ends.
fn replayed_interrupted<S: Store + Drop>(
    alloc: Global,
    store: S,
    text: &[u8],
) -> Result<(Vec<u8>, Ended), Fail> {
    let interrupted = Interrupted {
        text,
        is_ready: false,
    };
    let reader = BufReader::with_capacity(alloc, 7, interrupted)?;
    let mut service = service_over(alloc, store)?;
    Ok(replayed_from(alloc, &mut service, reader))
}

/// What a replay over a store prints if its reader fails after these bytes, and how it ends.
fn replayed_before_a_fault<S: Store + Drop>(
    alloc: Global,
    store: S,
    prefix: &[u8],
) -> Result<(Vec<u8>, Ended), Fail> {
    let reader = BufReader::new(
        alloc,
        prefix.chain(Broken {
            kind: ErrorKind::ConnectionReset,
        }),
    )?;
    let mut service = service_over(alloc, store)?;
    Ok(replayed_from(alloc, &mut service, reader))
}

/// What a service prints in a replay if there is room for this many bytes, and how the replay ends.
fn printed_into<S: Store>(
    alloc: Global,
    service: &mut Service<S>,
    length: usize,
    lines: &[u8],
) -> Result<(Vec<u8>, Ended), Fail> {
    let reader = BufReader::new(alloc, lines)?;
    let mut room = vec![in alloc; b' '; length]?;
    let ended = replay(alloc, service, reader, room.as_mut_slice());
    Ok((room, ended))
}

/// What a replay over a store prints if there is room for this many bytes, and how it ends.
fn replayed_into<S: Store + Drop>(
    alloc: Global,
    store: S,
    length: usize,
    lines: &[u8],
) -> Result<(Vec<u8>, Ended), Fail> {
    printed_into(alloc, &mut service_over(alloc, store)?, length, lines)
}

/// Whether a run printed a prefix of this text, and ended as its reader or its writer failed.
fn broke(run: &(Vec<u8>, Ended), told: &[u8]) -> bool {
    let (printed, ended) = run;
    *ended == Ended::File && told.starts_with(printed.as_slice())
}

#[test]
fn an_interrupted_reader_is_read_on(rt: HostRuntime) -> Result<(), Fail> {
    let alloc = rt.alloc();
    let lines = short_run(alloc)?;
    let told = short_answers(alloc)?;
    let (printed, ended) = replayed_interrupted(alloc, new_store(alloc)?, lines.as_bytes())?;
    assert!(rt; ended == Ended::Good && printed.as_slice() == told.as_bytes());
    Ok(())
}

#[test]
fn a_broken_reader_ends_the_run(rt: HostRuntime) -> Result<(), Fail> {
    let alloc = rt.alloc();
    let lines = short_run(alloc)?;
    let told = short_answers(alloc)?;
    for length in 0..lines.len() {
        let prefix = lines.as_bytes().get(..length).unwrap_or(&[]);
        let run = replayed_before_a_fault(alloc, new_store(alloc)?, prefix)?;
        assert!(rt; broke(&run, told.as_bytes()), "{length}");
    }
    Ok(())
}

#[test]
fn a_broken_writer_ends_the_run(rt: HostRuntime) -> Result<(), Fail> {
    let alloc = rt.alloc();
    let lines = short_run(alloc)?;
    let told = short_answers(alloc)?;
    for length in 0..told.len() {
        let run = replayed_into(alloc, new_store(alloc)?, length, lines.as_bytes())?;
        assert!(rt; broke(&run, told.as_bytes()), "{length}");
    }
    Ok(())
}
