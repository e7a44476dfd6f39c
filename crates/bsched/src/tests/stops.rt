//! A stop at each call of the disk. The files are opened again as the stop left them, and the messages continue with
//! the one in flight.

use super::files::{
    Deed, Fuses, Image, LASTING, Leaves, MOST_CALLS, ShowRows, done_in, filled_with,
};
use super::rows::{NEXT, lines_of};
use super::{PROJECT, lapses, service_over};
use commands::{Failure, serve_on};
use http_responses::Answer;
use replay_lines::line_of;
use sched_book::Cause;
use sched_server::{Arrival, Service};
use sched_tables::Tables;
use sqlite::{Alter, Connection};
use std::alloc::Global;
use std::io;
use std::io::Write;
use std::net::{Shutdown, TcpListener, TcpStream};
use std::test::Fail;
use stores::Store;

/// Adds the arrival of a line after the others.
fn push_arrival(alloc: Global, arrivals: &mut Vec<Arrival>, line: &str) -> Result<(), Fail> {
    let Some(line) = line_of(alloc, "opkey-01", line.as_bytes())? else {
        return Err(Fail::new("a row has a line that is none"));
    };
    arrivals.push(Arrival {
        now: line.now,
        bytes: line.message,
    })?;
    Ok(())
}

/// The arrivals: the imports of the project, and the messages of a row in which a job is late.
fn arrivals(alloc: Global) -> Result<Vec<Arrival>, Fail> {
    let row = lapses::ROWS.split(NEXT).nth(1).unwrap_or("");
    let lines = format!(in alloc; "{PROJECT}{}", lines_of(alloc, lapses::ROWS, row)?)?;
    let mut arrivals = Vec::new(alloc);
    for line in lines.as_str().lines() {
        push_arrival(alloc, &mut arrivals, line)?;
    }
    Ok(arrivals)
}

/// The answers to the arrivals up to the first that is unavailable. It fails if a store that a fault has shut gives
/// another answer after it. (It has no clause, so the proof of a test does not carry what many messages do.)
fn answered<S: Store>(
    alloc: Global,
    service: &mut Service<S>,
    arrivals: &[Arrival],
) -> Result<Vec<Answer>, Fail> {
    let mut answers = Vec::new(alloc);
    let mut was_lost = false;
    for arrival in arrivals {
        if was_lost && service.is_open()? {
            break;
        }
        match service.handle(alloc, arrival.now, arrival.bytes.as_slice()) {
            Answer::Unavailable => {
                was_lost = true;
                if !matches!(service.take_cause(), Some(Cause::Storage(_))) {
                    return Err(Fail::new("an unavailable answer whose cause is not the disk"));
                }
            }
            _ if was_lost => return Err(Fail::new("an answer of a store that was shut")),
            answer => answers.push(answer)?,
        }
    }
    Ok(answers)
}

/// The answers to the arrivals over a store up to the first that is unavailable, and the store after them.
fn served<S: Store + Drop>(
    alloc: Global,
    store: S,
    arrivals: &[Arrival],
) -> Result<(Vec<Answer>, S), Fail> {
    let mut service = service_over(alloc, store)?;
    let answers = answered(alloc, &mut service, arrivals)?;
    Ok((answers, service.into_tables()))
}

/// Answers arrivals up to a stop. It shows the answers, and what the files hold then, if that may have changed.
#[derive(Clone, Copy)]
struct Serve<'a> {
    arrivals: &'a [Arrival],
}

impl Deed for Serve<'_> {
    type Shown = (Vec<Answer>, Option<Image>);

    fn over<S: Alter + Leaves + Drop>(
        self,
        alloc: Global,
        conn: Connection<S>,
    ) -> Result<(Vec<Answer>, Option<Image>), Fail> {
        let Ok(tables) = Tables::open(alloc, conn) else {
            return Ok((Vec::new(alloc), None));
        };
        let (answers, tables) = served(alloc, tables, self.arrivals)?;
        let left = tables.into_connection().into_store().stopped(alloc)?;
        Ok((answers, Some(left)))
    }

    fn unopened(self, alloc: Global, left: Image) -> Result<(Vec<Answer>, Option<Image>), Fail> {
        Ok((Vec::new(alloc), Some(left)))
    }
}

/// What a run with no stop shows: the answer to each arrival, and the rows before each and at the end.
#[derive(Drop)]
struct Unstopped {
    answers: Vec<Answer>,
    rows: Vec<String>,
}

fn whole(alloc: Global, mut image: Image, arrivals: &[Arrival]) -> Result<Unstopped, Fail> {
    let mut answers = Vec::new(alloc);
    let mut rows = vec![in alloc; done_in(alloc, &image, LASTING, ShowRows)?]?;
    for arrival in arrivals.chunks(1) {
        let (answer, left) = done_in(alloc, &image, LASTING, Serve { arrivals: arrival })?;
        image = left.unwrap_or(image);
        answers.extend(answer)?;
        rows.push(done_in(alloc, &image, LASTING, ShowRows)?)?;
    }
    Ok(Unstopped { answers, rows })
}

/// How a run over files ended, if one of them may stop.
#[derive(Clone, Copy, Debug, PartialEq, Eq)]
enum Ran {
    /// Neither file stopped.
    Through,
    /// One stopped, and after that everything went on as without a stop.
    On,
    /// Something was lost, doubled or answered otherwise.
    Wrong,
}

/// Whether the answers are those of a run with no stop. If the arrival in flight was a tick that was already stored,
/// its answer may say that nothing lapsed.
fn are_answers(answers: &[Answer], whole: &[Answer], in_flight: Option<usize>) -> bool {
    answers.len() == whole.len()
        && answers.iter().zip(whole).enumerate().all(|(at, (answer, wanted))| {
            answer.body() == wanted.body()
                || (in_flight == Some(at)
                    && answer.body() == "{\"lapsed\":0}"
                    && wanted.body().starts_with("{\"lapsed\":"))
        })
}

/// Sends the arrivals from the one in flight on, after a stop that left these files. Returns whether everything is then
/// as without a stop.
fn goes_on(
    alloc: Global,
    mut answers: Vec<Answer>,
    left: &Image,
    arrivals: &[Arrival],
    whole: &Unstopped,
) -> Result<bool, Fail> {
    let done = answers.len();
    let rows = done_in(alloc, left, LASTING, ShowRows)?;
    let was_in = whole.rows.get(done + 1) == Some(&rows);
    if !was_in && whole.rows.get(done) != Some(&rows) {
        return Ok(false);
    }
    let (more, end) = done_in(
        alloc,
        left,
        LASTING,
        Serve {
            arrivals: arrivals.get(done..).unwrap_or(&[]),
        },
    )?;
    answers.extend(more)?;
    let rows = done_in(alloc, end.as_ref().unwrap_or(left), LASTING, ShowRows)?;
    Ok(
        whole.rows.last() == Some(&rows)
            && are_answers(&answers, &whole.answers, was_in.then_some(done)),
    )
}

/// Serves the arrivals over files with fuses. After a stop the files are opened again, and the rest is sent.
fn ran_over(
    alloc: Global,
    image: &Image,
    fuses: Fuses,
    arrivals: &[Arrival],
    whole: &Unstopped,
) -> Result<Ran, Fail> {
    let (answers, left) = done_in(alloc, image, fuses, Serve { arrivals })?;
    if answers.len() == arrivals.len() {
        return Ok(Ran::Through);
    }
    let left = left.as_ref().unwrap_or(image);
    if goes_on(alloc, answers, left, arrivals, whole)? {
        return Ok(Ran::On);
    }
    Ok(Ran::Wrong)
}

/// How many stops of the log, or of the database file, there were, if after each one everything went on as without a
/// stop. If not, none.
fn stops_survived(alloc: Global, in_log: bool) -> Result<Option<u64>, Fail> {
    let (_, image) = filled_with(alloc, &[])?;
    let arrivals = arrivals(alloc)?;
    let (_, fresh) = filled_with(alloc, &[])?;
    let whole = whole(alloc, fresh, &arrivals)?;
    for calls in 0..MOST_CALLS {
        match ran_over(
            alloc,
            &image,
            Fuses::after(calls, in_log),
            &arrivals,
            &whole,
        )? {
            Ran::Through => return Ok(Some(calls)),
            Ran::On => {}
            Ran::Wrong => return Ok(None),
        }
    }
    Ok(None)
}

#[test]
fn a_stop_of_the_log_at_each_call_loses_nothing(rt: HostRuntime) -> Result<(), Fail> {
    let stops = stops_survived(rt.alloc(), true)?;
    assert!(rt; stops.is_some_and(|stops| stops > 50), "{stops:?}");
    Ok(())
}

#[test]
fn a_stop_of_the_database_file_at_each_call_loses_nothing(rt: HostRuntime) -> Result<(), Fail> {
    let stops = stops_survived(rt.alloc(), false)?;
    assert!(rt; stops.is_some_and(|stops| stops > 10), "{stops:?}");
    Ok(())
}

/// Serves two connections, which each sent a message: how this ends, and what the first one's client gets.
fn served_on_a_socket<S: Store>(
    rt: &HostRuntime,
    service: &mut Service<S>,
    message: &[u8],
) -> Result<(Result<(), Failure>, String), Fail> {
    let listener = TcpListener::bind(rt, ("127.0.0.1", 0u16))?;
    let mut first = TcpStream::connect(rt, listener.local_addr()?)?;
    first.write_all(message)?;
    first.shutdown(Shutdown::Write)?;
    let mut second = TcpStream::connect(rt, listener.local_addr()?)?;
    second.write_all(message)?;
    second.shutdown(Shutdown::Write)?;
    let ended = serve_on(rt, service, &listener, 2);
    Ok((ended, io::read_to_string(rt.alloc(), first)?))
}

/// The same over a store.
fn served_by<S: Store + Drop>(
    rt: &HostRuntime,
    store: S,
    message: &[u8],
) -> Result<(Result<(), Failure>, String), Fail> {
    served_on_a_socket(rt, &mut service_over(rt.alloc(), store)?, message)
}

/// Serves two connections, which each sent a message.
#[derive(Clone, Copy)]
struct ServeOn<'a> {
    rt: &'a HostRuntime,
    message: &'a [u8],
}

impl Deed for ServeOn<'_> {
    type Shown = Option<(Result<(), Failure>, String)>;

    fn over<S: Alter + Leaves + Drop>(
        self,
        _alloc: Global,
        conn: Connection<S>,
    ) -> Result<Option<(Result<(), Failure>, String)>, Fail> {
        let Ok(tables) = Tables::open(self.rt.alloc(), conn) else {
            return Ok(None);
        };
        Ok(Some(served_by(self.rt, tables, self.message)?))
    }

    fn unopened(
        self,
        _alloc: Global,
        _left: Image,
    ) -> Result<Option<(Result<(), Failure>, String)>, Fail> {
        Ok(None)
    }
}

/// Whether serving ended as it does if a fault shut the store, after an answer that says so.
fn ended_by_a_fault(alloc: Global, ended: Failure, answer: &str) -> Result<bool, Fail> {
    let line = format!(in alloc; "{ended}")?;
    Ok(ended.status() == 2 && line.as_str() == "unavailable" && answer.starts_with("HTTP/1.1 503 "))
}

/// Serves over a log that fails after each of its calls in turn. Whether serving ends only by faults, and does so at
/// least once. (A log that fails before a commit's last byte leaves the store open: then serving continues.)
fn ends_by_faults(rt: &HostRuntime) -> Result<bool, Fail> {
    let (_, image) = filled_with(rt.alloc(), &[])?;
    let arrivals = arrivals(rt.alloc())?;
    let message = arrivals.first().ok_or("nothing arrives")?.bytes.as_slice();
    let mut was_shut = false;
    for calls in 0..MOST_CALLS {
        let fuses = Fuses::after(calls, true);
        match done_in(rt.alloc(), &image, fuses, ServeOn { rt, message })? {
            None => {}
            Some((Ok(()), answer)) => {
                if answer.as_str().starts_with("HTTP/1.1 200 ") {
                    return Ok(was_shut);
                }
            }
            Some((Err(ended), answer)) => {
                if !ended_by_a_fault(rt.alloc(), ended, answer.as_str())? {
                    return Ok(false);
                }
                was_shut = true;
            }
        }
    }
    Ok(false)
}

#[test]
fn a_fault_that_shuts_the_store_ends_serving(rt: HostRuntime) -> Result<(), Fail> {
    assert!(rt; ends_by_faults(&rt)?);
    Ok(())
}
