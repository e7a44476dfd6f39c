//! A replay: the messages of a run, one on each line, and a service's answers to them.
//!
//! `docs/PROFILE.md` states the form of a line.
#![tactic(auto)]

ghost use Rattle.std.specs.Prelude.{◌≡◌};
ghost use Rattle.replay_lines.specs.Endings.{exit_status};

mod line;

use http_responses::Media;
pub use line::{Line, line_of};
use sched_server::{Answer, Service};
use serde_json::Value;
use std::alloc::{AllocError, Global};
use std::io::{BufRead, ErrorKind, Read, Write};
use std::{fmt, io};
use stores::Store;

/// The most lines of a replay.
pub const MOST_LINES: u32 = 1_000_000;

/// The most bytes of a line, without its line feed.
pub const MOST_LINE_BYTES: usize = 1_100_000;

/// How a replay ended.
#[derive(Clone, Copy, Debug, PartialEq, Eq)]
pub enum Ended {
    /// Each line was answered.
    Good,
    /// The line of this number, from 1, does not have the form of a line or is over a limit. The lines before it were
    /// answered.
    Line(u32),
    /// The input or the output failed.
    File,
    /// There was no memory for an answer, or for reading on.
    Unavailable,
}

impl Ended {
    /// The exit status of a program that ends in this way.
    pub fn status(self) -> u8
        ensures { result ≡ exit_status self }
    {
        match self {
            Ended::Good => 0,
            Ended::Line(_) | Ended::File => 1,
            Ended::Unavailable => 2,
        }
    }
}

impl fmt::Display for Ended {
    fn fmt<W: fmt::Write>(&self, f: &mut fmt::Formatter<W>) -> fmt::Result {
        match self {
            Ended::Good => write!(f, "good"),
            Ended::Line(number) => write!(f, "line {number}"),
            Ended::File => write!(f, "file"),
            Ended::Unavailable => write!(f, "unavailable"),
        }
    }
}

/// Answers the lines of `reader` by a service. Each answer is a line of `writer`: its status, a space and its body. The
/// body of a statement is one JSON string. The first line that does not have the form of one ends the replay. If there
/// is no memory for an answer, it is the refusal `unavailable`, and the lines after it are still answered.
pub fn replay<S: Store, R: BufRead + Drop, W: Write + Drop>(
    alloc: Global,
    service: &mut Service<S>,
    mut reader: R,
    mut writer: W,
) -> Ended {
    let ended = answer_lines(alloc, service, &mut reader, &mut writer).unwrap_or_else(
        |error| ended_by(&error),
    );
    match writer.flush() {
        Ok(()) => ended,
        Err(_) => Ended::File,
    }
}

fn ended_by(error: &io::Error) -> Ended {
    match error.kind() {
        ErrorKind::OutOfMemory => Ended::Unavailable,
        _ => Ended::File,
    }
}

/// Answers each line.
fn answer_lines<S: Store, R: BufRead, W: Write>(
    alloc: Global,
    service: &mut Service<S>,
    reader: &mut R,
    writer: &mut W,
) -> io::Result<Ended> {
    let mut line = Vec::new(alloc);
    let mut ended = Ended::Good;
    for number in 1..=MOST_LINES {
        if !read_line(reader, &mut line)? {
            return Ok(ended);
        }
        match print_answer(alloc, service, &line, writer)? {
            Printed::Answer => {}
            Printed::Unavailable => ended = Ended::Unavailable,
            Printed::NoLine => return Ok(Ended::Line(number)),
        }
    }
    if read_line(reader, &mut line)? {
        return Ok(Ended::Line(MOST_LINES + 1));
    }
    Ok(ended)
}

/// Reads a line with its line feed, or as much of it as shows that it is too long. Returns false at the end of the
/// input.
fn read_line<R: BufRead>(reader: &mut R, line: &mut Vec<u8>) -> io::Result<bool> {
    line.clear();
    let read = Read::take(&mut *reader, MOST_LINE_BYTES as u64 + 1).read_until(b'\n', line)?;
    Ok(read != 0)
}

/// The line without its line feed, or `None` if it is too long.
fn text_of(line: &[u8]) -> Option<&[u8]> {
    let text = line.strip_suffix(b"\n".as_slice()).unwrap_or(line);
    if text.len() > MOST_LINE_BYTES {
        return None;
    }
    Some(text)
}

/// What was printed for a line.
#[derive(Clone, Copy)]
enum Printed {
    Answer,
    /// The refusal for lack of memory.
    Unavailable,
    /// Nothing, since the line does not have the form of one.
    NoLine,
}

/// Prints the answer to a line, which may have its line feed.
fn print_answer<S: Store, W: Write>(
    alloc: Global,
    service: &mut Service<S>,
    line: &[u8],
    writer: &mut W,
) -> io::Result<Printed> {
    let Some(text) = text_of(line) else {
        return Ok(Printed::NoLine);
    };
    match line_of(alloc, service.operator_key(), text) {
        Ok(None) => Ok(Printed::NoLine),
        Ok(Some(line)) => {
            let answer = service.handle(alloc, line.now, line.message.as_slice());
            print_told(alloc, writer, &answer)
        }
        Err(_) => print(writer, &Answer::Unavailable),
    }
}

/// Prints an answer. The body of a statement is printed as a JSON string, if there is memory for it.
fn print_told<W: Write>(alloc: Global, writer: &mut W, answer: &Answer) -> io::Result<Printed> {
    match answer.media() {
        Media::Json => print(writer, answer),
        Media::Csv => print_quoted(alloc, writer, answer),
    }
}

fn print_quoted<W: Write>(alloc: Global, writer: &mut W, answer: &Answer) -> io::Result<Printed> {
    match quoted(alloc, answer.body()) {
        Ok(text) => {
            writeln!(writer, "{} {text}", answer.status())?;
            Ok(Printed::Answer)
        }
        Err(_) => print(writer, &Answer::Unavailable),
    }
}

/// A text as a JSON string (RFC 8259, section 7).
fn quoted(alloc: Global, text: &str) -> Result<String, AllocError> {
    Value::String(String::from_str(alloc, text)?).to_string(alloc)
}

/// Prints the status and the body of an answer.
fn print<W: Write>(writer: &mut W, answer: &Answer) -> io::Result<Printed> {
    writeln!(writer, "{} {}", answer.status(), answer.body())?;
    match answer {
        Answer::Unavailable => Ok(Printed::Unavailable),
        Answer::Response(_) => Ok(Printed::Answer),
    }
}
