//! Worked rows as text. A row begins with `= ` and its name. Each line comes after `> `, and its answer after `< `.
//! What comes after `# ` is a remark.
//!
//! Before the first row, a line `~ NAME TEXT` defines a pattern. Each `$` of its text is a gap. In a row,
//! `MOMENT NAME WORDS` is the moment and the pattern's text, with the words in the gaps in turn. A word has no blank, and
//! a gap without a word is empty. With the pattern `~ add import/accounts/$ "authenticator,name\n$\n"`, the line
//! `1970-01-01T00:00:00Z add a1 k4,Dan` is `1970-01-01T00:00:00Z import/accounts/a1 "authenticator,name\nk4,Dan\n"`.

use super::answers_in_project;
use std::alloc::Global;
use std::test::Fail;

/// What comes before each row's name.
pub const NEXT: &str = "\n= ";

/// The text of the pattern of this name. The patterns are in the head, which comes before the rows.
fn pattern_of<'a>(alloc: Global, head: &'a str, name: &str) -> Result<Option<&'a str>, Fail> {
    let start = format!(in alloc; "\n~ {name} ")?;
    match head.split_once(start.as_str()) {
        Some((_, rest)) => Ok(rest.lines().next()),
        None => Ok(None),
    }
}

/// The text of a pattern with these words in its gaps.
fn filled(alloc: Global, pattern: &str, words: &str) -> Result<String, Fail> {
    let mut words = words.split(' ');
    let mut text = String::new(alloc);
    for piece in pattern.split('$') {
        text.push_str(piece)?;
        text.push_str(words.next().unwrap_or(""))?;
    }
    Ok(text)
}

/// A line in full, by the patterns in the head.
fn whole(alloc: Global, head: &str, line: &str) -> Result<String, Fail> {
    let (moment, rest) = line.split_once(' ').unwrap_or((line, ""));
    let (name, words) = rest.split_once(' ').unwrap_or((rest, ""));
    match pattern_of(alloc, head, name)? {
        Some(pattern) => {
            let text = filled(alloc, pattern, words)?;
            Ok(format!(in alloc; "{moment} {text}")?)
        }
        None => Ok(String::from_str(alloc, line)?),
    }
}

/// The lines of one of these rows after this mark, in full.
fn lines_after(alloc: Global, rows: &str, row: &str, mark: &str) -> Result<String, Fail> {
    let head = rows.split(NEXT).next().unwrap_or("");
    let mut lines = String::new(alloc);
    for line in row.lines() {
        if let Some(line) = line.strip_prefix(mark) {
            lines.push_str(whole(alloc, head, line)?.as_str())?;
            lines.push_str("\n")?;
        }
    }
    Ok(lines)
}

/// The lines that one of these rows sends.
pub fn lines_of(alloc: Global, rows: &str, row: &str) -> Result<String, Fail> {
    lines_after(alloc, rows, row, "> ")
}

/// The answers that it gets.
fn answers_of(alloc: Global, rows: &str, row: &str) -> Result<String, Fail> {
    lines_after(alloc, rows, row, "< ")
}

/// Whether one of these rows holds, with this limit of hosts. After the project's imports each line must get its answer.
fn holds(alloc: Global, max_hosts: u32, rows: &str, row: &str) -> Result<bool, Fail> {
    let lines = lines_of(alloc, rows, row)?;
    let told = answers_of(alloc, rows, row)?;
    answers_in_project(alloc, max_hosts, lines.as_str(), told.as_str())
}

/// The name of the first row that does not hold, with this limit of hosts.
pub fn first_wrong(
    alloc: Global,
    max_hosts: u32,
    rows: &'static str,
) -> Result<Option<&'static str>, Fail> {
    for row in rows.split(NEXT).skip(1) {
        if !holds(alloc, max_hosts, rows, row)? {
            return Ok(row.lines().next());
        }
    }
    Ok(None)
}
