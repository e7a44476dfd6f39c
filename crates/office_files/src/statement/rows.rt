//! The text of a statement, written by `csv`.

ghost use Rattle.std.specs.Prelude.{◌≡◌, ◌<◌, ◌^◌, ◌++◌, ℕ, List, [], IfOk, OnOk, decimal, map};
ghost use Rattle.std.specs.Option.{SomeIff};
ghost use Rattle.std.specs.List.{flat_map};
ghost use Rattle.csv.specs.Writing.{default_writer, row_text};
ghost use Rattle.office_files.specs.Rows.{HasWritten};
ghost use Rattle.office_files.specs.Statements as spec;

use super::civil::civil_text;
use super::line::StatementLine;
use csv::{Writer, WriterBuilder};
use sched_book::{Cause, Invariant, Unavailable};
use std::alloc::Global;
use std::io::Write;
use texts::{Memory, Text};

/// Millicredits as credits: 5000 is `5.000`.
fn credit_text(alloc: Global, millicredits: u64) -> Result<Text, Memory>
    ensures { IfOk result (λ text. text ≡ spec.credit_text millicredits) }
{
    Ok(Text::of(format!(in alloc; "{}.{:03}", millicredits / 1000, millicredits % 1000)?))
}

fn number_text(alloc: Global, number: u32) -> Result<Text, Memory>
    ensures { IfOk result (λ text. text ≡ decimal number) }
{
    Ok(Text::of(format!(in alloc; "{number}")?))
}

/// Writes a row.
fn write_row<W: Write + Drop>(writer: &mut Writer<W>, fields: &[&[u8]]) -> Result<(), Unavailable>
    ensures { (before : List ℕ) → HasWritten W.contents writer.old before
        → OnOk result (HasWritten W.contents writer.new (before ++ row_text default_writer (map (λ field. field.now) fields.now))) }
{
    match writer.write_fields(fields) {
        Ok(()) => Ok(()),
        Err(_) => Err(Unavailable(Cause::Memory)),
    }
}

/// Writes the row of a line, whose moments and credit have these texts.
fn write_states<'a, W: Write + Drop>(
    alloc: Global,
    writer: &mut Writer<W>,
    line: &'a StatementLine,
    sent: &'a str,
    deadline: &'a str,
    credit: &'a str,
) -> Result<(), Unavailable>
    ensures { (before : List ℕ) → HasWritten W.contents writer.old before
        → OnOk result (HasWritten W.contents writer.new (before ++ row_text default_writer (spec.fields_with line.now sent.now deadline.now credit.now))) }
{
    let server_state = number_text(alloc, line.server_state)?;
    let outcome = number_text(alloc, line.outcome)?;
    let validate_state = number_text(alloc, line.validate_state)?;
    write_row(
        writer,
        &[
            line.result.as_str().as_bytes(),
            line.app.as_str().as_bytes(),
            sent.as_bytes(),
            deadline.as_bytes(),
            server_state.as_str().as_bytes(),
            outcome.as_str().as_bytes(),
            validate_state.as_str().as_bytes(),
            credit.as_bytes(),
        ],
    )
}

/// Writes the row of a line.
fn write_line<W: Write + Drop>(
    alloc: Global,
    writer: &mut Writer<W>,
    line: &StatementLine,
) -> Result<(), Unavailable>
    ensures { (before : List ℕ) → HasWritten W.contents writer.old before
        → OnOk result (HasWritten W.contents writer.new (before ++ spec.line_text line.now)) }
{
    let sent = civil_text(alloc, line.sent)?;
    let deadline = civil_text(alloc, line.deadline)?;
    let credit = credit_text(alloc, u64::from(line.credit))?;
    write_states(
        alloc,
        writer,
        line,
        sent.as_str(),
        deadline.as_str(),
        credit.as_str(),
    )
}

/// Writes the rows of lines.
fn write_lines<W: Write + Drop>(
    alloc: Global,
    writer: &mut Writer<W>,
    lines: &[StatementLine],
) -> Result<(), Unavailable>
    ensures { (before : List ℕ) → HasWritten W.contents writer.old before
        → OnOk result (HasWritten W.contents writer.new (before ++ flat_map spec.line_text lines.now)) }
{
    for line in lines {
        write_line(alloc, writer, line)?;
    }
    Ok(())
}

fn write_header<W: Write + Drop>(writer: &mut Writer<W>) -> Result<(), Unavailable>
    ensures { (before : List ℕ) → HasWritten W.contents writer.old before
        → OnOk result (HasWritten W.contents writer.new (before ++ row_text default_writer spec.header)) }
{
    write_row(
        writer,
        &[
            b"result",
            b"app",
            b"sent",
            b"deadline",
            b"server_state",
            b"outcome",
            b"validate_state",
            b"credit",
        ],
    )
}

/// Writes the last row, with the credit of all lines.
fn write_total<W: Write + Drop>(
    alloc: Global,
    writer: &mut Writer<W>,
    credit: u64,
) -> Result<(), Unavailable>
    ensures { (before : List ℕ) → HasWritten W.contents writer.old before
        → OnOk result (HasWritten W.contents writer.new (before ++ row_text default_writer (spec.total_fields credit))) }
{
    let credit = credit_text(alloc, credit)?;
    write_row(
        writer,
        &[
            b"total",
            b"",
            b"",
            b"",
            b"",
            b"",
            b"",
            credit.as_str().as_bytes(),
        ],
    )
}

/// The millicredits of all lines together, or `None` if they are too many.
fn total_credit(lines: &[StatementLine]) -> Option<u64>
    ensures { SomeIff result (spec.total_credit lines.now < 2 ^ 64) (spec.total_credit lines.now) }
{
    let mut credit: u64 = 0;
    for line in lines {
        let Some(sum) = credit.checked_add(u64::from(line.credit)) else {
            return None;
        };
        credit = sum;
    }
    Some(credit)
}

/// Writes the rows of a statement.
fn write_statement<W: Write + Drop>(
    alloc: Global,
    writer: &mut Writer<W>,
    lines: &[StatementLine],
) -> Result<(), Unavailable>
    ensures { HasWritten W.contents writer.old []
        → OnOk result (HasWritten W.contents writer.new (spec.text_of_lines lines.now)) }
{
    let Some(credit) = total_credit(lines) else {
        return Err(Unavailable(Cause::Broken(Invariant::CreditOfStatement)));
    };
    write_header(writer)?;
    write_lines(alloc, writer, lines)?;
    write_total(alloc, writer, credit)
}

/// The text of a statement of these lines.
pub(super) fn text_of_lines(alloc: Global, lines: &[StatementLine]) -> Result<Text, Unavailable>
    ensures { IfOk result (λ text. text ≡ spec.text_of_lines lines.now) }
{
    let mut writer = WriterBuilder::new().from_writer(Vec::new(alloc));
    write_statement(alloc, &mut writer, lines)?;
    let Ok(bytes) = writer.into_inner() else {
        return Err(Unavailable(Cause::Memory));
    };
    match String::from_utf8(bytes) {
        Ok(text) => Ok(Text::of(text)),
        Err(_) => Err(Unavailable(Cause::Broken(Invariant::TextOfStatement))),
    }
}
