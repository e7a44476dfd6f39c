//! What orders print. Each function is generic in the writer, so that its contract can name the bytes.

ghost use Rattle.std.specs.Prelude.{◌≡◌, ◌++◌, OnOk, codes, decimal};
ghost use Rattle.std.specs.Io.KnownBytes.{Appends};
ghost use Rattle.commands.specs.Endings.{line_end_after, printed_answer};

use http_responses::{Answer, Media};
use std::io;
use std::io::Write;

/// Prints that tables were made.
pub(crate) fn print_created<W: Write>(writer: &mut W) -> io::Result<()>
    ensures { OnOk result (Appends (W.contents writer.old) (W.contents writer.new) (codes "created\n")) }
{
    writer.write_all(b"created\n")
}

/// Prints the number of the schema of tables.
pub(crate) fn print_schema<W: Write>(writer: &mut W, schema: u32) -> io::Result<()>
    ensures { OnOk result (Appends (W.contents writer.old) (W.contents writer.new) (codes "schema " ++ decimal schema ++ codes "\n")) }
{
    writeln!(writer, "schema {schema}")
}

/// Prints the body of an answer, and a line feed if that is JSON.
pub(crate) fn print_answer<W: Write>(writer: &mut W, answer: &Answer) -> io::Result<()>
    ensures { OnOk result (Appends (W.contents writer.old) (W.contents writer.new) (printed_answer answer.now)) }
{
    writer.write_all(answer.body().as_bytes())?;
    writer.write_all(line_end(answer.media()))?;
    writer.flush()
}

/// What follows a body when it is printed: CSV ends with a line feed of its own.
fn line_end(media: Media) -> &'static [u8]
    ensures { result.now ≡ line_end_after media }
{
    match media {
        Media::Json => b"\n",
        Media::Csv => b"",
    }
}
