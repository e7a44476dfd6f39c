//! The orders of an operator.

ghost use Rattle.std.specs.Prelude.{◌≡◌, ◌≢◌, Err, IfOk, IfErr, OnOk};
ghost use Rattle.sqlite_wal.specs.Files.{image_at};
ghost use Rattle.commands.specs.Files.{LeavesFiles, KeepsFiles, HasTables, SaysSettings, in_files as left_in_files, left_of_opening};
ghost use Rattle.commands.specs.Wire.{AreServed};

use crate::answering::Task;
use crate::connections::Connections;
use crate::database::{Action, perform_on};
use crate::ending::{Failure, Left, Performed};
use crate::files::Files;
use crate::replaying::replay_input;
use command_line::Order;
use sched_book::Settings;
use sqlite::{FileFrom, FileStore, Leftover, Start};

/// What an order came to with the files of a system.
pub type OfFiles<B> = Performed<FileStore<FileFrom<B>>, Leftover<FileFrom<B>>>;

/// Does what an order says, with the files and the network of a system. `start` stands for what the tables' file holds, which
/// no code can read: `main` passes [`sqlite::Unknown`].
///
/// Suppose that what the file held agreed with some messages and their answers. Then what a stop at any moment leaves of
/// the file can be opened, and agrees with them and with the messages that the order handled, or with these and one
/// message in doubt. New tables agree with no message, and are made only if the file held none. Upgraded ones agree with
/// what they agreed with. If tables could not be opened, what a stop leaves is what the file held. The premise is that the
/// disk returns what was written.
///
/// A call of the system that never returns leaves what one leaves that fails. So what is said of each return holds for a
/// stop at any moment. Only if no file of tables was opened, nothing is left to speak of.
///
/// # Errors
///
/// The result says how the order ended: a [`Failure`] if a file, a socket or a stream failed, or if memory ran out.
pub fn perform<F: Files, C: Connections, B: Start>(
    rt: &HostRuntime,
    order: &Order,
    files: &F,
    connections: &mut C,
    start: B,
) -> OfFiles<B>
    ensures opened { HasTables order.now → result.left ≡ Left.Nothing → OnOk result.ended ⊥ × F.Files.refuses }
    ensures stands { result.left ≢ Left.Nothing
        → LeavesFiles F.Files (AreServed C.Connections C.Reader.Source C.Writer.Sink connections.old connections.new) order.now result.ended (image_at B.Start)
        result.left }
{
    match order {
        Order::Create { settings, tables } => {
            match ready(rt, files, settings.as_str(), tables.as_str()) {
                Ok(settings) => {
                    perform_in(
                        rt,
                        files,
                        connections,
                        tables.as_str(),
                        start,
                        &Action::Create(&settings),
                    )
                }
                Err(failure) => Performed::without_tables(Err(failure)),
            }
        }
        Order::Upgrade { tables } => {
            perform_in(
                rt,
                files,
                connections,
                tables.as_str(),
                start,
                &Action::Upgrade,
            )
        }
        Order::Serve {
            tables,
            port,
            count,
        } => {
            let task = Task::Serve {
                port: *port,
                count: *count,
            };
            perform_in(
                rt,
                files,
                connections,
                tables.as_str(),
                start,
                &Action::Handle(task),
            )
        }
        Order::Import {
            tables,
            kind,
            batch,
            file,
        } => {
            let task = Task::Import {
                kind: kind.as_str(),
                batch: batch.as_str(),
                file: file.as_str(),
            };
            perform_in(
                rt,
                files,
                connections,
                tables.as_str(),
                start,
                &Action::Handle(task),
            )
        }
        Order::Tick { tables, at } => {
            let task = Task::Tick { at: *at };
            perform_in(
                rt,
                files,
                connections,
                tables.as_str(),
                start,
                &Action::Handle(task),
            )
        }
        Order::Statement { tables, host } => {
            let task = Task::Statement { host: *host };
            perform_in(
                rt,
                files,
                connections,
                tables.as_str(),
                start,
                &Action::Handle(task),
            )
        }
        Order::Replay { settings } => {
            Performed::without_tables(replay_input(rt, files, settings.as_ref()))
        }
    }
}

/// Reads the settings of new tables, and makes their file if there is none.
fn ready<F: Files>(
    rt: &HostRuntime,
    files: &F,
    settings: &str,
    tables: &str,
) -> Result<Settings, Failure>
    ensures said { IfOk result (SaysSettings F.Files settings.now) }
    ensures refused { IfErr result (λ _. F.Files.refuses) }
{
    let settings = files.settings(rt, settings)?;
    files.make(rt, tables)?;
    Ok(settings)
}

/// Opens the database in a file, and does an action with it. If there is no such file, none is made.
fn perform_in<F: Files, C: Connections, B: Start>(
    rt: &HostRuntime,
    files: &F,
    connections: &mut C,
    path: &str,
    start: B,
    action: &Action<'_>,
) -> OfFiles<B>
    ensures opened { result.left ≡ Left.Nothing → OnOk result.ended ⊥ × F.Files.refuses }
    ensures keeps { result.left ≢ Left.Nothing
        → KeepsFiles F.Files (AreServed C.Connections C.Reader.Source C.Writer.Sink connections.old connections.new) action.now result.ended (image_at B.Start)
        result.left }
{
    match files.open(rt, path, start) {
        Ok(conn) => {
            let Performed { ended, left } = perform_on(rt, files, connections, conn, action);
            Performed {
                ended,
                left: in_files(left),
            }
        }
        Err((failure, rest)) => not_opened(failure, rest),
    }
}

/// What an order came to whose tables could not be opened, with what is left of their files if those were.
fn not_opened<B: Start>(failure: Failure, rest: Option<Leftover<FileFrom<B>>>) -> OfFiles<B>
    ensures ended { result.ended ≡ Err failure }
    ensures left { result.left ≡ left_of_opening rest }
{
    match rest {
        Some(rest) => Performed::refused(failure, rest),
        None => Performed::without_tables(Err(failure)),
    }
}

/// What is left of a store over files, as what is left of the files.
fn in_files<B: Start>(
    left: Left<FileStore<FileFrom<B>>, FileStore<FileFrom<B>>>,
) -> Left<FileStore<FileFrom<B>>, Leftover<FileFrom<B>>>
    ensures { result ≡ left_in_files left }
{
    match left {
        Left::Nothing => Left::Nothing,
        Left::Refused(store) => Left::Refused(Leftover::Store(store)),
        Left::Tables(store) => Left::Tables(store),
    }
}
