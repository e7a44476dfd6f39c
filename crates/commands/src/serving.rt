//! Connections, one after the other.

ghost use Rattle.std.specs.Prelude.{◌≡◌, ◌≤◌, List, length, Option, Err, OnOk, OnErr};
ghost use Rattle.sched_server.specs.Arrivals.{Came};
ghost use Rattle.sched_server.specs.Serving.{ServesConnection, ServesInTurn, messages_of};
ghost use Rattle.sched_server.specs.Views.{store_of};
ghost use Rattle.commands.specs.Wire.{IsConnection, IsCarried, IsServed};

use crate::causes::Causes;
use crate::connections::{Accepted, Connections, SystemConnections};
use crate::ending::Failure;
use crate::watched::Watched;
use sched_book::Cause;
use sched_server::Service;
use std::net::TcpListener;
use stores::Store;

/// Serves `count` connections to a listener's port, as [`serve_connections`] does.
///
/// At most one message of each connection is handled. A store that agreed with some messages agrees afterwards with
/// these in front of them.
///
/// # Errors
///
/// [`Failure::Unavailable`] after the connection at which a fault of the disk shut the store. Opened again, the store has
/// everything that was answered. Any failure if the system has no further handle of the listener: then nothing was served.
pub fn serve_on<S: Store>(
    rt: &HostRuntime,
    service: &mut Service<S>,
    listener: &TcpListener,
    count: u32,
) -> Result<(), Failure>
    ensures served { (connections : List (Option Came)) × (length connections ≤ count) × OnOk result (length connections ≡ count)
        × ServesInTurn S.Store (messages_of connections) service.old service.new }
{
    let mut connections = SystemConnections::on(rt, listener.try_clone()?);
    serve_connections(rt, service, &mut connections, count)
}

/// Serves `count` connections, one after the other. It reads one message from each and answers it, at the moment at which the
/// connection was accepted. A connection that fails counts as served. It fails if the whole message does not arrive within
/// 10 seconds, or if the client does not take the answer within 10 seconds. If the clock can't be read, the answer is
/// `unavailable`. For an unavailable answer it prints a line to standard error that says why, but at most one a second.
///
/// Each connection is accepted, read, answered and ended before the next one is accepted. The message that is handled is
/// what its client sent, and what its client gets is the text of that message's answer, or a front of it.
///
/// # Errors
///
/// [`Failure::Unavailable`] after the connection at which a fault of the disk shut the store. Opened again, the store has
/// everything that was answered.
pub fn serve_connections<S: Store, C: Connections>(
    rt: &HostRuntime,
    service: &mut Service<S>,
    connections: &mut C,
    count: u32,
) -> Result<(), Failure>
    ensures served { (came : List (Option Came)) × IsServed C.Connections C.Reader.Source C.Writer.Sink count result came connections.old connections.new
        × ServesInTurn S.Store (messages_of came) service.old service.new }
    ensures failure { OnErr result (result ≡ Err Failure.Unavailable) }
    ensures shut { OnErr result (S.clean (store_of service.new) → ¬ S.honest (store_of service.new)) }
{
    let mut causes = Causes::new();
    for _ in 0..count {
        let is_unavailable = serve_next(rt, service, connections);
        let cause = service.take_cause();
        print_cause(rt, &mut causes, is_unavailable, cause);
        if let Ok(false) = service.is_open() {
            return Err(Failure::Unavailable);
        }
    }
    Ok(())
}

/// Prints the cause of an answer, if it was unavailable. If the service knows none, memory ran out: for the message or
/// for the response.
fn print_cause(rt: &HostRuntime, causes: &mut Causes, is_unavailable: bool, cause: Option<Cause>) {
    if is_unavailable {
        causes.print(rt, cause.unwrap_or(Cause::Memory));
    }
}

/// Accepts a connection and serves it. Returns whether the answer was unavailable.
fn serve_next<S: Store, C: Connections>(
    rt: &HostRuntime,
    service: &mut Service<S>,
    connections: &mut C,
) -> bool
    ensures { (came : Option Came) × IsConnection C.Connections C.Reader.Source C.Writer.Sink came connections.old connections.new
        × ServesConnection S.Store came service.old service.new }
{
    match connections.accept() {
        Some(accepted) => serve_accepted(rt, service, connections, accepted),
        None => false,
    }
}

/// Serves a connection that was accepted, and ends it. Returns whether the answer was unavailable.
fn serve_accepted<S: Store, C: Connections>(
    rt: &HostRuntime,
    service: &mut Service<S>,
    connections: &mut C,
    accepted: Accepted<C::Reader, C::Writer>,
) -> bool
    ensures { (came : Option Came) × IsCarried C.Connections C.Reader.Source C.Writer.Sink came accepted connections.old connections.new
        × ServesConnection S.Store came service.old service.new }
{
    let Accepted {
        mut reader,
        writer,
        now,
    } = accepted;
    let mut writer = Watched::new(writer);
    let served = service.serve(rt.alloc(), now, &mut reader, &mut writer);
    let (writer, is_unavailable) = writer.into_parts();
    connections.end(reader, writer, served.is_ok());
    is_unavailable
}
