//! What each route asks of a request.

ghost use Rattle.std.specs.Prelude.{◌≡◌};
ghost use Rattle.http_messages.specs.RouteKinds as spec;

use http_responses::Method;
use sched_book::limits::MOST_IMPORT_BYTES;

/// The most bytes of the body of a call or of a tick.
const MOST_CALL_BYTES: usize = 262_144;

/// A route, without what its path names.
#[derive(Clone, Copy)]
pub enum RouteKind {
    /// `/scheduler`, for calls of hosts.
    Scheduler,
    /// `/import/KIND/BATCH`
    Import,
    /// `/tick`
    Tick,
    /// `/hosts/ID`
    Hosts,
}

impl RouteKind {
    /// The one method that it takes.
    pub(crate) fn method(self) -> Method
        ensures { result ≡ spec.method_of self }
    {
        match self {
            RouteKind::Hosts => Method::Get,
            RouteKind::Scheduler | RouteKind::Import | RouteKind::Tick => Method::Post,
        }
    }

    /// Whether only the operator may use it.
    pub(crate) fn needs_key(self) -> bool
        ensures { result ≡ spec.needs_key self }
    {
        !matches!(self, RouteKind::Scheduler)
    }

    /// The most bytes of its body.
    pub(crate) fn most_bytes(self) -> usize
        ensures { result ≡ spec.most_bytes self }
    {
        match self {
            RouteKind::Import => MOST_IMPORT_BYTES,
            RouteKind::Scheduler | RouteKind::Tick => MOST_CALL_BYTES,
            RouteKind::Hosts => 0,
        }
    }
}
