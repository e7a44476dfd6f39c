//! The scheduler as a service over a store.

ghost use Rattle.std.specs.Prelude.{◌≡◌};
ghost use Rattle.http_messages.specs.Routers.{the_routes};

use http_messages::RouteKind;
use matchit::Router;
use sched_book::Cause;
use texts::Text;

/// The scheduler of a project over a store of its rows, its kept calls and its kept imports.
pub struct Service<S> {
    pub(crate) router: Router<RouteKind>,
    /// The operator's key, as the store's settings have it.
    pub(crate) key: Text,
    pub(crate) store: S,
    /// Why the last answer was unavailable, until it is taken.
    pub(crate) cause: Option<Cause>,
    ghost routed: { router ≡ the_routes },
}

impl<S> Service<S> {
    /// Returns the store, and drops the rest.
    pub(crate) fn into_store(self) -> S
        ensures { result ≡ self.store }
    {
        let Service {
            router: _router,
            key: _key,
            store,
            cause: _cause,
        } = self;
        store
    }
}

/// (It is written out, since a derived one is proved again by each function that owns a service.)
impl<S: Drop> Drop for Service<S> {
    fn drop(self) {
        let Service {
            router: _router,
            key: _key,
            store: _store,
            cause: _cause,
        } = self;
    }
}
