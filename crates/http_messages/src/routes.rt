//! The routes of requests, by their paths.

ghost use Rattle.std.specs.Prelude.{◌≡◌, ◌<◌, length, IfOk, IfSome, option_map, position};
ghost use Rattle.stores.specs.Kinds.{kind_of};
ghost use Rattle.http_messages.specs.Routing as spec;
ghost use Rattle.http_messages.specs.Routers as routers;
ghost use Rattle.http_messages.specs.Routers.{the_routes};

use crate::route_kind::RouteKind;
use matchit::{InsertError, Router};
use std::alloc::Global;
use stores::Kind;
use texts::{utf8_text, word_of};

/// Where a request goes, with what its path names.
#[derive(Clone, Copy)]
pub(crate) enum Route<'b> {
    Scheduler,
    Import(Kind, &'b str),
    Tick,
    Hosts(&'b [u8]),
}

impl<'b> Route<'b> {
    /// Its kind, without what the path names.
    pub(crate) fn kind(self) -> RouteKind
        ensures { result ≡ spec.kind_of_route (spec.route_seen self.entry) }
    {
        match self {
            Route::Scheduler => RouteKind::Scheduler,
            Route::Import(_, _) => RouteKind::Import,
            Route::Tick => RouteKind::Tick,
            Route::Hosts(_) => RouteKind::Hosts,
        }
    }
}

/// The router of the four routes.
///
/// # Errors
///
/// There is no memory.
pub fn new_router(alloc: Global) -> Result<Router<RouteKind>, InsertError>
    ensures { IfOk result (λ router. router ≡ the_routes) }
{
    let mut router = Router::new(alloc);
    router.insert("/scheduler", RouteKind::Scheduler)?;
    router.insert("/import/{kind}/{batch}", RouteKind::Import)?;
    router.insert("/tick", RouteKind::Tick)?;
    router.insert("/hosts/{id}", RouteKind::Hosts)?;
    Ok(router)
}

/// The path of a target: up to the first `?`.
pub(crate) fn path_of(target: &str) -> &str
    ensures { result.now ≡ spec.path_of target.now }
{
    match target.split_once('?') {
        Some((path, _)) => path,
        None => target,
    }
}

/// The index of the first slash.
fn find_slash(text: &[u8]) -> Option<usize>
    ensures first { result ≡ position spec.is_slash text.now }
    ensures within { IfSome result (λ at. at < length text.now) }
{
    text.iter().position(|byte| *byte == b'/')
}

/// The kind of this name.
fn kind_in(name: &[u8]) -> Option<Kind>
    ensures { result ≡ kind_of name.now }
{
    match utf8_text(name) {
        Some(name) => Kind::of(name),
        None => None,
    }
}

fn import_with(kind: Option<Kind>, batch: &[u8]) -> Option<Route<'_>>
    ensures { option_map spec.route_seen result ≡ spec.import_with kind batch.now }
{
    match (kind, word_of(batch)) {
        (Some(kind), Some(batch)) => Some(Route::Import(kind, batch)),
        (None, _) | (_, None) => None,
    }
}

/// The route of an import, from what follows `/import/`.
fn import_of(text: &[u8]) -> Option<Route<'_>>
    ensures { option_map spec.route_seen result ≡ spec.import_of text.now }
{
    match find_slash(text) {
        None => None,
        Some(slash) => import_with(kind_in(&text[..slash]), &text[slash + 1..]),
    }
}

/// The route of a kind, from what the path names.
fn route_at<'b>(route_kind: RouteKind, path: &'b [u8]) -> Option<Route<'b>>
    ensures { option_map spec.route_seen result ≡ routers.route_at route_kind path.now }
{
    match route_kind {
        RouteKind::Scheduler => Some(Route::Scheduler),
        RouteKind::Tick => Some(Route::Tick),
        RouteKind::Import => match path.strip_prefix(b"/import/".as_slice()) {
            Some(text) => import_of(text),
            None => None,
        },
        RouteKind::Hosts => match path.strip_prefix(b"/hosts/".as_slice()) {
            Some(id) => Some(Route::Hosts(id)),
            None => None,
        },
    }
}

/// The route that the router finds for a path.
fn found_route<'b>(router: &Router<RouteKind>, path: &'b str) -> Option<Route<'b>>
    requires { router.now ≡ the_routes }
    ensures { option_map spec.route_seen result ≡ routers.found_route path.now }
{
    match router.at(path) {
        Ok(found) => route_at(*found.value, path.as_bytes()),
        Err(_) => None,
    }
}

/// The route of a path, if it has one.
pub(crate) fn route_of<'b>(router: &Router<RouteKind>, path: &'b str) -> Option<Route<'b>>
    requires { router.now ≡ the_routes }
    ensures { option_map spec.route_seen result ≡ spec.route_of path.now }
{
    found_route(router, path)
}
