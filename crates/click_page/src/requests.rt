//! Parsing a request.

ghost use Rattle.std.specs.Prelude.{◌≡◌, [], unwrap_or, IfOk};
ghost use Rattle.http.specs.Request.{head_of, body_of};
ghost use Rattle.http_uri.specs.Uri.{uri_path, uri_query};
ghost use Rattle.click_page.specs.Asking.{request_at, request_on_route, route_of, parse_request};

use crate::own_host::{has_page_header, is_for_own_host};
use crate::page_request::{PageRequest, RequestRefusal};
use crate::queries::{read_of, write_of};
use crate::route::{Route, route_of};
use bytes::Bytes;
use click_base::sequence::Sequence;
use http::Request;
use std::alloc::{AllocError, Global};

/// Returns what a request asks of the page at this port of 127.0.0.1. Fails only with out of
/// memory.
#[tactic(auto, unfolding(crate::specs::Asking::parse_request))]
pub fn parse_request(
    alloc: Global,
    port: u16,
    request: &Request<Bytes>,
) -> Result<PageRequest, AllocError>
    ensures { IfOk result (λ w. w ≡ parse_request port (head_of request.now) (body_of request.now)) }
{
    if is_for_own_host(alloc, port, request)? {
        request_at(alloc, route_of(request.uri().path()), request)
    } else {
        Ok(PageRequest::Refused(RequestRefusal::ForeignHost))
    }
}

/// Returns what a request for this page's own host asks for. The route is `None` if its path is
/// unknown.
#[tactic(auto, unfolding(crate::specs::Asking::request_at))]
fn request_at(
    alloc: Global,
    route: Option<Route>,
    request: &Request<Bytes>,
) -> Result<PageRequest, AllocError>
    ensures { IfOk result (λ w. w ≡ request_at route (head_of request.now) (body_of request.now)) }
{
    let Some(route) = route else {
        return Ok(PageRequest::Refused(RequestRefusal::NotFound));
    };
    if !route.has_method(request.method().as_str().as_bytes()) {
        return Ok(PageRequest::Refused(if route.is_write() {
            RequestRefusal::WantsPost
        } else {
            RequestRefusal::WantsGet
        }));
    }
    if route.is_write() && !has_page_header(request) {
        return Ok(PageRequest::Refused(RequestRefusal::MissingHeader));
    }
    request_on_route(alloc, route, request)
}

/// Returns what a request for this route asks for.
#[tactic(auto, unfolding(crate::specs::Asking::request_on_route))]
fn request_on_route(
    alloc: Global,
    route: Route,
    request: &Request<Bytes>,
) -> Result<PageRequest, AllocError>
    ensures { IfOk result (λ w. w ≡ request_on_route route (head_of request.now) (body_of request.now)) }
{
    match route {
        Route::Page => Ok(PageRequest::Page),
        Route::Picture => Ok(PageRequest::Picture),
        Route::Flat => Ok(PageRequest::Flat),
        Route::Read => read_of(alloc, query_of(request)),
        Route::Write => write_of(alloc, query_of(request), request.body().as_slice()),
        Route::Swap => Ok(PageRequest::Write {
            handler: Sequence::copy_of(alloc, b"hotconfig")?,
            text: Sequence::copy_of(alloc, request.body().as_slice())?,
        }),
        Route::Metrics => Ok(PageRequest::Metrics),
    }
}

/// Returns the query of a request. It may be empty.
fn query_of(request: &Request<Bytes>) -> &[u8]
    ensures { result.now ≡ unwrap_or (uri_query (head_of request.now).uri) [] }
{
    request.uri().query().unwrap_or("").as_bytes()
}
