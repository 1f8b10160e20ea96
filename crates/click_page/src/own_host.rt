//! Whether a request is for this page's own host.

ghost use Rattle.std.specs.Prelude.{◌≡◌, ◌&&◌, map, codes, bytes_eq, IfOk};
ghost use Rattle.std.specs.List.{list_any};
ghost use Rattle.http_header.specs.HeaderMap.{get_all};
ghost use Rattle.http.specs.Request.{head_of};
ghost use Rattle.click_page.specs.Asking.{at_port, has_page_header, is_among, is_one_of, is_for_own_host, lowercase, own_hosts, own_names};

use bytes::Bytes;
use http::{HeaderMap, Request};
use itoa::Buffer;
use std::alloc::{AllocError, Global};

/// The port that browsers leave out of a Host field.
const PLAIN_PORT: u16 = 80;

/// Returns whether the request is for the page at this port.
///
/// Its target in the absolute form names the page, or it has exactly one Host field, which names
/// the page.
pub(crate) fn is_for_own_host(
    alloc: Global,
    port: u16,
    request: &Request<Bytes>,
) -> Result<bool, AllocError>
    ensures { IfOk result (λ is. is ≡ is_for_own_host port (head_of request.now)) }
{
    let uri = request.uri();
    match (uri.authority(), uri.scheme_str()) {
        (None, _) => has_own_host(alloc, port, request.headers()),
        (Some(_), None) => Ok(false),
        (Some(authority), Some(scheme)) => {
            is_own_target(
                alloc,
                port,
                scheme.as_bytes(),
                authority.as_str().as_bytes(),
            )
        }
    }
}

/// Returns whether a target with this scheme and this authority names the page.
fn is_own_target(
    alloc: Global,
    port: u16,
    scheme: &[u8],
    authority: &[u8],
) -> Result<bool, AllocError>
    ensures { IfOk result (λ is. is ≡ (bytes_eq (lowercase scheme.now) (codes "http") && is_among (own_hosts port) authority.now)) }
{
    if scheme.to_ascii_lowercase(alloc)?.as_slice() != b"http".as_slice() {
        return Ok(false);
    }
    names_page(alloc, port, authority)
}

/// Returns whether the request has the header that browsers do not let a page of another origin
/// send.
pub(crate) fn has_page_header(request: &Request<Bytes>) -> bool
    ensures { result ≡ has_page_header (head_of request.now) }
{
    request
        .headers()
        .get_all("x-click-page")
        .iter()
        .next()
        .is_some()
}

/// Returns whether there is exactly one Host field, and it names the page.
fn has_own_host(alloc: Global, port: u16, headers: &HeaderMap) -> Result<bool, AllocError>
    ensures { IfOk result (λ is. is ≡ is_one_of (own_hosts port) (get_all headers.now (codes "host"))) }
{
    let mut hosts = headers.get_all("host").iter();
    match (hosts.next(), hosts.next()) {
        (Some(host), None) => names_page(alloc, port, host.as_bytes()),
        _ => Ok(false),
    }
}

/// Returns whether a host, in small or capital letters, is one of the page.
fn names_page(alloc: Global, port: u16, host: &[u8]) -> Result<bool, AllocError>
    ensures { IfOk result (λ is. is ≡ is_among (own_hosts port) host.now) }
{
    let host = host.to_ascii_lowercase(alloc)?;
    Ok(is_own_host(port, host.as_slice()))
}

fn is_own_host(port: u16, host: &[u8]) -> bool
    ensures { result ≡ list_any (bytes_eq host.now) (own_hosts port) }
{
    let mut buffer = Buffer::new();
    is_own_name_at(buffer.format(port).as_bytes(), host)
        || (port == PLAIN_PORT && is_own_name(host))
}

fn is_own_name_at(port: &[u8], host: &[u8]) -> bool
    ensures { result ≡ list_any (bytes_eq host.now) (map (at_port port.now) own_names) }
{
    is_at_port(b"127.0.0.1", port, host)
        || is_at_port(b"localhost", port, host)
        || is_at_port(b"[::1]", port, host)
}

fn is_own_name(host: &[u8]) -> bool
    ensures { result ≡ list_any (bytes_eq host.now) own_names }
{
    host == b"127.0.0.1".as_slice()
        || host == b"localhost".as_slice()
        || host == b"[::1]".as_slice()
}

/// Returns whether the host is this name with this port.
fn is_at_port(name: &[u8], port: &[u8], host: &[u8]) -> bool
    ensures { result ≡ bytes_eq host.now (at_port port.now name.now) }
{
    if !host.starts_with(name) {
        return false;
    }
    let after_name = &host[name.len()..];
    after_name.starts_with(b":") && &after_name[1..] == port
}
