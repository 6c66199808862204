//! What a request asks for, and whether it gets it.
ghost use Rattle.std.specs.Prelude.{◌≡◌, map, option_copied};
ghost use Rattle.http.specs.HeaderMap.{get_all};
ghost use Rattle.http.specs.Request.{head_of};
ghost use Rattle.page_http.specs.Access.{only};
ghost use Rattle.http.specs.Uri.{uri_path, uri_query};
ghost use Rattle.page_http.specs.Asking.{route_of as route_at, is_at_home as is_home, may_change as may_write, reading_by as read_by, acting_by as act_by, asked_at as asked_there, is_by_name as is_under_name, asked_by_name as named_asks, asked_of as asked_in};
ghost use Rattle.page_http.specs.Naming.{names_of};

use crate::access::{is_json, is_known_host, is_same_origin};
use crate::asked::Asked;
use crate::host_names::HostNames;
use crate::route::{Route, route_of};
use bytes::Bytes;
use http::{HeaderMap, HeaderName, Request, header};
use std::net::SocketAddrV4;

// The one value of a field; none where it is missing, or stands there several times.
fn only_value(headers: &HeaderMap, name: HeaderName) -> Option<&[u8]>
    ensures { option_copied result ≡ only (map (λ value. value.bytes) (get_all headers.now name)) }
{
    let mut values = headers.get_all(name).into_iter();
    let first = values.next()?;
    match values.next() {
        Some(_) => None,
        None => Some(first.as_bytes()),
    }
}

// Whether a request is for this page.
fn is_at_home(site: SocketAddrV4, request: &Request<Bytes>) -> bool
    ensures { result ≡ is_home site (head_of request.now) }
{
    if request.uri().authority().is_some() {
        return false;
    }
    match only_value(request.headers(), header::HOST) {
        Some(host) => is_known_host(site, host),
        None => false,
    }
}

// Whether a request may change something.
fn may_change(site: SocketAddrV4, request: &Request<Bytes>) -> bool
    ensures { result ≡ may_write site (head_of request.now) }
{
    let headers = request.headers();
    let host = only_value(headers, header::HOST);
    let origin = only_value(headers, header::ORIGIN);
    is_same_origin(site, host, origin) && is_json(only_value(headers, header::CONTENT_TYPE))
}

fn reading_by(method: &[u8], route: Route) -> Asked
    ensures { result ≡ read_by method.now route }
{
    if method == b"GET".as_slice() {
        Asked::Reading { route }
    } else {
        Asked::Unsuited { acts: false }
    }
}

fn acting_by(site: SocketAddrV4, request: &Request<Bytes>) -> Asked
    ensures { result ≡ act_by site (head_of request.now) }
{
    if request.method().as_str().as_bytes() != b"POST".as_slice() {
        Asked::Unsuited { acts: true }
    } else if may_change(site, request) {
        Asked::Acting
    } else {
        Asked::Forbidden
    }
}

fn asked_at(site: SocketAddrV4, request: &Request<Bytes>, route: Route) -> Asked
    ensures { result ≡ asked_there site (head_of request.now) route }
{
    let method = request.method().as_str().as_bytes();
    match route {
        Route::Nothing => Asked::Missing,
        Route::Phone => acting_by(site, request),
        Route::Page
        | Route::Style
        | Route::Script
        | Route::State
        | Route::Metrics
        | Route::Health
        | Route::Ready
        | Route::Events { .. } => reading_by(method, route),
    }
}

// Whether a request is for a further name.
fn is_by_name(names: &HostNames, request: &Request<Bytes>) -> bool
    ensures { result ≡ is_under_name (names_of names.now) (head_of request.now) }
{
    if request.uri().authority().is_some() {
        return false;
    }
    match only_value(request.headers(), header::HOST) {
        Some(host) => names.has(host),
        None => false,
    }
}

fn asked_by_name(request: &Request<Bytes>, route: Route) -> Asked
    ensures { result ≡ named_asks (head_of request.now) route }
{
    let method = request.method().as_str().as_bytes();
    match route {
        Route::Metrics | Route::Health | Route::Ready => reading_by(method, route),
        Route::Nothing
        | Route::Phone
        | Route::Page
        | Route::Style
        | Route::Script
        | Route::State
        | Route::Events { .. } => Asked::Strange,
    }
}

// What stands where a request asks.
fn route_in(request: &Request<Bytes>) -> Route
    ensures { result ≡ route_at (uri_path (head_of request.now).uri) (uri_query (head_of request.now).uri) }
{
    let uri = request.uri();
    let path = uri.path().as_bytes();
    match uri.query() {
        Some(query) => route_of(path, Some(query.as_bytes())),
        None => route_of(path, None),
    }
}

/// What a request to the page at this address, or under one of these further names, asks for, and whether it gets it.
pub fn asked_of(site: SocketAddrV4, names: &HostNames, request: &Request<Bytes>) -> Asked
    ensures { result ≡ asked_in site (names_of names.now) (head_of request.now) }
{
    if is_at_home(site, request) {
        asked_at(site, request, route_in(request))
    } else if is_by_name(names, request) {
        asked_by_name(request, route_in(request))
    } else {
        Asked::Strange
    }
}
