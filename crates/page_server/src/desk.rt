//! The desk: a request is answered by what the board has.
ghost use Rattle.std.specs.Prelude.{◌≡◌, ◌++◌, if◌then◌else◌, OnOk, OnErr};
ghost use Rattle.http_server.specs.Response.{IsBlank, fields_of};
ghost use Rattle.page_http.specs.declared.answers.ActOutcome.{ActOutcome as Outcome};
ghost use Rattle.page_server.specs.Statuses.{refusal_status, refusal_fields};
ghost use Rattle.page_server.specs.Fields.{kind_fields};
ghost use Rattle.page_server.specs.declared.fields.Content.TheVariants as contents;
ghost use Rattle.page_server.specs.Health.{well_status};
ghost use Rattle.page_server.specs.Serving.{Reads, Acts};

use crate::fields::{Content, put_kind};
use crate::files::{page_text, script_text, style_text};
use bytes::Bytes;
use http::{HeaderValue, Request, StatusCode, header};
use http_server::{Response, Service};
use page_http::{ActOutcome, Asked, HostNames, Route, act_on, asked_of, events_of, state_of};
use page_state::Board;
use std::alloc::{AllocError, Global};
use std::net::SocketAddrV4;

/// The desk of the page at an address, and under further names, which answers by a board for a turn.
#[derive(Drop)]
pub(crate) struct Desk<'a> {
    pub(crate) alloc: Global,
    pub(crate) site: SocketAddrV4,
    pub(crate) names: &'a HostNames,
    pub(crate) board: &'a mut Board,
}

fn put_static(
    response: &mut Response,
    content: Content,
    text: &'static str,
) -> Result<(), AllocError>
    ensures status { response.new.status ≡ response.old.status }
    ensures fields { OnOk result (fields_of response.new ≡ fields_of response.old ++ kind_fields content) }
    ensures body { OnOk result (response.new.body.items ≡ response.old.body.items ++ text.now) }
{
    put_kind(response, content)?;
    response.body.push(Bytes::from_static(text.as_bytes()))
}

// Puts what the board tells.
fn put_told(response: &mut Response, content: Content, text: Vec<u8>) -> Result<(), AllocError>
    ensures status { response.new.status ≡ response.old.status }
    ensures fields { OnOk result (fields_of response.new ≡ fields_of response.old ++ kind_fields content) }
    ensures body { OnOk result (response.new.body.items ≡ response.old.body.items ++ text.items) }
{
    put_kind(response, content)?;
    match Bytes::from_vec(text) {
        Ok(body) => response.body.push(body),
        Err(_) => Err(AllocError),
    }
}

// Puts a line of whether something is well, which is the first of these where it is (RFC 9110, 15.3.1 and 15.6.4).
fn put_wellness(
    response: &mut Response,
    is_well: bool,
    well: &'static str,
    unwell: &'static str,
) -> Result<(), AllocError>
    ensures status { response.new.status ≡ well_status is_well }
    ensures fields { OnOk result (fields_of response.new ≡ fields_of response.old ++ kind_fields contents.Plain) }
    ensures body { OnOk result (response.new.body.items ≡ response.old.body.items ++ (if is_well then well.now else unwell.now)) }
{
    if is_well {
        response.status = StatusCode::OK;
        put_static(response, Content::Plain, well)
    } else {
        response.status = StatusCode::SERVICE_UNAVAILABLE;
        put_static(response, Content::Plain, unwell)
    }
}

// Puts what stands there.
fn read(
    alloc: Global,
    board: &Board,
    route: Route,
    response: &mut Response,
) -> Result<(), AllocError>
    requires { IsBlank response.old }
    ensures { OnOk result (Reads board.now route response.new) }
{
    match route {
        Route::Page => put_static(response, Content::Page, page_text()),
        Route::Style => put_static(response, Content::Style, style_text()),
        Route::Script => put_static(response, Content::Script, script_text()),
        Route::State => {
            let Ok(text) = state_of(alloc, board) else {
                return Err(AllocError);
            };
            put_told(response, Content::Json, text.into_bytes())
        }
        Route::Metrics => {
            let Ok(text) = board.metrics() else {
                return Err(AllocError);
            };
            put_told(response, Content::Metrics, text)
        }
        // Whether its loop has turned within the last second.
        Route::Health => {
            let is_alive = board.is_alive();
            put_wellness(response, is_alive, "ok\n", "the clock is behind\n")
        }
        // Whether its announcement was answered.
        Route::Ready => {
            let is_serving = board.is_serving();
            put_wellness(
                response,
                is_serving,
                "ready\n",
                "no agent has answered yet\n",
            )
        }
        Route::Events { after } => {
            let Ok(text) = events_of(alloc, board, after) else {
                return Err(AllocError);
            };
            put_told(response, Content::Json, text.into_bytes())
        }
        Route::Phone | Route::Nothing => {
            response.status = StatusCode::NOT_FOUND;
            Ok(())
        }
    }
}

// Does what a body asks for, as far as the board does. After an error the board is as it was.
fn act(
    alloc: Global,
    board: &mut Board,
    body: &[u8],
    response: &mut Response,
) -> Result<(), AllocError>
    requires { IsBlank response.old }
    ensures ok { OnOk result ((outcome : Outcome) × Acts board.old body.now response.new board.new outcome) }
    ensures err { OnErr result (board.new ≡ board.old) }
{
    response.status = match act_on(alloc, board, body)? {
        ActOutcome::Queued => StatusCode::ACCEPTED,
        ActOutcome::NoRoom => StatusCode::SERVICE_UNAVAILABLE,
        ActOutcome::Unreadable => StatusCode::BAD_REQUEST,
    };
    Ok(())
}

// Says that a request gets nothing, and which method suits a path at which something is done, or read.
fn put_refusal(response: &mut Response, asked: Asked) -> Result<(), AllocError>
    ensures status { response.new.status ≡ refusal_status asked }
    ensures body { response.new.body ≡ response.old.body }
    ensures fields { OnOk result (fields_of response.new ≡ fields_of response.old ++ refusal_fields asked) }
{
    match asked {
        Asked::Strange => {
            response.status = StatusCode::MISDIRECTED_REQUEST;
            Ok(())
        }
        Asked::Forbidden => {
            response.status = StatusCode::FORBIDDEN;
            Ok(())
        }
        Asked::Unsuited { acts: true } => {
            response.status = StatusCode::METHOD_NOT_ALLOWED;
            response.add_header(header::ALLOW, HeaderValue::from_static("POST"))
        }
        Asked::Unsuited { acts: false } => {
            response.status = StatusCode::METHOD_NOT_ALLOWED;
            response.add_header(header::ALLOW, HeaderValue::from_static("GET"))
        }
        Asked::Missing | Asked::Reading { .. } | Asked::Acting => {
            response.status = StatusCode::NOT_FOUND;
            Ok(())
        }
    }
}

impl Service for Desk<'_> {
    ghost use Rattle.page_server.specs.Answering.{Answers};

    ghost answers = { λ old request response new. Answers old request response new };

    fn call(
        &mut self,
        request: &Request<Bytes>,
        response: &mut Response,
    ) -> Result<(), AllocError> {
        match asked_of(self.site, self.names, request) {
            Asked::Reading { route } => read(self.alloc, self.board, route, response),
            Asked::Acting => act(self.alloc, self.board, request.body().as_slice(), response),
            refused => put_refusal(response, refused),
        }
    }
}
