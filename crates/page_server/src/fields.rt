//! The fields that answers go with.
ghost use Rattle.std.specs.Prelude.{◌≡◌, ◌++◌, OnOk};
ghost use Rattle.http_server.specs.Response.{fields_of};
ghost use Rattle.page_server.specs.Fields.{kind_of, policy, kind_fields};

use http::{HeaderValue, header};
use http_server::Response;
use std::alloc::AllocError;

/// What an answer has.
pub(crate) enum Content {
    Page,
    Style,
    Script,
    Json,
    Metrics,
    Plain,
}

// The kind of content, as its field says it (RFC 9110, 8.3).
fn kind_of(content: Content) -> HeaderValue
    ensures { result.bytes ≡ kind_of content }
{
    match content {
        Content::Page => HeaderValue::from_static("text/html; charset=utf-8"),
        Content::Style => HeaderValue::from_static("text/css; charset=utf-8"),
        Content::Script => HeaderValue::from_static("text/javascript; charset=utf-8"),
        Content::Json => HeaderValue::from_static("application/json"),
        Content::Metrics => HeaderValue::from_static("text/plain; version=0.0.4; charset=utf-8"),
        Content::Plain => HeaderValue::from_static("text/plain; charset=utf-8"),
    }
}

// What the page may do: its own style, script and questions, and stand in no other's frame (Content Security Policy, 3).
#[tactic(auto, unfolding(crate::specs::Fields::policy))]
fn policy() -> HeaderValue
    ensures { result.bytes ≡ policy }
{
    HeaderValue::from_static(
        "default-src 'none'; style-src 'self'; script-src 'self'; connect-src 'self'; img-src data:; base-uri 'none'; form-action 'none'; frame-ancestors 'none'",
    )
}

/// Puts what this kind of content goes with: no browser keeps it, guesses another kind, shows it in another's frame, or tells of it.
pub(crate) fn put_kind(response: &mut Response, content: Content) -> Result<(), AllocError>
    ensures status { response.new.status ≡ response.old.status }
    ensures body { response.new.body ≡ response.old.body }
    ensures fields { OnOk result (fields_of response.new ≡ fields_of response.old ++ kind_fields content) }
{
    response.add_header(header::CONTENT_TYPE, kind_of(content))?;
    response.add_header(header::CACHE_CONTROL, HeaderValue::from_static("no-store"))?;
    response.add_header(
        header::X_CONTENT_TYPE_OPTIONS,
        HeaderValue::from_static("nosniff"),
    )?;
    response.add_header(header::X_FRAME_OPTIONS, HeaderValue::from_static("DENY"))?;
    response.add_header(
        header::REFERRER_POLICY,
        HeaderValue::from_static("no-referrer"),
    )?;
    response.add_header(header::CONTENT_SECURITY_POLICY, policy())
}
