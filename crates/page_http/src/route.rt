//! What stands at a path.
ghost use Rattle.std.specs.Prelude.{◌≡◌, option_copied};
ghost use Rattle.page_http.specs.Asking.{after_of as after_in, route_of as route_at};

use mg_bytes::decimal;

/// What a request asks for, by its path.
#[derive(Clone, Copy)]
pub enum Route {
    /// The page itself.
    Page,
    /// How it looks.
    Style,
    /// What it does.
    Script,
    /// What the gateway is, as JSON.
    State,
    /// What was counted, as Prometheus reads it.
    Metrics,
    /// Whether the loop turns.
    Health,
    /// Whether the gateway serves.
    Ready,
    /// What happened after this number, as JSON.
    Events { after: u64 },
    /// Something is done at a telephone.
    Phone,
    /// Nothing stands there.
    Nothing,
}

// Since which event is asked.
fn after_of(query: Option<&[u8]>) -> Option<u64>
    ensures { result ≡ after_in (option_copied query.entry) }
{
    let Some(query) = query else {
        return Some(0);
    };
    match query.strip_prefix(b"after=".as_slice()) {
        Some(number) => decimal(number),
        None => None,
    }
}

/// What stands at a path, with this query.
pub(crate) fn route_of(path: &[u8], query: Option<&[u8]>) -> Route
    ensures { result ≡ route_at path.now (option_copied query.entry) }
{
    if path == b"/".as_slice() {
        Route::Page
    } else if path == b"/page.css".as_slice() {
        Route::Style
    } else if path == b"/page.js".as_slice() {
        Route::Script
    } else if path == b"/state".as_slice() {
        Route::State
    } else if path == b"/metrics".as_slice() {
        Route::Metrics
    } else if path == b"/healthz".as_slice() {
        Route::Health
    } else if path == b"/readyz".as_slice() {
        Route::Ready
    } else if path == b"/phone".as_slice() {
        Route::Phone
    } else if path == b"/events".as_slice() {
        match after_of(query) {
            Some(after) => Route::Events { after },
            None => Route::Nothing,
        }
    } else {
        Route::Nothing
    }
}
