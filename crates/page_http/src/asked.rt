//! What becomes of a request.
use crate::route::Route;

/// What a request asks for, and whether it gets it.
#[derive(Clone, Copy)]
pub enum Asked {
    /// It is for another host: 421 (RFC 9110, 15.5.20).
    Strange,
    /// It reads what stands there.
    Reading { route: Route },
    /// A page of this site does something at a telephone.
    Acting,
    /// Another does: 403.
    Forbidden,
    /// The method doesn't suit the path, at which something is done, or read: 405.
    Unsuited { acts: bool },
    /// Nothing stands there: 404.
    Missing,
}
