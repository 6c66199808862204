//! Laws of what comes back: a network that was down (RFC 3435, 3.5, 4.3, 4.4.6 and 4.4.7), and a gateway that starts again (2.3.12 and
//! 3.2.1.2).
//!
//! After an outage: what a gateway sends of its own meanwhile, of how many copies one is enough, and by when what is in flight is taken
//! and answered. Over the lives of a gateway (`life_laws`): each executes a command once; and where their ids lie apart, nothing of one
//! life is taken for something of another. What was executed before a start may be executed again after it: the history is gone.
//!
//! Nothing here runs: each law is a function without a body, whose clauses are proved for every setup and every list of steps, or of
//! events. `specs/` says what is carried, when a network is fair from a moment on, and what a world of lives is.
#![tactic(auto)]

pub mod alone_laws;
pub mod examples;
pub mod law_examples;
pub mod life_examples;
pub mod life_laws;
pub mod line_examples;
pub mod line_laws;
pub mod since_laws;
pub mod start_examples;
