//! What lies between the call agent and the gateway while a script is played.
ghost use Rattle.std.specs.Prelude.{◌≡◌, IfOk};

use std::convert::Infallible;

/// What carries datagrams between the call agent and the gateway. What arrives is what was sent, or it is a fault.
pub trait Link {
    /// Why nothing arrives, or something else.
    type Fault;

    /// Carries a datagram to the gateway, and gives what arrives there.
    fn to_gateway<'a>(&'a mut self, bytes: &'a [u8]) -> Result<&'a [u8], Self::Fault>
        ensures { IfOk result (λ arrived. arrived.now ≡ bytes.now) };

    /// Carries a datagram to the call agent, and gives what arrives there.
    fn to_agent<'a>(&'a mut self, bytes: &'a [u8]) -> Result<&'a [u8], Self::Fault>
        ensures { IfOk result (λ arrived. arrived.now ≡ bytes.now) };
}

/// No network at all.
#[derive(Clone, Copy)]
pub struct Direct;

impl Link for Direct {
    type Fault = Infallible;

    fn to_gateway<'a>(&'a mut self, bytes: &'a [u8]) -> Result<&'a [u8], Infallible> {
        Ok(bytes)
    }

    fn to_agent<'a>(&'a mut self, bytes: &'a [u8]) -> Result<&'a [u8], Infallible> {
        Ok(bytes)
    }
}
