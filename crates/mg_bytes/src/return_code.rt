//! Return codes (RFC 3435, 2.4).
ghost use Rattle.std.specs.Prelude.{◌≡◌};

/// A return code of this gateway's profile (RFC 3435, 2.4): those that it sends, and 521, which it reads.
#[derive(Clone, Copy)]
pub enum ReturnCode {
    /// The final response that asked for it has come.
    ResponseAcknowledgement = 0,
    /// The command was executed.
    Executed = 200,
    /// The connections were deleted.
    ConnectionDeleted = 250,
    /// A signal is asked for that there is on hook alone, and the phone is off hook.
    AlreadyOffHook = 401,
    /// A signal is asked for that there is off hook alone, and the phone is on hook.
    AlreadyOnHook = 402,
    /// The gateway's restart isn't answered yet.
    Restarting = 405,
    /// Any one line is asked for, and none is free.
    NoEndpointAvailable = 410,
    /// No endpoint has the name.
    UnknownEndpoint = 500,
    /// A list or a digit map has no room for all that is asked for, or a number is used up.
    InsufficientResources = 502,
    /// The name has a wildcard where this gateway, or the verb, takes none.
    WildcardTooComplicated = 503,
    /// The verb is unknown or isn't served.
    UnsupportedCommand = 504,
    /// The value of Q isn't known.
    UnsupportedHandling = 508,
    /// The remote description can't be read.
    RemoteDescriptionError = 509,
    /// The command, a parameter or a value isn't spelled as it must be, is missing or stands twice.
    ProtocolError = 510,
    /// A parameter is a critical extension, or one of a package.
    UnrecognizedExtension = 511,
    /// The package has no such event.
    UnsupportedEvent = 512,
    /// The package has no such signal.
    UnsupportedSignal = 513,
    /// The call has no connection with this identifier.
    IncorrectConnection = 515,
    /// No connection of this call stands.
    UnknownCall = 516,
    /// The mode isn't known.
    UnsupportedMode = 517,
    /// The package isn't known.
    UnknownPackage = 518,
    /// The action D has no digit map.
    NoDigitMap = 519,
    /// Another call agent is to be asked.
    Redirected = 521,
    /// A signal is named as an event, or an event as a signal.
    NoSuchEventOrSignal = 522,
    /// An action isn't known, or doesn't go with the others or with its event.
    IllegalActions = 523,
    /// The mode sends, and there is no remote description.
    MissingRemoteDescription = 527,
    /// The protocol or its version is another.
    IncompatibleVersion = 528,
    /// The response would be longer than a datagram may be.
    ResponseTooLarge = 533,
    /// No codec is left.
    CodecNegotiationFailure = 534,
    /// None of the packet times that are asked for is to be had.
    UnsupportedPacketTime = 535,
    /// An event or a signal has a parameter that it doesn't take.
    EventParameterError = 538,
    /// The verb doesn't take the parameter, or its value is none.
    UnsupportedParameter = 539,
    /// The line has no place for a further connection.
    TooManyConnections = 540,
    /// The local connection options aren't known.
    UnsupportedConnectionOptions = 541,
}

/// The return codes of this gateway's profile, by their numbers.
pub const RETURN_CODES: [ReturnCode; 34] = [
    ReturnCode::ResponseAcknowledgement,
    ReturnCode::Executed,
    ReturnCode::ConnectionDeleted,
    ReturnCode::AlreadyOffHook,
    ReturnCode::AlreadyOnHook,
    ReturnCode::Restarting,
    ReturnCode::NoEndpointAvailable,
    ReturnCode::UnknownEndpoint,
    ReturnCode::InsufficientResources,
    ReturnCode::WildcardTooComplicated,
    ReturnCode::UnsupportedCommand,
    ReturnCode::UnsupportedHandling,
    ReturnCode::RemoteDescriptionError,
    ReturnCode::ProtocolError,
    ReturnCode::UnrecognizedExtension,
    ReturnCode::UnsupportedEvent,
    ReturnCode::UnsupportedSignal,
    ReturnCode::IncorrectConnection,
    ReturnCode::UnknownCall,
    ReturnCode::UnsupportedMode,
    ReturnCode::UnknownPackage,
    ReturnCode::NoDigitMap,
    ReturnCode::Redirected,
    ReturnCode::NoSuchEventOrSignal,
    ReturnCode::IllegalActions,
    ReturnCode::MissingRemoteDescription,
    ReturnCode::IncompatibleVersion,
    ReturnCode::ResponseTooLarge,
    ReturnCode::CodecNegotiationFailure,
    ReturnCode::UnsupportedPacketTime,
    ReturnCode::EventParameterError,
    ReturnCode::UnsupportedParameter,
    ReturnCode::TooManyConnections,
    ReturnCode::UnsupportedConnectionOptions,
];

impl ReturnCode {
    ghost use Rattle.mg_bytes.specs.ReturnCode.{number_of, words_of, code_with};

    /// Its number, below 1,000 (RFC 3435, 2.4).
    pub fn number(self) -> u16
        ensures { result ≡ number_of self }
    {
        self as u16
    }

    /// The return code with this number, if this gateway's profile has one.
    #[tactic(auto, unfolding(crate::specs::ReturnCode::code_with))]
    pub fn with_number(number: u16) -> Option<ReturnCode>
        ensures { result ≡ code_with number }
    {
        RETURN_CODES
            .iter()
            .copied()
            .find(|code| code.number() == number)
    }

    /// What RFC 3435, 2.4, says of it, as a phrase.
    #[tactic(auto, unfolding(crate::specs::ReturnCode::words_of))]
    pub fn words(self) -> &'static str
        ensures { result.now ≡ words_of self }
    {
        match self {
            ReturnCode::ResponseAcknowledgement => "response acknowledgement",
            ReturnCode::Executed => "executed normally",
            ReturnCode::ConnectionDeleted => "connection deleted",
            ReturnCode::AlreadyOffHook => "the phone is already off hook",
            ReturnCode::AlreadyOnHook => "the phone is already on hook",
            ReturnCode::Restarting => "the endpoint is restarting",
            ReturnCode::NoEndpointAvailable => "no endpoint available",
            ReturnCode::UnknownEndpoint => "the endpoint is unknown",
            ReturnCode::InsufficientResources => "insufficient resources",
            ReturnCode::WildcardTooComplicated => "wildcard too complicated",
            ReturnCode::UnsupportedCommand => "unknown or unsupported command",
            ReturnCode::UnsupportedHandling => "unknown or unsupported quarantine handling",
            ReturnCode::RemoteDescriptionError => "error in remote connection descriptor",
            ReturnCode::ProtocolError => "protocol error",
            ReturnCode::UnrecognizedExtension => "unrecognized extension",
            ReturnCode::UnsupportedEvent => "not equipped to detect a requested event",
            ReturnCode::UnsupportedSignal => "not equipped to generate a requested signal",
            ReturnCode::IncorrectConnection => "incorrect connection-id",
            ReturnCode::UnknownCall => "unknown or incorrect call-id",
            ReturnCode::UnsupportedMode => "unsupported or invalid mode",
            ReturnCode::UnknownPackage => "unsupported or unknown package",
            ReturnCode::NoDigitMap => "no digit map",
            ReturnCode::Redirected => "redirected to another call agent",
            ReturnCode::NoSuchEventOrSignal => "no such event or signal",
            ReturnCode::IllegalActions => "unknown action or illegal combination of actions",
            ReturnCode::MissingRemoteDescription => "missing remote connection descriptor",
            ReturnCode::IncompatibleVersion => "incompatible protocol version",
            ReturnCode::ResponseTooLarge => "response too large",
            ReturnCode::CodecNegotiationFailure => "codec negotiation failure",
            ReturnCode::UnsupportedPacketTime => "packetization period not supported",
            ReturnCode::EventParameterError => "event or signal parameter error",
            ReturnCode::UnsupportedParameter => "invalid or unsupported command parameter",
            ReturnCode::TooManyConnections => "per endpoint connection limit exceeded",
            ReturnCode::UnsupportedConnectionOptions =>
                "invalid or unsupported local connection options",
        }
    }
}
