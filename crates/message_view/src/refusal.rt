//! The refusals of the pooler: each is one ErrorResponse of severity FATAL, given at a frame's
//! border, after which the connection is closed.
ghost use Rattle.std.specs.Prelude.{◌≡◌};
ghost use Rattle.message_view.specs.Refusals.{refusal as refused, telling};

/// Why the pooler refuses a client.
#[derive(Clone, Copy, PartialEq, Eq, Drop)]
pub enum Refusal {
    /// P1, 53300 `too many client connections`: as many clients as the settings allow are there.
    TooManyClients,
    /// P2, 0A000 `unsupported protocol version`: a first packet with an unknown code.
    UnsupportedProtocol,
    /// P3, 08P01 `malformed client message`: a faulty first packet or frame of a client, a
    /// StartupMessage without a user, or a wrong message in the login.
    MalformedClientMessage,
    /// P4, 0A000 `unsupported startup parameter`: one that is neither followed nor ignored.
    UnsupportedParameter,
    /// P5, 57P03 `query_wait_timeout`: the client waited that long for a link.
    WaitedTooLong,
    /// P6, 08006 `server connection failed`: the client's link faulted or ended.
    ServerFailed,
    /// P7, 08001 `server could not be reached`: no link could be started.
    ServerNotReached,
    /// P8, 57P01 `pooler is shutting down`.
    ShuttingDown,
    /// P9, 53200 `pooler is out of memory`: a growth was refused.
    OutOfMemory,
    /// P10, 54000 `client message is too long`: a frame above the settings' limit.
    ClientMessageTooLong,
    /// P11, 08P01 `malformed server message`: a faulty frame of the server.
    MalformedServerMessage,
    /// P12, 54000 `pooler has reached its last decision`: its count has come to its end.
    LastDecision,
}

impl Refusal {
    /// Its number, `P1` to `P12`.
    pub fn code(self) -> &'static [u8]
        ensures { result.now ≡ (telling self).number }
    {
        match self {
            Refusal::TooManyClients => b"P1",
            Refusal::UnsupportedProtocol => b"P2",
            Refusal::MalformedClientMessage => b"P3",
            Refusal::UnsupportedParameter => b"P4",
            Refusal::WaitedTooLong => b"P5",
            Refusal::ServerFailed => b"P6",
            Refusal::ServerNotReached => b"P7",
            Refusal::ShuttingDown => b"P8",
            Refusal::OutOfMemory => b"P9",
            Refusal::ClientMessageTooLong => b"P10",
            Refusal::MalformedServerMessage => b"P11",
            Refusal::LastDecision => b"P12",
        }
    }
}

/// The one frame that the client is given. Takes no memory.
#[tactic(auto, unfolding(crate::specs::Refusals::refusal))]
pub fn refusal_bytes(refusal: Refusal) -> &'static [u8]
    ensures { result.now ≡ refused refusal }
{
    match refusal {
        Refusal::TooManyClients =>
            b"E\0\0\0\x37SFATAL\0VFATAL\0C53300\0Mtoo many client connections\0\0",
        Refusal::UnsupportedProtocol =>
            b"E\0\0\0\x38SFATAL\0VFATAL\0C0A000\0Munsupported protocol version\0\0",
        Refusal::MalformedClientMessage =>
            b"E\0\0\0\x34SFATAL\0VFATAL\0C08P01\0Mmalformed client message\0\0",
        Refusal::UnsupportedParameter =>
            b"E\0\0\0\x39SFATAL\0VFATAL\0C0A000\0Munsupported startup parameter\0\0",
        Refusal::WaitedTooLong => b"E\0\0\0\x2eSFATAL\0VFATAL\0C57P03\0Mquery_wait_timeout\0\0",
        Refusal::ServerFailed =>
            b"E\0\0\0\x34SFATAL\0VFATAL\0C08006\0Mserver connection failed\0\0",
        Refusal::ServerNotReached =>
            b"E\0\0\0\x37SFATAL\0VFATAL\0C08001\0Mserver could not be reached\0\0",
        Refusal::ShuttingDown => b"E\0\0\0\x33SFATAL\0VFATAL\0C57P01\0Mpooler is shutting down\0\0",
        Refusal::OutOfMemory => b"E\0\0\0\x33SFATAL\0VFATAL\0C53200\0Mpooler is out of memory\0\0",
        Refusal::ClientMessageTooLong =>
            b"E\0\0\0\x36SFATAL\0VFATAL\0C54000\0Mclient message is too long\0\0",
        Refusal::MalformedServerMessage =>
            b"E\0\0\0\x34SFATAL\0VFATAL\0C08P01\0Mmalformed server message\0\0",
        Refusal::LastDecision =>
            b"E\0\0\0\x40SFATAL\0VFATAL\0C54000\0Mpooler has reached its last decision\0\0",
    }
}
