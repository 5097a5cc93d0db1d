// Why a talk stops before all messages are answered.
ghost use Rattle.std.specs.Prelude.{◌≡◌};
ghost use Rattle.cqc_client.specs.Stops.{talked_at};

use crate::talking::Talked;

/// Why a talk stops at a message.
#[derive(Clone, Copy, PartialEq, Eq, Debug, Drop)]
pub(crate) enum Stop {
    /// The source ended where a reply was due.
    Ended,
    /// A read of the link failed.
    NotRead,
    /// As many bytes were read as may be.
    Spent,
    /// No reply with the message's app has this header, or this body.
    Strange { kind: u8 },
    /// A write of the link failed.
    NotSent,
    /// A write of a line failed.
    NotPrinted,
}

/// The answer of a talk that stops where so many messages were answered whole.
pub(crate) fn talked_at(stop: Stop, messages: u32) -> Talked
    ensures { result ≡ talked_at stop messages }
{
    match stop {
        Stop::Ended => Talked::Cut { message: messages },
        Stop::NotRead => Talked::LinkRead,
        Stop::Spent => Talked::Spent { message: messages },
        Stop::Strange { kind } => Talked::Strange {
            message: messages,
            kind,
        },
        Stop::NotSent => Talked::LinkWrite,
        Stop::NotPrinted => Talked::OutWrite,
    }
}
