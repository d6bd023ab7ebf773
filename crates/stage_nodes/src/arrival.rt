//! An arrival, made of the message from a branch.
ghost use Rattle.std.specs.Prelude.{◌≡◌};
ghost use Rattle.packet_messages.specs.Messages.{plain};
ghost use Rattle.stage_nodes.specs.Streams.{as_arrival};

use merge_ops::Arrival;
use packet_messages::Message;
use packet_version::Version;

/// The arrival in a message from a branch.
pub(crate) fn arrival_of(message: Message<Version>) -> Arrival
    ensures { result ≡ as_arrival (plain message) }
{
    match message {
        Message::Live(version) => Arrival::Version(Box::into_inner(version)),
        Message::Nil(position) => Arrival::Nil(position),
        Message::Short => Arrival::Short,
    }
}
