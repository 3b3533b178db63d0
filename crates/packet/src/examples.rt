// The worked examples, as packets to try the format with.
ghost use Rattle.std.specs.Prelude.{◌≡◌, map};
ghost use Rattle.packet.specs.Examples.{AllHold, examples};

use crate::Packet;
use message::{Kind, Message};

/// The packets of the worked examples. Each is written as the words that its example gives, and read back from them.
pub fn worked_examples() -> [Packet; 2]
    ensures packets { result ≡ map (λ e. e.packet) examples }
    ensures hold { AllHold examples }
{
    [
        Packet {
            source: 5,
            message: Message::new(Kind::ReadRequest, 2, 0),
        },
        Packet {
            source: 64,
            message: Message::new(Kind::ReadData, 2, 500),
        },
    ]
}
