// Messages as the words of a lane.
ghost use Rattle.std.specs.Prelude.{◌≡◌, ◌<◌, true};
ghost use Rattle.lanes.specs.Calls.{after_put, put_answer};
ghost use Rattle.lanes.specs.Contents.{contents, held};
ghost use Rattle.message.specs.Messages.{well_formed};
ghost use Rattle.packet.specs.Layout.{packet_words};
ghost use Rattle.packet_network.specs.Packets.{front, packet_in, read_front, size_of};

use lanes::Lanes;
use message::{Message, Refusal};
use packet::Packet;

/// The packet of a message in a lane. It names the lane as its source if it goes to the home, and else the home.
fn packet_in(lane: usize, message: Message) -> Packet
    requires { lane < 64 }
    ensures { result ≡ packet_in lane message }
{
    let source = match message.kind() {
        Some(kind) if kind.goes_home() => lane as u16,
        _ => 64,
    };
    Packet { source, message }
}

/// The words of a message's packet join the end of a lane, if there is room for all of them.
pub(crate) fn put_packet(
    lanes: &mut Lanes<'_, u32>,
    lane: usize,
    message: Message,
) -> Result<(), Refusal>
    requires lane { lane < 64 }
    requires formed { well_formed message ≡ true }
    ensures answer { result ≡ put_answer (contents lanes.old) lane (packet_words (packet_in lane message)) }
    ensures after { contents lanes.new ≡ after_put (contents lanes.old) lane (packet_words (packet_in lane message)) }
{
    let packet = packet_in(lane, message);
    let mut words = [0; 4];
    packet.write(&mut words)?;
    lanes.put_all(lane, &words[..packet.size()])
}

/// The first four words of a lane, with 0 for those that are not there.
fn front_in(lanes: &Lanes<'_, u32>, lane: usize) -> [u32; 4]
    requires { lane < lanes.now.count }
    ensures { result ≡ front (held lanes.now lane) }
{
    std::array::from_fn(|k| lanes.look(lane, k).unwrap_or(0))
}

/// The oldest packet of a lane, or none: the first four of its words, read by the packet reader.
pub(crate) fn oldest_in(lanes: &Lanes<'_, u32>, lane: usize) -> Option<Packet>
    requires { lane < lanes.now.count }
    ensures { result ≡ read_front (held lanes.now lane) }
{
    packet::read(&front_in(lanes, lane), 0)
        .ok()
        .map(|found| found.packet)
}

/// How many words the oldest packet of a lane has: 0 if there is none.
pub(crate) fn oldest_size(lanes: &Lanes<'_, u32>, lane: usize) -> usize
    requires { lane < lanes.now.count }
    ensures { result ≡ size_of (read_front (held lanes.now lane)) }
{
    oldest_in(lanes, lane).map_or(0, |packet| packet.size())
}
