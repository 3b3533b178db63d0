// A network whose messages wait as packets of 32-bit words.

#![tactic(auto)]

ghost use Rattle.std.specs.Prelude.{◌≡◌, ◌*◌, ◌≤◌};
ghost use Rattle.lanes.specs.Contents.{held};
ghost use Rattle.packet_network.specs.Holds.{Holds};

use lanes::Lanes;

mod calls;
mod words;

/// A network over words that the caller lends: each lane has four for each message that it may hold, in the order of the
/// lanes, and uses them as a ring. What waits is kept as packets, one after another; `counts[l]` of them wait in lane l.
#[derive(Drop)]
pub struct PacketNetwork<'a> {
    lanes: Lanes<'a, u32>,
    counts: [usize; 64],
    depth: usize,
    ghost sizes: { (1 ≤ lanes.count) × (lanes.count ≤ 64) × (1 ≤ depth) × (depth ≤ 255) },
    ghost words: { lanes.size ≡ 4 * depth },
    ghost holds: { Holds (held lanes) counts lanes.count depth },
}
