// A network whose messages wait in slots, one a message.

#![tactic(auto)]

ghost use Rattle.std.specs.Prelude.{◌≤◌};

use lanes::Lanes;
use message::Message;

mod calls;

/// A network over slots that the caller lends: each lane has as many as the network is deep, in the order of the lanes, and
/// uses them as a ring.
#[derive(Drop)]
pub struct SlotNetwork<'a> {
    lanes: Lanes<'a, Message>,
    ghost sizes: { (1 ≤ lanes.count) × (lanes.count ≤ 64) × (1 ≤ lanes.size) × (lanes.size ≤ 255) },
}
