// How a slot network is made, and its calls.
ghost use Rattle.std.specs.Prelude.{◌≡◌, IfOk, MatchResult, length};
ghost use Rattle.network.specs.Sizes.{check_answer, no_traffic};
ghost use Rattle.slot_network.specs.Means.{traffic_of};

use crate::SlotNetwork;
use lanes::Lanes;
use message::{Message, Refusal};
use network::Network;

impl<'a> SlotNetwork<'a> {
    /// Whether a slot network can be made of so many slots, with so many lanes of a depth: it needs as many slots a lane as it
    /// is deep.
    pub fn check(slots: usize, lanes: usize, depth: usize) -> Result<(), Refusal>
        ensures { result ≡ check_answer lanes depth depth slots }
    {
        network::check(slots, lanes, depth, 1)
    }

    /// A network in which nothing waits. It requires that the check was passed, and so does not refuse.
    pub fn new(slots: &'a mut [Message], lanes: usize, depth: usize) -> SlotNetwork<'a>
        requires checked { check_answer lanes depth depth (length slots.old) ≡ Ok tt }
        ensures traffic { traffic_of result ≡ no_traffic lanes depth }
        ensures lender { result.lanes.slots.ghost_name ≡ slots.entry.ghost_name }
    {
        SlotNetwork {
            lanes: Lanes::new(slots, lanes, depth),
        }
    }

    /// A network in which nothing waits, or the refusal of a check that was not passed.
    pub fn over(
        slots: &'a mut [Message],
        lanes: usize,
        depth: usize,
    ) -> Result<SlotNetwork<'a>, Refusal>
        ensures answer { let checked = check_answer lanes depth depth (length slots.old) in MatchResult result (λ net. checked ≡ Ok tt) (λ refusal. checked ≡ Err refusal) }
        ensures traffic { IfOk result (λ net. traffic_of net ≡ no_traffic lanes depth) }
        ensures lender { IfOk result (λ net. net.lanes.slots.ghost_name ≡ slots.entry.ghost_name) }
    {
        SlotNetwork::check(slots.len(), lanes, depth)?;
        Ok(SlotNetwork::new(slots, lanes, depth))
    }
}

impl Network for SlotNetwork<'_> {
    ghost traffic = { traffic_of };

    fn lanes(&self) -> usize {
        self.lanes.count()
    }

    fn depth(&self) -> usize {
        self.lanes.size()
    }

    fn waiting(&self, lane: usize) -> usize {
        self.lanes.waiting(lane)
    }

    fn head(&self, lane: usize) -> Option<Message> {
        self.lanes.look(lane, 0)
    }

    #[tactic(auto, unfolding(network::specs::Traffic::put_answer, network::specs::Traffic::put_waiting))]
    fn put(&mut self, lane: usize, message: Message) -> Result<(), Refusal> {
        self.check_put(lane, message)?;
        self.lanes.put_all(lane, &[message])
    }

    #[tactic(auto, using(crate::proofs::Later::later_is), unfolding(network::specs::Traffic::drop_answer, network::specs::Traffic::drop_waiting))]
    fn drop_head(&mut self, lane: usize) -> Result<(), Refusal> {
        self.check_drop(lane)?;
        self.lanes.discard_many(lane, 1)
    }
}
