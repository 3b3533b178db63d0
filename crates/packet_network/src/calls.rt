// How a packet network is made, and its calls.
ghost use Rattle.std.specs.Prelude.{◌≡◌, ◌*◌, IfOk, MatchResult, length};
ghost use Rattle.network.specs.Sizes.{check_answer, no_traffic};
ghost use Rattle.packet_network.specs.Means.{traffic_of};

use crate::PacketNetwork;
use crate::words::{oldest_in, oldest_size, put_packet};
use lanes::Lanes;
use message::{Message, Refusal};
use network::Network;

impl<'a> PacketNetwork<'a> {
    /// Whether a packet network can be made of so many words, with so many lanes of a depth: it needs four times as many words
    /// a lane as it is deep.
    pub fn check(words: usize, lanes: usize, depth: usize) -> Result<(), Refusal>
        ensures { result ≡ check_answer lanes depth (4 * depth) words }
    {
        network::check(words, lanes, depth, 4)
    }

    /// A network in which nothing waits. It requires that the check was passed, and so does not refuse.
    pub fn new(words: &'a mut [u32], lanes: usize, depth: usize) -> PacketNetwork<'a>
        requires checked { check_answer lanes depth (4 * depth) (length words.old) ≡ Ok tt }
        ensures traffic { traffic_of result ≡ no_traffic lanes depth }
        ensures lender { result.lanes.slots.ghost_name ≡ words.entry.ghost_name }
    {
        PacketNetwork {
            lanes: Lanes::new(words, lanes, 4 * depth),
            counts: [0; 64],
            depth,
        }
    }

    /// A network in which nothing waits, or the refusal of a check that was not passed.
    pub fn over(
        words: &'a mut [u32],
        lanes: usize,
        depth: usize,
    ) -> Result<PacketNetwork<'a>, Refusal>
        ensures answer { let checked = check_answer lanes depth (4 * depth) (length words.old) in MatchResult result (λ net. checked ≡ Ok tt) (λ refusal. checked ≡ Err refusal) }
        ensures traffic { IfOk result (λ net. traffic_of net ≡ no_traffic lanes depth) }
        ensures lender { IfOk result (λ net. net.lanes.slots.ghost_name ≡ words.entry.ghost_name) }
    {
        PacketNetwork::check(words.len(), lanes, depth)?;
        Ok(PacketNetwork::new(words, lanes, depth))
    }
}

impl Network for PacketNetwork<'_> {
    ghost traffic = { traffic_of };

    fn lanes(&self) -> usize {
        self.lanes.count()
    }

    fn depth(&self) -> usize {
        self.depth
    }

    fn waiting(&self, lane: usize) -> usize {
        if lane >= self.lanes() {
            return 0;
        }
        self.counts[lane]
    }

    fn head(&self, lane: usize) -> Option<Message> {
        if lane >= self.lanes() {
            return None;
        }
        oldest_in(&self.lanes, lane).map(|packet| packet.message)
    }

    #[tactic(auto, using(crate::proofs::Nets::put_taken), unfolding(network::specs::Traffic::put_answer, network::specs::Traffic::put_waiting))]
    fn put(&mut self, lane: usize, message: Message) -> Result<(), Refusal> {
        self.check_put(lane, message)?;
        put_packet(&mut self.lanes, lane, message)?;
        self.counts[lane] += 1;
        Ok(())
    }

    #[tactic(auto, using(crate::proofs::Nets::drop_gone), unfolding(network::specs::Traffic::drop_answer, network::specs::Traffic::drop_waiting))]
    fn drop_head(&mut self, lane: usize) -> Result<(), Refusal> {
        self.check_drop(lane)?;
        let size = oldest_size(&self.lanes, lane);
        self.lanes.discard_many(lane, size)?;
        self.counts[lane] -= 1;
        Ok(())
    }
}
