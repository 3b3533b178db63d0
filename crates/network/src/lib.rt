// What a network is, for whoever uses one: the trait, and the meaning that every make of it keeps.

#![tactic(auto)]

ghost use Rattle.std.specs.Prelude.{◌≡◌, ◌*◌, ◌≤◌};
ghost use Rattle.network.specs.Sizes.{check_answer};
ghost use Rattle.network.specs.Traffic.{Traffic, after_drop, after_put, drop_answer, number_waiting, oldest, put_answer};

use message::{Message, Refusal};

/// A network has lanes, in each of which messages wait in the order in which they were put, and one depth for all of them.
/// It means its traffic: how many lanes there are, their depth, and for each lane the list of what waits, oldest first.
pub trait Network {
    ghost traffic: { Self → Traffic };

    /// How many lanes there are. No call changes that.
    fn lanes(&self) -> usize
        ensures value { result ≡ (traffic self.now).lanes }
        ensures bound { (1 ≤ result) × (result ≤ 64) };

    /// How many messages a lane holds. No call changes that.
    fn depth(&self) -> usize
        ensures value { result ≡ (traffic self.now).depth }
        ensures bound { (1 ≤ result) × (result ≤ 255) };

    /// How many messages wait in a lane: 0 in a lane that is not there.
    fn waiting(&self, lane: usize) -> usize
        ensures value { result ≡ number_waiting (traffic self.now) lane }
        ensures bound { result ≤ (traffic self.now).depth };

    /// The oldest message of a lane, or none.
    fn head(&self, lane: usize) -> Option<Message>
        ensures { result ≡ oldest (traffic self.now) lane };

    /// A message joins the end of a lane, unless the call is refused: there is no such lane, then the message is malformed,
    /// then the lane is full. A refusal changes nothing.
    fn put(&mut self, lane: usize, message: Message) -> Result<(), Refusal>
        ensures answer { result ≡ put_answer (traffic self.old) lane message }
        ensures after { traffic self.new ≡ after_put (traffic self.old) lane message };

    /// The oldest message of a lane goes, unless the call is refused: there is no such lane, then the lane is empty. A refusal
    /// changes nothing.
    fn drop_head(&mut self, lane: usize) -> Result<(), Refusal>
        ensures answer { result ≡ drop_answer (traffic self.old) lane }
        ensures after { traffic self.new ≡ after_drop (traffic self.old) lane };

    /// What a put of a message into a lane would answer.
    #[tactic(auto, unfolding(crate::specs::Traffic::put_answer))]
    fn check_put(&self, lane: usize, message: Message) -> Result<(), Refusal>
        ensures { result ≡ put_answer (traffic self.now) lane message }
    {
        if lane >= self.lanes() {
            return Err(Refusal::NoSuchTerminal);
        }
        if !message.is_well_formed() {
            return Err(Refusal::Malformed);
        }
        if self.waiting(lane) >= self.depth() {
            return Err(Refusal::Full);
        }
        Ok(())
    }

    /// What a drop of the oldest message of a lane would answer.
    #[tactic(auto, unfolding(crate::specs::Traffic::drop_answer))]
    fn check_drop(&self, lane: usize) -> Result<(), Refusal>
        ensures { result ≡ drop_answer (traffic self.now) lane }
    {
        if lane >= self.lanes() {
            return Err(Refusal::NoSuchTerminal);
        }
        if self.waiting(lane) == 0 {
            return Err(Refusal::Empty);
        }
        Ok(())
    }
}

/// Whether a network can be made in so much room, with so many lanes of a depth, where each message that may wait takes so
/// much of it.
pub fn check(room: usize, lanes: usize, depth: usize, each: usize) -> Result<(), Refusal>
    ensures { result ≡ check_answer lanes depth (each * depth) room }
{
    if !(1..=64).contains(&lanes) || !(1..=255).contains(&depth) {
        return Err(Refusal::Unfit);
    }
    match (lanes * depth).checked_mul(each) {
        Some(needed) if needed <= room => Ok(()),
        _ => Err(Refusal::Unfit),
    }
}
