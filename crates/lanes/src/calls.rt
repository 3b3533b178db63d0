// What can be asked of lanes side by side: put, look, discard.
ghost use Rattle.std.specs.Prelude.{◌≡◌, ◌*◌, ◌≤◌, [], IfOk, length};
ghost use Rattle.ring.specs.Calls as ring;
ghost use Rattle.ring.specs.Rings.{contents_at};
ghost use Rattle.ring.specs.Waiting.{waiting};
ghost use Rattle.lanes.specs.Calls.{after_discard, after_put, counted, discard_answer, looked, put_answer};
ghost use Rattle.lanes.specs.Contents.{contents};
ghost use Rattle.lanes.specs.Parts.{part_answer};

use crate::Lanes;
use message::Refusal;
use ring::{Ring, Span};
use std::ops::Range;

/// Elements join the end of the ring at a span of slots, if there is room for all of them.
fn put_in<T: Copy>(part: &mut [T], span: &mut Span, xs: &[T]) -> Result<(), Refusal>
    ensures answer { result ≡ ring.put_answer (contents_at part.entry span.old) xs.now }
    ensures items { waiting part.new span.new ≡ (ring.after_put (contents_at part.entry span.old) xs.now).items }
{
    let mut ring = Ring::resume(part, *span);
    let answer = ring.put_all(xs);
    *span = ring.span();
    answer
}

/// The k oldest elements of the ring at a span of slots go, if so many wait.
fn discard_in<T: Copy>(part: &mut [T], span: &mut Span, k: usize) -> Result<(), Refusal>
    ensures answer { result ≡ ring.discard_answer k (contents_at part.entry span.old) }
    ensures items { waiting part.new span.new ≡ (ring.after_discard k (contents_at part.entry span.old)).items }
{
    let mut ring = Ring::resume(part, *span);
    let answer = ring.discard_many(k);
    *span = ring.span();
    answer
}

#[tactic(auto, using(crate::proofs::Parts::length_part), unfolding(crate::specs::Parts::waiting_in))]
impl<'a, T: Copy> Lanes<'a, T> {
    /// So many lanes of so many slots each, with nothing in them.
    pub fn new(slots: &'a mut [T], count: usize, size: usize) -> Lanes<'a, T>
        requires sizes { (count ≤ 64) × (size ≤ 1020) × (count * size ≤ length slots.old) }
        ensures { contents result ≡ record { count = count; size = size; held = λ l. []; lender = slots.entry.ghost_name } }
    {
        Lanes {
            slots,
            spans: [Span::default(); 64],
            count,
            size,
        }
    }

    /// The numbers of a lane's slots, or that there is no such lane.
    fn part(&self, lane: usize) -> Result<Range<usize>, Refusal>
        ensures value { result ≡ part_answer self.now.count self.now.size lane }
        ensures inside { IfOk result (λ part. part.end ≤ length self.now.slots.now) }
    {
        if lane >= self.count {
            return Err(Refusal::NoSuchTerminal);
        }
        let from = lane * self.size;
        Ok(from..from + self.size)
    }

    /// How many elements wait in a lane: 0 in a lane that is not there.
    pub fn waiting(&self, lane: usize) -> usize
        ensures value { result ≡ counted (contents self.now) lane }
        ensures bound { result ≤ (contents self.now).size }
    {
        if lane >= self.count {
            return 0;
        }
        self.spans[lane].within(self.size).count
    }

    /// The k-th element that waits in a lane, the oldest for 0, or none.
    pub fn look(&self, lane: usize, k: usize) -> Option<T>
        ensures { result ≡ looked (contents self.now) lane k }
    {
        let part = self.part(lane).ok()?;
        ring::look(&self.slots[part], self.spans[lane], k)
    }

    /// Elements join the end of a lane in their order, if there is room for all of them.
    pub fn put_all(&mut self, lane: usize, xs: &[T]) -> Result<(), Refusal>
        ensures answer { result ≡ put_answer (contents self.old) lane xs.now }
        ensures after { contents self.new ≡ after_put (contents self.old) lane xs.now }
    {
        let part = self.part(lane)?;
        put_in(&mut self.slots[part], &mut self.spans[lane], xs)
    }

    /// The k oldest elements of a lane go, if so many wait.
    pub fn discard_many(&mut self, lane: usize, k: usize) -> Result<(), Refusal>
        ensures answer { result ≡ discard_answer k (contents self.old) lane }
        ensures after { contents self.new ≡ after_discard k (contents self.old) lane }
    {
        let part = self.part(lane)?;
        discard_in(&mut self.slots[part], &mut self.spans[lane], k)
    }
}
