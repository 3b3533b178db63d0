// Where the elements of a ring lie among its slots.
ghost use Rattle.std.specs.Prelude.{◌≡◌, ◌<◌, ◌≤◌};
ghost use Rattle.std.specs.List.{slice_get};
ghost use Rattle.ring.specs.Rings.{contents};
ghost use Rattle.ring.specs.Spans.{within};
ghost use Rattle.ring.specs.Waiting.{place, waiting};

use crate::{Ring, Span};

impl Span {
    /// The slot of its k-th element, of so many slots, and for as many as wait the slot of the next to come.
    pub(crate) fn slot(self, slots: usize, k: usize) -> usize
        requires start { self.start ≤ slots }
        requires k { k ≤ slots }
        ensures value { result ≡ place slots self.start k }
        ensures within { result ≤ slots }
        ensures bound { k < slots → result < slots }
    {
        let front = slots - self.start;
        if k < front { self.start + k } else { k - front }
    }

    /// The span as a ring of so many slots has it: no more elements than slots, and no start past them.
    pub fn within(self, slots: usize) -> Span
        ensures { result ≡ within slots self }
    {
        Span {
            start: self.start.min(slots),
            count: self.count.min(slots),
        }
    }
}

impl<'a, T: Copy> Ring<'a, T> {
    /// Where its elements lie.
    pub fn span(&self) -> Span
        ensures { waiting self.now.slots.now result ≡ (contents self.now).items }
    {
        self.span
    }
}

/// The k-th element that waits at a span of slots, the oldest for 0, or none.
pub fn look<T: Copy>(slots: &[T], span: Span, k: usize) -> Option<T>
    ensures { result ≡ slice_get (waiting slots.now span) k }
{
    let span = span.within(slots.len());
    (k < span.count).then(|| slots[span.slot(slots.len(), k)])
}
