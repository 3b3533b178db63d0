// What can be asked of a ring: put, look, discard.
ghost use Rattle.std.specs.Prelude.{◌≡◌, ◌<◌, [], ◌∷◌, ◌++◌, length};
ghost use Rattle.std.specs.List.{slice_get};
ghost use Rattle.ring.specs.Calls.{after_discard, after_put, discard_answer, put_answer};
ghost use Rattle.ring.specs.Rings.{contents, contents_at};

use crate::spans::look;
use crate::{Ring, Span};
use message::Refusal;

impl<'a, T: Copy> Ring<'a, T> {
    /// A ring where nothing waits. Its first element will lie in the first slot.
    pub fn new(slots: &'a mut [T]) -> Ring<'a, T>
        ensures { contents result ≡ record { items = []; room = length slots.old; lender = slots.entry.ghost_name } }
    {
        Ring {
            slots,
            span: Span::default(),
        }
    }

    /// The ring that lies at a span of these slots, as `Ring::span` told it.
    pub fn resume(slots: &'a mut [T], span: Span) -> Ring<'a, T>
        ensures { contents result ≡ contents_at slots.entry span }
    {
        let span = span.within(slots.len());
        Ring { slots, span }
    }

    /// The k-th element that waits, the oldest for 0, or none.
    pub fn look(&self, k: usize) -> Option<T>
        ensures { result ≡ slice_get (contents self.now).items k }
    {
        look(self.slots, self.span, k)
    }

    /// An element joins the end, where there is room for it.
    fn push(&mut self, x: T)
        requires { length (contents self.old).items < (contents self.old).room }
        ensures { contents self.new ≡ record (contents self.old) { items = (contents self.old).items ++ x ∷ [] } }
    {
        let at = self.span.slot(self.slots.len(), self.span.count);
        self.slots[at] = x;
        self.span.count += 1;
    }

    /// An element joins the end, if there is room for it.
    pub fn put(&mut self, x: T) -> Result<(), Refusal>
        ensures answer { result ≡ put_answer (contents self.old) (x ∷ []) }
        ensures after { contents self.new ≡ after_put (contents self.old) (x ∷ []) }
    {
        if self.span.count == self.slots.len() {
            return Err(Refusal::Full);
        }
        self.push(x);
        Ok(())
    }

    /// Elements join the end in their order, if there is room for all of them.
    pub fn put_all(&mut self, xs: &[T]) -> Result<(), Refusal>
        ensures answer { result ≡ put_answer (contents self.old) xs.now }
        ensures after { contents self.new ≡ after_put (contents self.old) xs.now }
    {
        if self.slots.len() - self.span.count < xs.len() {
            return Err(Refusal::Full);
        }
        for x in xs {
            self.push(*x);
        }
        Ok(())
    }

    /// The oldest element goes, if there is one.
    pub fn discard(&mut self) -> Result<(), Refusal>
        ensures answer { result ≡ discard_answer 1 (contents self.old) }
        ensures after { contents self.new ≡ after_discard 1 (contents self.old) }
    {
        self.discard_many(1)
    }

    /// The k oldest elements go, if so many wait.
    pub fn discard_many(&mut self, k: usize) -> Result<(), Refusal>
        ensures answer { result ≡ discard_answer k (contents self.old) }
        ensures after { contents self.new ≡ after_discard k (contents self.old) }
    {
        if self.span.count < k {
            return Err(Refusal::Empty);
        }
        self.span = Span {
            start: self.span.slot(self.slots.len(), k),
            count: self.span.count - k,
        };
        Ok(())
    }
}
