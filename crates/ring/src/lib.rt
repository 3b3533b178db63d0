// One ring for every kind of element, over slots that the caller lends.

#![tactic(auto)]

ghost use Rattle.std.specs.Prelude.{◌≤◌, length};

mod calls;
mod spans;

pub use spans::look;

/// Where the elements of a ring lie among its slots: so many wait, the oldest at `start`, the others in the slots after it,
/// and past the last slot on from the first.
#[derive(Clone, Copy, Default)]
pub struct Span {
    pub start: usize,
    pub count: usize,
}

/// A ring over the caller's slots. It means the list of what waits, oldest first. With no slots it is full and empty at once.
#[derive(Drop)]
pub struct Ring<'a, T> {
    slots: &'a mut [T],
    span: Span,
    ghost within: { (span.start ≤ length slots.now) × (span.count ≤ length slots.now) },
}
