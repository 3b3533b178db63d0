// Rings side by side over one slice, for every kind of element: what both networks keep their lanes in.

#![tactic(auto)]

ghost use Rattle.std.specs.Prelude.{◌*◌, ◌≤◌, length};

use ring::Span;

mod calls;
mod sizes;

/// Lanes side by side, each a ring: lane l has the `size` slots from l × size on, and its elements lie among them where
/// `spans[l]` says. There are at most 64, of at most 1020 slots each, and the slice has slots for all of them.
#[derive(Drop)]
pub struct Lanes<'a, T> {
    slots: &'a mut [T],
    spans: [Span; 64],
    count: usize,
    size: usize,
    ghost few: { (count ≤ 64) × (size ≤ 1020) },
    ghost room: { count * size ≤ length slots.now },
}
