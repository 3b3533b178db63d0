// The full map: a directory with one bit for each terminal.

#![tactic(auto)]

ghost use Rattle.std.specs.Prelude.{◌≤◌};
ghost use Rattle.full_map.specs.Words.{Narrow, Unused};

mod calls;

/// A directory that keeps the holders of each record in a word of 64 bits, bit `t` for terminal `t`. Its limit is 64,
/// so that every terminal may join.
#[derive(Drop)]
pub struct FullMap {
    words: [u64; 64],
    records: usize,
    terminals: usize,
    ghost sizes: { (1 ≤ records) × (records ≤ 64) × (1 ≤ terminals) × (terminals ≤ 64) },
    ghost narrow: { Narrow words terminals },
    ghost unused: { Unused words records },
}
