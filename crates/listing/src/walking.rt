// The walk that gives a listing's lines.
ghost use Rattle.std.specs.Prelude.{◌≡◌, ◌+◌, ◌-◌, ◌<◌, ◌^◌, ◌≤◌, ℕ, slice_index, slice_set};
ghost use Rattle.message.specs.Kinds.{opcode_of};

mod steps;

use message::Kind;
use packet::Reader;

// Which lines come next.
#[derive(Clone, Copy)]
enum Stage {
    // Those of the packets from here on.
    Walking,
    // How many packets there were of a kind and of the kinds after it.
    Counting(Kind),
    // None.
    Ended,
}

// How many packets there were of each kind, in the order of their opcodes.
#[derive(Clone, Copy)]
struct Counts([usize; 9]);

impl Counts {
    // How many there were of a kind.
    fn of(&self, kind: Kind) -> usize
        ensures { result ≡ slice_index self.now.0 (opcode_of kind - 1) }
    {
        self.0[usize::from(u8::from(kind)) - 1]
    }

    // Counts one more of a kind.
    fn count(&mut self, kind: Kind)
        requires { slice_index self.old.0 (opcode_of kind - 1) + 1 < 2 ^ 64 }
        ensures { self.new.0 ≡ slice_set self.old.0 (opcode_of kind - 1) (slice_index self.old.0 (opcode_of kind - 1) + 1) }
    {
        self.0[usize::from(u8::from(kind)) - 1] += 1;
    }
}

/// The listing of words, which gives one line after another: `reader` walks the words, `packets` is how many it has found,
/// and `counts` how many of each kind.
#[derive(Clone, Copy)]
pub struct Listing<'a> {
    reader: Reader<'a>,
    packets: usize,
    counts: Counts,
    stage: Stage,
    ghost few: { packets ≤ reader.at },
    ghost counted: { ((i : ℕ) → slice_index counts.0 i ≤ packets) },
}
