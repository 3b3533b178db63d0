// Directories: which terminals hold a copy of each record. The trait is their meaning, and nothing else.

#![tactic(auto)]

ghost use Rattle.std.specs.Prelude.{◌≡◌};
ghost use Rattle.directory.specs.Directories.{View, Sound, count, next};
ghost use Rattle.directory.specs.Changes.{add_answer, added, clear_answer, cleared, served_answer};

use message::Refusal;

/// For each record that it serves a set of terminals, the holders. It serves 1 to 64 records and 1 to 64 terminals,
/// numbered from 0, and a record has at most as many holders as the limit, 1 to 64, once that many have joined.
pub trait Directory {
    ghost view: { Self → View };

    /// Lets terminal `t` join the holders of record `r`. A refusal, and an add of a holder, change nothing.
    fn add(&mut self, r: usize, t: usize) -> Result<(), Refusal>
        ensures answer { result ≡ add_answer (view self.old) r t }
        ensures after { view self.new ≡ added (view self.old) r t };

    /// Lets all holders of record `r` go. A refusal changes nothing.
    fn clear(&mut self, r: usize) -> Result<(), Refusal>
        ensures answer { result ≡ clear_answer (view self.old) r }
        ensures after { view self.new ≡ cleared (view self.old) r };

    /// Whether terminal `t` is a holder of record `r`.
    fn holds(&self, r: usize, t: usize) -> bool
        ensures answer { result ≡ (view self.now).holders r t };

    /// How many holders record `r` has.
    fn count(&self, r: usize) -> usize
        ensures answer { result ≡ count (view self.now) r };

    /// The least holder of record `r` at or above terminal `t`, or none.
    fn next(&self, r: usize, t: usize) -> Option<usize>
        ensures answer { result ≡ next (view self.now) r t };

    /// How many records it serves.
    fn records(&self) -> usize
        ensures answer { result ≡ (view self.now).records };

    /// How many terminals it serves.
    fn terminals(&self) -> usize
        ensures answer { result ≡ (view self.now).terminals };

    /// How many holders a record may come to have.
    fn limit(&self) -> usize
        ensures answer { result ≡ (view self.now).limit };

    /// Whether record `r` and terminal `t` are served; else the refusal, that of the record first.
    fn check_served(&self, r: usize, t: usize) -> Result<(), Refusal>
        ensures answer { result ≡ served_answer (view self.now) r t }
    {
        if r >= self.records() {
            return Err(Refusal::NoSuchRecord);
        }
        if t >= self.terminals() {
            return Err(Refusal::NoSuchTerminal);
        }
        Ok(())
    }

    ghost sound: { (d : Self) → Sound (view d) };
}
