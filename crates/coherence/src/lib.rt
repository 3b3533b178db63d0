// The law of coherence, proved once, over the definitions that the contracts of the home, the terminals and the site are to cite.

#![tactic(auto)]

ghost use Rattle.protocol.specs.Coherence.{Coherence};

/// Every list of calls on every newly opened site is coherent, whatever its directory and its two networks; and no list of
/// operations leaves an illegal entry. The function does nothing: its contract is the theorem.
pub fn coherence_stands()
    ensures coherence { Coherence }
{}
