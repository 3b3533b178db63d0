// The home's entries stay legal however a site is used: opened at any time, called in any order, each time with whatever row,
// directory and networks are handed in.

#![tactic(auto)]

ghost use Rattle.protocol.specs.Coherence.{EntriesStayLegal};

/// The theorem, as a contract; the function itself does nothing.
pub fn entries_stay_legal()
    ensures legal { EntriesStayLegal }
{}
