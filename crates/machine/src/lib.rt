// The protocol as an abstract machine, and what is kept along each of its steps. It has definitions and proofs only:
// specs/ says what the machine is, proofs/ what follows, for the crates that prove the same of a real site.

#![tactic(auto)]
