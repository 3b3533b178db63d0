// The edges of texts, packets and listings, tried out. The crates that are tried stand apart, so that each is proved once only.

#![tactic(auto)]

#[cfg(test)]
mod listings;
#[cfg(test)]
mod packets;
#[cfg(test)]
mod texts;
