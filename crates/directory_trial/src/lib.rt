// Directories, tried out: the makes side by side, and their edges. The crates that are tried stand apart, so that each is
// proved once only.

#![tactic(auto)]

#[cfg(test)]
mod alike;
#[cfg(test)]
mod edges;
#[cfg(test)]
mod maps;
