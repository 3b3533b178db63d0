// Pointers: a directory that keeps up to four holders of each record itself, over any other directory.

#![tactic(auto)]

mod examples;
mod layer;
mod rows;
mod table;

pub use examples::worked_example;
pub use layer::Pointers;
pub use rows::{Placed, Row};
