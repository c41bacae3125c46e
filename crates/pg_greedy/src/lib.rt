//! Greedy cuts: an edge goes where its ends already are.
#![tactic(auto)]

mod alone;
mod best;
mod choice;
mod draft;
pub mod laws;
mod loaders;
mod marks;
mod placed;
mod table;
mod together;

pub use loaders::{GreedyCut, coordinated, oblivious};
pub use placed::Placed;
pub use table::GreedyTable;
