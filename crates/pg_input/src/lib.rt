//! The graph of a text, read line by line, or the first event that refuses it.
#![tactic(auto)]

mod add;
mod error;
mod graph;
mod lines;
mod part;

pub use error::{InputError, Which, from_cut};
pub use graph::read_graph;
pub use part::{Part, read_part};
