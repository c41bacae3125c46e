//! The edges that a cut places on one worker, as a graph of their own between its replicas.
#![tactic(auto)]

mod around;
mod between;
mod laws;
mod own_words;
mod store;

pub use around::Around;
pub use laws::{places_are_edges, rows_are_places, rows_in_a_direction, sides_are_sides};
pub use store::EdgeStore;
