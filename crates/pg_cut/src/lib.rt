//! Which worker holds each edge, and so which workers hold each vertex.
#![tactic(auto)]

mod by_worker;
mod cut;
mod directory;
mod keys;
mod mix;
mod span;
mod tally;
mod worker_set;

pub use cut::Cut;
pub use keys::Keys;
pub use mix::random;
pub use worker_set::{has_worker, lowest, size, with_worker, without, worker_at};
