//! Rounds over a cut: each worker gathers and scatters over its own edges, in a thread of its own.
#![tactic(auto)]

mod cells;
mod collect;
mod degree;
mod engine;
mod half;
pub mod laws;
mod masters;
mod phases;
mod round;
mod run;
mod seats;
mod shares;
mod words;
mod worker;

pub use engine::{SyncEnd, SyncEngine};
