//! Gathers that are kept, each with what has changed since.
#![tactic(auto)]

mod cell;
mod filling;
mod laws;
#[cfg(test)]
mod tests;

pub use cell::CacheCell;
pub use laws::{cells_stay_true, deltas_lead};
