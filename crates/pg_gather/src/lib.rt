//! The gather phase: what each worker sums over its own edges, and the sums of all workers merged.
#![tactic(auto)]

mod desk;
mod laws;
mod merge;
mod near;
mod partial;
mod sweep;

pub use laws::{parts_are_fresh, shares_are_readable};
pub use merge::merge_at_masters;
pub use partial::partial_sums;
