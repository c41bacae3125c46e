//! The replicas of vertices on one worker.
#![tactic(auto)]

mod laws;
mod table;

pub use laws::replicas_are_in_spans;
pub use table::MirrorTable;
