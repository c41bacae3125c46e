//! Executions by many actors, whose acts come in an order that is drawn from a seed.
#![tactic(auto)]

mod hand;
mod order;
mod play;
mod retire;
mod run;
mod single;
mod stretch;
mod tally;
mod texts;
mod worklist;

pub use run::run_virtual;
