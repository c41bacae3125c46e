//! Command words: the job that they name, or the place where they go wrong.
#![tactic(auto)]

mod choices;
mod head;
mod job;
pub mod laws;
mod lead;
mod names;
mod numbers;
mod reading;

pub use job::{CutJob, CutKind, Engine, Job, ProgramName, RunJob};
pub use names::EngineName;
pub use reading::{Usage, read_words};

#[cfg(test)]
mod check_tests;
#[cfg(test)]
mod tests;
