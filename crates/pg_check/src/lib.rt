//! Whether a report that follows a graph text is right.
#![tactic(auto)]

mod begin;
mod checking;
mod compare;
mod course;
mod entry;
pub mod laws;
mod place;
mod tail;
mod told;
mod verdict;

pub use checking::check;
pub use verdict::Verdict;
