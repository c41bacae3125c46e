//! Forks: one for each edge, which its two ends share, as a number of four bits.
#![tactic(auto)]

mod fork_word;
pub mod laws;
#[cfg(test)]
mod tests;

pub use fork_word::{ForkWord, Why};
