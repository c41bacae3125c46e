//! Greedy colouring as a vertex program.
#![tactic(auto)]

mod colour;
mod colours;
pub mod laws;

pub use colour::Colour;
pub use colours::Colours;

#[cfg(test)]
mod tests;
