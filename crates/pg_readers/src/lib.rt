//! What one line of a graph text says, in three formats.
#![tactic(auto)]

mod line;
mod targets;
mod tokens;

pub use line::{BadLine, Format, Line, parse_line};
pub use targets::Targets;

#[cfg(test)]
mod tests;
