//! PageRank as a vertex program, in fixed point.
#![tactic(auto)]

pub mod laws;
mod page_rank;

pub use page_rank::{Change, PageRank, UNIT};

#[cfg(test)]
mod tests;
