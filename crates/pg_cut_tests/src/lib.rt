//! Tests of the crates that stand on a cut, on small graphs whose answers were worked out by hand.
#![tactic(auto)]

#[cfg(test)]
mod boards;
#[cfg(test)]
mod cut;
#[cfg(test)]
mod gather;
#[cfg(test)]
mod greedy;
#[cfg(test)]
mod mirrors;
#[cfg(test)]
mod samples;
#[cfg(test)]
mod scatter;
#[cfg(test)]
mod stores;
#[cfg(test)]
mod sync;
#[cfg(test)]
mod tables;
