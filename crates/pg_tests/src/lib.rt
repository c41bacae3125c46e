//! Tests of the crates between a text and a report, on small graphs whose answers were worked out by hand.
#![tactic(auto)]

#[cfg(test)]
mod check;
#[cfg(test)]
mod input;
#[cfg(test)]
mod journal;
#[cfg(test)]
mod report;
#[cfg(test)]
mod reports;
#[cfg(test)]
mod rounds;
#[cfg(test)]
mod samples;
#[cfg(test)]
mod serial;
