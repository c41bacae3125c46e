//! The pure core of the asynchronous engine: its definitions, its laws, and the board that makes its
//! acts.
#![tactic(auto)]

pub mod act;
pub mod actor;
pub mod board;
mod carrying;
mod claiming;
mod closing;
mod committing;
mod ends;
pub mod finding;
pub mod fork;
mod gathering;
pub mod laws;
mod leaving;
mod messages;
mod mirrors;
mod opening;
mod pinning;
mod planning;
mod preparing;
pub mod ranking;
mod readying;
pub mod room;
pub mod seat;
mod settling;
mod signalled;
mod stepping;
pub mod table;
mod turning;
