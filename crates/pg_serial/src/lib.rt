//! Serial executions: one vertex at a time gathers, applies and scatters.
#![tactic(auto)]

mod bits;
mod entries;
mod execution;
mod gather;
mod neighbours;
mod noted;
mod replaying;
mod scatter;
mod serial;
mod signal_set;
mod writing;

pub use entries::{ROOM, flush, put_entry};
pub use execution::{execute, execute_signalled};
pub use noted::{degree_over, noted_gathers};
pub use replaying::{Replayed, replay};
pub use scatter::Sent;
pub use serial::run_serial;
