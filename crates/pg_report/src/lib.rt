//! The report of a run: its text, and its lines both ways.
#![tactic(auto)]

mod fronts;
pub mod laws;
mod line;
mod put;
mod read;
mod write;

pub use line::{LastLine, ReportLine};
pub use put::put_line;
pub use read::read_report_line;
pub use write::{write_counts, write_head, write_tail};
