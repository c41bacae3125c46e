//! The lines of a journal, written and read.
#![tactic(auto)]

mod entry;
mod fronts;
mod text;

pub use entry::{put_entry, read_entry};
pub use fronts::{behind, number_at};
pub use text::JournalText;
