//! The entry line as the text of an entry.
ghost use Rattle.std.specs.Prelude.{◌≡◌, ◌<◌, ◌≤◌, length, take};

use crate::entry::put_entry;
use pg_graph::Graph;
use pg_law::{EntryText, JournalEntry};

/// Entries as lines of a journal. `wide` says whether a line shows both words of a datum.
#[derive(Clone, Copy, Debug)]
pub struct JournalText {
    pub wide: bool,
}

impl EntryText for JournalText {
    ghost use Rattle.pg_journal.specs.Entry.{entry_line};

    ghost text = { λ t g entry. entry_line g t.wide entry };

    fn put(&self, buf: &mut [u8; 64], graph: &Graph, entry: JournalEntry) -> usize {
        put_entry(buf, graph, self.wide, entry)
    }
}
