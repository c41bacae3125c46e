//! How the entries of a journal are written.
ghost use Rattle.std.specs.Prelude.{◌≡◌, ℕ, ◌<◌, ◌≤◌, List, length, take};
ghost use Rattle.pg_graph.specs.Multigraph.{Multigraph};
ghost use Rattle.pg_law.specs.declared.values.JournalEntry.{JournalEntry as Entry};

use crate::values::JournalEntry;
use pg_graph::Graph;

/// A text for each entry of a journal, of at most 64 bytes.
pub trait EntryText {
    /// The bytes that stand for an entry, which is of a vertex of the graph.
    ghost text: { Self → Multigraph → Entry → List ℕ };

    /// Puts the text at the front of `buf`, and answers its length. It leaves open what stands
    /// behind it.
    fn put(&self, buf: &mut [u8; 64], graph: &Graph, entry: JournalEntry) -> usize
        requires { entry.vertex < length graph.now.ids }
        ensures within { result ≤ 64 }
        ensures length { result ≡ length (text self.now graph.now entry) }
        ensures front { take result buf.new ≡ text self.now graph.now entry };
}
