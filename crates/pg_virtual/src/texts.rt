//! The texts of several entries.
ghost use Rattle.std.specs.Prelude.{◌<◌, ◌≤◌, ◌++◌, flat_map, length, All, OnOk, OnErr, IsErrOf};
ghost use Rattle.pg_base.specs.Faults.{HasRisen};
ghost use Rattle.pg_base.specs.Writing.{Sent, SendsFront};
ghost use Rattle.pg_law.specs.declared.async_end.AsyncError.TheVariants.{WriteFault};

use pg_base::Sink;
use pg_graph::Graph;
use pg_law::{AsyncError, EntryText, JournalEntry};
use pg_serial::put_entry;

/// Puts the texts of entries behind what waits, in order.
pub fn put_entries<K: Sink, T: EntryText>(
    journal: &mut K,
    waiting: &mut Vec<u8>,
    text: &T,
    graph: &Graph,
    entries: &[JournalEntry],
) -> Result<(), AsyncError>
    requires { All (λ entry. entry.vertex < length graph.now.ids) entries.now }
    ensures sent { OnOk result (Sent (K.written journal.old) (K.written journal.new)
        (waiting.old.items ++ flat_map (T.text text.now graph.now) entries.now) waiting.new.items) }
    ensures front { OnErr result (SendsFront (K.written journal.old) (K.written journal.new)
        (waiting.old.items ++ flat_map (T.text text.now graph.now) entries.now)) }
    ensures fault { IsErrOf result WriteFault →
        HasRisen (K.faults journal.old) (K.faults journal.new) }
    ensures later { K.faults journal.old ≤ K.faults journal.new }
{
    for entry in entries {
        put_entry(journal, waiting, text, graph, *entry)?;
    }
    Ok(())
}
