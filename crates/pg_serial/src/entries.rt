//! Entries on their way to a sink, through a buffer.
ghost use Rattle.std.specs.Prelude.{◌≡◌, ◌<◌, ◌≤◌, ◌++◌, [], length, OnOk, OnErr, IsErrOf};
ghost use Rattle.pg_base.specs.Faults.{HasRisen};
ghost use Rattle.pg_base.specs.Writing.{Sent as Goes, SendsFront};
ghost use Rattle.pg_law.specs.declared.async_end.AsyncError.TheVariants.{WriteFault};

use pg_base::{Sink, write_whole};
use pg_graph::Graph;
use pg_law::{AsyncError, EntryText, JournalEntry};

/// How many bytes wait at most before they are written.
pub const ROOM: usize = 8192;

/// Writes all that waits.
pub fn flush<K: Sink>(journal: &mut K, waiting: &mut Vec<u8>) -> Result<(), AsyncError>
    ensures sent { OnOk result (Goes (K.written journal.old) (K.written journal.new)
        waiting.old.items waiting.new.items) }
    ensures none { OnOk result (waiting.new.items ≡ []) }
    ensures front { OnErr result (SendsFront (K.written journal.old) (K.written journal.new)
        waiting.old.items) }
    ensures fault { IsErrOf result WriteFault →
        HasRisen (K.faults journal.old) (K.faults journal.new) }
    ensures later { K.faults journal.old ≤ K.faults journal.new }
{
    write_whole(journal, waiting.as_slice())?;
    waiting.clear();
    Ok(())
}

/// Writes what waits, if there is no room for so many bytes behind it.
fn make_room<K: Sink>(journal: &mut K, waiting: &mut Vec<u8>, len: usize) -> Result<(), AsyncError>
    requires { len ≤ 64 }
    ensures sent { OnOk result (Goes (K.written journal.old) (K.written journal.new)
        waiting.old.items waiting.new.items) }
    ensures front { OnErr result (SendsFront (K.written journal.old) (K.written journal.new)
        waiting.old.items) }
    ensures fault { IsErrOf result WriteFault →
        HasRisen (K.faults journal.old) (K.faults journal.new) }
    ensures later { K.faults journal.old ≤ K.faults journal.new }
{
    if waiting.len() > ROOM - len {
        return flush(journal, waiting);
    }
    Ok(())
}

/// Puts the text of an entry behind what waits. Where there is no room for it, what waits is
/// written first.
pub fn put_entry<K: Sink, T: EntryText>(
    journal: &mut K,
    waiting: &mut Vec<u8>,
    text: &T,
    graph: &Graph,
    entry: JournalEntry,
) -> Result<(), AsyncError>
    requires { entry.vertex < length graph.now.ids }
    ensures sent { OnOk result (Goes (K.written journal.old) (K.written journal.new)
        (waiting.old.items ++ T.text text.now graph.now entry) waiting.new.items) }
    ensures front { OnErr result (SendsFront (K.written journal.old) (K.written journal.new)
        (waiting.old.items ++ T.text text.now graph.now entry)) }
    ensures fault { IsErrOf result WriteFault →
        HasRisen (K.faults journal.old) (K.faults journal.new) }
    ensures later { K.faults journal.old ≤ K.faults journal.new }
{
    let mut buf = [0u8; 64];
    let len = text.put(&mut buf, graph, entry);
    make_room(journal, waiting, len)?;
    waiting.extend_from_slice(&buf[..len])?;
    Ok(())
}
