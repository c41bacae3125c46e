//! What the masters receive.
ghost use Rattle.std.specs.Prelude.{◌≡◌, ◌≢◌, ◌<◌, ℕ, [], ◌∷◌, length, All, OnOk};
ghost use Rattle.pg_law.specs.Laws.{IsOptional};
ghost use Rattle.pg_law.specs.Configuration.{message_in};
ghost use Rattle.pg_law.specs.Round.{join as join_by};
ghost use Rattle.pg_cut.specs.ByWorker.{lists_in};
ghost use Rattle.pg_apply_scatter.specs.Sending.{IsSentIn};
ghost use Rattle.pg_apply_scatter.specs.Delivering.{AreCombined, ArePosted, AreMessagesOf, AreCellsOf};

use crate::sent::Sent;
use pg_delta::CacheCell;
use pg_law::VertexProgram;
use std::alloc::{AllocError, Global};

/// Two messages for one vertex.
pub fn join<P: VertexProgram>(program: &P, message: Option<u64>, signal: Option<u64>) -> Option<u64>
    requires message { IsOptional (P.meaning program.now).IsMessage message }
    requires signal { IsOptional (P.meaning program.now).IsMessage signal }
    ensures { result ≡ join_by (P.meaning program.now).combine message signal }
{
    match (message, signal) {
        (None, signal) => signal,
        (Some(message), None) => Some(message),
        (Some(message), Some(signal)) => Some(program.combine(message, signal)),
    }
}

/// A vertex receives what is sent to it.
fn receive<P: VertexProgram>(
    alloc: Global,
    program: &P,
    sent: Sent<P::Acc>,
    messages: &mut [Option<u64>],
    cells: &mut [CacheCell<P::Acc>],
) -> Result<(), AllocError>
    requires sent { IsSentIn (P.meaning program.now) (length messages.old) sent }
    requires messages { AreMessagesOf (P.meaning program.now) messages.old }
    requires cells { AreCellsOf (P.meaning program.now) cells.old }
    ensures messages { OnOk result
        (AreCombined (P.meaning program.now) ((sent ∷ []) ∷ []) messages.old messages.new) }
    ensures cells { OnOk result
        (ArePosted (P.meaning program.now) ((sent ∷ []) ∷ []) cells.old cells.new) }
    ensures own { OnOk result (AreMessagesOf (P.meaning program.now) messages.new) }
    ensures own_cells { OnOk result (AreCellsOf (P.meaning program.now) cells.new) }
{
    let v = sent.to as usize;
    messages[v] = join(program, messages[v], sent.signal);
    if v < cells.len() {
        cells[v].post(alloc, program, sent.delta)?;
    }
    Ok(())
}

/// The vertices receive what one worker sent.
fn receive_all<P: VertexProgram>(
    alloc: Global,
    program: &P,
    list: Vec<Sent<P::Acc>>,
    messages: &mut [Option<u64>],
    cells: &mut [CacheCell<P::Acc>],
) -> Result<(), AllocError>
    requires sent { All (IsSentIn (P.meaning program.now) (length messages.old)) list.items }
    requires messages { AreMessagesOf (P.meaning program.now) messages.old }
    requires cells { AreCellsOf (P.meaning program.now) cells.old }
    ensures messages { OnOk result
        (AreCombined (P.meaning program.now) (list.items ∷ []) messages.old messages.new) }
    ensures cells { OnOk result
        (ArePosted (P.meaning program.now) (list.items ∷ []) cells.old cells.new) }
    ensures own { OnOk result (AreMessagesOf (P.meaning program.now) messages.new) }
    ensures own_cells { OnOk result (AreCellsOf (P.meaning program.now) cells.new) }
{
    for sent in list {
        receive(alloc, program, sent, messages, cells)?;
    }
    Ok(())
}

/// Combines the signals into the messages, and posts the deltas to the cells.
///
/// `sent[w]` is what the worker `w` sent. `messages` and `cells` have a place for each vertex; where
/// no gather is kept, `cells` is empty. `Err` is want of memory.
pub fn deliver<P: VertexProgram>(
    alloc: Global,
    program: &P,
    sent: Vec<Vec<Sent<P::Acc>>>,
    messages: &mut [Option<u64>],
    cells: &mut [CacheCell<P::Acc>],
) -> Result<(), AllocError>
    requires sent { let p = P.meaning program.now in
        All (All (IsSentIn p (length messages.old))) (lists_in sent.items) }
    requires messages { AreMessagesOf (P.meaning program.now) messages.old }
    requires cells { AreCellsOf (P.meaning program.now) cells.old }
    ensures messages { OnOk result
        (AreCombined (P.meaning program.now) (lists_in sent.items) messages.old messages.new) }
    ensures cells { OnOk result
        (ArePosted (P.meaning program.now) (lists_in sent.items) cells.old cells.new) }
    ensures own { OnOk result (AreMessagesOf (P.meaning program.now) messages.new) }
    ensures own_cells { OnOk result (AreCellsOf (P.meaning program.now) cells.new) }
{
    for list in sent {
        receive_all(alloc, program, list, messages, cells)?;
    }
    Ok(())
}
