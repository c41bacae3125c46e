//! A journal that is executed again.
ghost use Rattle.std.specs.Prelude.{◌≡◌, ◌+◌, IfOk};
ghost use Rattle.pg_serial.specs.Neighbours.{AreNeighbours};
ghost use Rattle.pg_law.specs.Configuration.{Configuration, IsFit};
ghost use Rattle.pg_serial.specs.Journals.{IsReplayed, IsReplayFit, executed_by, gathers_over};

use crate::execution::execute_with;
use crate::neighbours::Neighbours;
use pg_graph::Graph;
use pg_law::{Datum, JournalEntry, State, Steps, VertexProgram};
use std::alloc::{AllocError, Global};
use std::sync::ledger::Ledger;

/// What executing a journal again finds. Entries are counted from 0.
#[derive(Drop)]
pub enum Replayed {
    /// Each entry is legal, and this is the state after them.
    Legal { state: State },
    /// The first entry that isn't legal: its vertex isn't signalled, or isn't in the graph.
    NotSignalled { at: u64 },
    /// The first entry that isn't legal: its execution gives this datum, and the entry has another.
    WrongValue { at: u64, datum: Datum },
}

/// Executes a journal again, up to the first entry that isn't legal. `Err` is want of memory.
pub fn replay<P: VertexProgram, L: Ledger>(
    alloc: Global,
    program: &P,
    graph: &Graph,
    state: State,
    journal: &[JournalEntry],
    steps: &mut Steps<L>,
) -> Result<Replayed, AllocError>
    requires { IsFit (P.meaning program.now) graph.now state }
    ensures value { IfOk result (IsReplayed (P.meaning program.now) graph.now state journal.now) }
    ensures counted { IfOk result (λ replayed. steps.new ≡ steps.old +
        gathers_over (P.meaning program.now) graph.now (executed_by journal.now replayed)) }
    ensures fit { IfOk result (IsReplayFit (P.meaning program.now) graph.now) }
{
    let mut state = state;
    let neighbours = Neighbours::of(alloc, graph)?;
    let mut sents = Vec::new(alloc);
    for at in 0..journal.len() {
        let entry = journal[at];
        if entry.vertex >= graph.vertices() {
            return Ok(Replayed::NotSignalled { at: at as u64 });
        }
        let executed = execute_with(
            alloc,
            program,
            graph,
            &neighbours,
            &mut state,
            entry.vertex,
            &mut sents,
            steps,
        )?;
        if !executed {
            return Ok(Replayed::NotSignalled { at: at as u64 });
        }
        let datum = state.values[entry.vertex as usize];
        if datum != entry.datum {
            return Ok(Replayed::WrongValue {
                at: at as u64,
                datum,
            });
        }
    }
    Ok(Replayed::Legal { state })
}
