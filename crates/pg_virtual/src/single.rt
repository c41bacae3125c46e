//! A turn of a run: a stretch, or one execution where it made no entry.
ghost use Rattle.std.specs.Prelude.{◌≡◌, ◌<◌, ◌≤◌, [], true, length, map, Option, IfOk};
ghost use Rattle.std.specs.Prelude.{MatchOption, Vec};
ghost use Rattle.pg_law.specs.Configuration.{IsFit, is_signalled, is_quiet};
ghost use Rattle.pg_cut.specs.Cut.{Division, IsCutOf};
ghost use Rattle.pg_meals.specs.Tables.{AreCaches};
ghost use Rattle.pg_serial.specs.Serial.{entry_after};
ghost use Rattle.pg_virtual.specs.Stretches.{IsStretch, AreForgotten, GoesOn};

use crate::play::Play;
use crate::stretch::stretch;
use pg_cut::Cut;
use pg_delta::CacheCell;
use pg_graph::Graph;
use pg_law::{JournalEntry, State, Steps, VertexProgram};
use pg_meals::table::Closed;
use pg_serial::execute;
use std::alloc::{AllocError, Global};
use std::sync::ledger::Ledger;

/// The signalled vertex of least number.
pub fn least_of(graph: &Graph, state: &State) -> Option<u32>
    requires { length state.now.messages ≡ length graph.now.ids }
    ensures { MatchOption result
        (is_quiet graph.now state.now ≡ true)
        (λ u. (u < length graph.now.ids) × (is_signalled state.now u ≡ true)) }
{
    for v in 0..graph.vertices() {
        if state.messages[v as usize].is_some() {
            return Some(v);
        }
    }
    None
}

/// Cells of nothing, where there are cells.
fn forget<A: Drop>(caches: Option<Vec<CacheCell<A>>>) -> Option<Vec<CacheCell<A>>>
    ensures { AreForgotten caches result }
{
    match caches {
        None => None,
        Some(mut cells) => {
            cells.clear();
            Some(cells)
        }
    }
}

/// The entry of an execution of a vertex that left this state.
fn entry_of(state: &State, vertex: u32) -> JournalEntry
    requires { vertex < length state.now.values }
    ensures { result ≡ entry_after state.now vertex }
{
    JournalEntry {
        vertex,
        datum: state.values[vertex as usize],
    }
}

/// After a stretch without an entry the signalled vertex of least number is executed, if there is
/// one, and every cell is cleared: the execution told no cell what changes.
fn execute_least<P: VertexProgram, L: Ledger>(
    alloc: Global,
    program: &P,
    graph: &Graph,
    closed: Closed<P::Acc>,
    steps: &mut Steps<L>,
) -> Result<Closed<P::Acc>, AllocError>
    requires fit { IsFit (P.meaning program.now) graph.now closed.state }
    requires caches { (cut : Division)
        → AreCaches (P.meaning program.now) graph.now cut closed.state closed.caches }
    requires none { closed.journal.items ≡ [] }
    ensures made { IfOk result (IsStretch (P.meaning program.now) graph.now closed.state 1) }
    ensures goes { IfOk result (GoesOn graph.now) }
    ensures counted { IfOk result (λ _. steps.old ≤ steps.new) }
{
    let Closed {
        mut state,
        mut journal,
        caches,
    } = closed;
    let Some(vertex) = least_of(graph, &state) else {
        return Ok(Closed {
            state,
            journal,
            caches,
        });
    };
    execute(alloc, program, graph, &mut state, vertex, steps)?;
    let entry = entry_of(&state, vertex);
    journal.push(entry)?;
    Ok(Closed {
        state,
        journal,
        caches: forget(caches),
    })
}

/// A stretch of so many entries at most. It has one where something is signalled.
pub fn turn<'g, P: VertexProgram, L: Ledger>(
    alloc: Global,
    program: &'g P,
    graph: &'g Graph,
    cut: &Cut,
    state: State,
    caches: Option<Vec<CacheCell<P::Acc>>>,
    play: &mut Play,
    fuel: u32,
    steps: &mut Steps<L>,
) -> Result<Closed<P::Acc>, AllocError>
    requires some { 0 < fuel }
    requires cut { IsCutOf graph.now cut.now }
    requires fit { IsFit (P.meaning program.now) graph.now state }
    requires caches { AreCaches (P.meaning program.now) graph.now cut.now state caches }
    ensures made { IfOk result (IsStretch (P.meaning program.now) graph.now state fuel) }
    ensures goes { IfOk result (GoesOn graph.now) }
    ensures counted { IfOk result (λ _. steps.old ≤ steps.new) }
{
    let closed = stretch(alloc, program, graph, cut, state, caches, play, fuel, steps)?;
    if closed.journal.len() > 0 {
        return Ok(closed);
    }
    execute_least(alloc, program, graph, closed, steps)
}
