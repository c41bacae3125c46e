//! One step at one vertex: it gathers afresh and applies.
ghost use Rattle.std.specs.Prelude.{◌≡◌, ◌+◌, ◌<◌, Option, Some, length, IfOk};
ghost use Rattle.pg_law.specs.Laws.{IsApplied};
ghost use Rattle.pg_law.specs.Configuration.{IsFit, message_in};
ghost use Rattle.pg_law.specs.Round.{apply_to, edges_over};

use crate::gather::fresh_gather;
use crate::program::{VertexProgram, laws_of};
use crate::state::State;
use crate::steps::Steps;
use crate::values::Applied;
use pg_graph::Graph;
use std::alloc::{AllocError, Global};
use std::sync::ledger::Ledger;

/// What one vertex becomes, and over how many edges it gathered.
#[derive(Drop)]
pub struct Turn<C> {
    pub applied: Applied<C>,
    pub gathers: u64,
}

/// A vertex with this message applies to its fresh gather. `Err` is want of memory.
pub fn take_turn<P: VertexProgram, L: Ledger>(
    alloc: Global,
    program: &P,
    graph: &Graph,
    state: &State,
    u: u32,
    message: u64,
    steps: &mut Steps<L>,
) -> Result<Turn<P::Carry>, AllocError>
    requires fit { IsFit (P.meaning program.now) graph.now state.now }
    requires u { u < length graph.now.ids }
    requires message { message_in state.now.messages u ≡ Some message }
    ensures applied { IfOk result (λ turn. apply_to
        (P.meaning program.now) graph.now state.now u (Some message) ≡ Some turn.applied) }
    ensures own { IfOk result (λ turn. IsApplied (P.meaning program.now) turn.applied) }
    ensures gathers { IfOk result (λ turn. turn.gathers
        ≡ length (edges_over (P.meaning program.now).gather_edges graph.now u)) }
    ensures counted { IfOk result (λ turn. steps.new ≡ steps.old + turn.gathers) }
{
    laws_of(program);
    let gathered = fresh_gather(
        alloc,
        program,
        graph,
        state.values.as_slice(),
        &state.edges,
        u,
        steps,
    )?;
    let datum = state.values[u as usize];
    let applied = program.apply(graph.info(u), datum, &gathered.acc, message);
    Ok(Turn {
        applied,
        gathers: gathered.edges,
    })
}
