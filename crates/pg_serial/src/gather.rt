//! The gather of the executing vertex.
ghost use Rattle.std.specs.Prelude.{◌≡◌, ◌+◌, ◌<◌, Some, length, slice_index, IfOk, OnOk};
ghost use Rattle.pg_serial.specs.Neighbours.{AreNeighbours};
ghost use Rattle.pg_graph.specs.Multigraph.{edges_at, side_at};
ghost use Rattle.pg_law.specs.Laws.{IsApplied, IsNear};
ghost use Rattle.pg_law.specs.Configuration.{AreData, AreWords, IsFit, message_in};
ghost use Rattle.pg_law.specs.Round.{near_of, edges_over, sum_over, apply_to};

use crate::neighbours::Neighbours;
use pg_graph::Graph;
use pg_law::{
    Datum, EdgeWords, Gathered, Near, State, Steps, Turn, VertexProgram, laws_of, near_edge,
};
use std::alloc::{AllocError, Global};
use std::sync::ledger::Ledger;

/// The edge at this place around `u`, with this word, as `u` sees it.
pub fn near_at<P: VertexProgram>(
    program: &P,
    graph: &Graph,
    neighbours: &Neighbours,
    values: &[Datum],
    u: u32,
    at: usize,
    e: u32,
    word: u64,
) -> Near
    requires values { AreData (P.meaning program.now) graph.now values.now }
    requires word { (P.meaning program.now).IsWord word }
    requires neighbours { AreNeighbours graph.now neighbours.now }
    requires e { e < length graph.now.edges }
    requires at { at < length (edges_at graph.now u) }
    requires edge { e ≡ slice_index (edges_at graph.now u) at }
    ensures value { result ≡ near_of graph.now values.now (side_at graph.now u e) e word }
    ensures near { IsNear (P.meaning program.now) result }
{
    let side = graph.edges()[e as usize].side(u);
    let near = near_edge(program, graph, values, side, e, word);
    Near {
        side: near.side,
        edge: near.edge,
        word: near.word,
        centre: near.centre,
        other: values[neighbours.other(graph, u, at, e) as usize],
    }
}

/// As `fresh_gather`, by the rows of other ends.
fn gather_around<P: VertexProgram, L: Ledger>(
    alloc: Global,
    program: &P,
    graph: &Graph,
    neighbours: &Neighbours,
    values: &[Datum],
    words: &EdgeWords,
    u: u32,
    steps: &mut Steps<L>,
) -> Result<Gathered<P::Acc>, AllocError>
    requires values { AreData (P.meaning program.now) graph.now values.now }
    requires words { AreWords (P.meaning program.now) graph.now words.now }
    requires neighbours { AreNeighbours graph.now neighbours.now }
    requires u { u < length graph.now.ids }
    ensures gathered { let p = P.meaning program.now in
        IfOk result (λ gathered. gathered.acc
        ≡ sum_over p graph.now values.now words.now u (edges_over p.gather_edges graph.now u)) }
    ensures own { IfOk result (λ gathered. (P.meaning program.now).IsAcc gathered.acc) }
    ensures edges { IfOk result (λ gathered. gathered.edges
        ≡ length (edges_over (P.meaning program.now).gather_edges graph.now u)) }
    ensures counted { OnOk result (steps.new
        ≡ steps.old + length (edges_over (P.meaning program.now).gather_edges graph.now u)) }
{
    laws_of(program);
    let dir = program.gather_edges();
    let edges = graph.edges();
    let around = graph.edges_of(u);
    let mut acc = program.empty(alloc)?;
    let mut count = 0;
    let mut at = 0;
    for e in around {
        if dir.takes(edges[*e as usize].side(u)) {
            let near = near_at(
                program,
                graph,
                neighbours,
                values,
                u,
                at,
                *e,
                words.word(*e),
            );
            let part = program.gather(alloc, near, steps)?;
            acc = program.sum(alloc, acc, &part)?;
            count += 1;
        }
        at += 1;
    }
    Ok(Gathered { acc, edges: count })
}

/// What the signalled vertex `u` becomes, after a fresh gather.
pub fn turn_of<P: VertexProgram, L: Ledger>(
    alloc: Global,
    program: &P,
    graph: &Graph,
    neighbours: &Neighbours,
    state: &State,
    u: u32,
    message: u64,
    steps: &mut Steps<L>,
) -> Result<Turn<P::Carry>, AllocError>
    requires fit { IsFit (P.meaning program.now) graph.now state.now }
    requires neighbours { AreNeighbours graph.now neighbours.now }
    requires u { u < length graph.now.ids }
    requires message { message_in state.now.messages u ≡ Some message }
    ensures applied { IfOk result (λ turn. apply_to
        (P.meaning program.now) graph.now state.now u (Some message) ≡ Some turn.applied) }
    ensures own { IfOk result (λ turn. IsApplied (P.meaning program.now) turn.applied) }
    ensures gathers { IfOk result (λ turn. turn.gathers
        ≡ length (edges_over (P.meaning program.now).gather_edges graph.now u)) }
    ensures counted { IfOk result (λ turn. steps.new ≡ steps.old + turn.gathers) }
{
    laws_of(program);
    let gathered = gather_around(
        alloc,
        program,
        graph,
        neighbours,
        state.values.as_slice(),
        &state.edges,
        u,
        steps,
    )?;
    let datum = state.values[u as usize];
    let applied = program.apply(graph.info(u), datum, &gathered.acc, message);
    Ok(Turn {
        applied,
        gathers: gathered.edges,
    })
}
