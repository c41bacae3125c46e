//! What a vertex gathers, by what was noted over its forks.
ghost use Rattle.std.specs.Prelude.{◌≡◌, ◌+◌, ◌<◌, length, IfOk, OnOk};
ghost use Rattle.pg_law.specs.Round.{edges_over};
ghost use Rattle.pg_meals.specs.Plans.{datum_noted as noted_or_none, near_over as near_from, AreNear};
ghost use Rattle.pg_meals.specs.Plans.{gather_along};

use crate::fork::Fork;
use pg_graph::Graph;
use pg_law::{Datum, Near, Steps, VertexProgram, laws_of};
use std::alloc::{AllocError, Global};
use std::sync::ledger::Ledger;

/// The datum that was noted, or one of nothing.
fn datum_noted(noted: Option<Datum>) -> Datum
    ensures { result ≡ noted_or_none noted }
{
    match noted {
        Some(datum) => datum,
        None => Datum::two(0, 0),
    }
}

/// An edge as its end at a vertex sees it that has this datum.
pub fn near_over<A: Drop>(
    graph: &Graph,
    forks: &[Fork<A>],
    centre: Datum,
    vertex: u32,
    edge: u32,
) -> Near
    requires edge { edge < length graph.now.edges }
    requires forks { length forks.now ≡ length graph.now.edges }
    ensures { result ≡ near_from graph.now forks.now centre vertex edge }
{
    let fork = &forks[edge as usize];
    let word = fork.content.word;
    let noted = fork.mark.noted;
    Near {
        side: graph.edges()[edge as usize].side(vertex),
        edge: graph.edge_info(edge),
        word,
        centre,
        other: datum_noted(noted),
    }
}

/// What a vertex gathers over its gather edges, ascending. `Err` is want of memory.
pub fn gather_noted<P: VertexProgram, L: Ledger>(
    alloc: Global,
    program: &P,
    graph: &Graph,
    forks: &[Fork<P::Acc>],
    centre: Datum,
    vertex: u32,
    steps: &mut Steps<L>,
) -> Result<P::Acc, AllocError>
    requires vertex { vertex < length graph.now.ids }
    requires forks { length forks.now ≡ length graph.now.edges }
    requires near { let p = P.meaning program.now in
        AreNear p p.gather_edges graph.now forks.now centre vertex }
    ensures value { let p = P.meaning program.now in
        IfOk result (λ acc. acc ≡ gather_along p graph.now forks.now centre vertex
        (edges_over p.gather_edges graph.now vertex)) }
    ensures own { IfOk result (P.meaning program.now).IsAcc }
    ensures counted { OnOk result (steps.new ≡ steps.old
        + length (edges_over (P.meaning program.now).gather_edges graph.now vertex)) }
{
    laws_of(program);
    let dir = program.gather_edges();
    let edges = graph.edges();
    let around = graph.edges_of(vertex);
    let mut acc = program.empty(alloc)?;
    for e in around {
        let side = edges[*e as usize].side(vertex);
        if dir.takes(side) {
            let near = near_over(graph, forks, centre, vertex, *e);
            let part = program.gather(alloc, near, steps)?;
            acc = program.sum(alloc, acc, &part)?;
        }
    }
    Ok(acc)
}
