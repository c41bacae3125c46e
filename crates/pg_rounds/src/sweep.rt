//! The edges at the vertices that execute, visited: those alone, or all in order.
ghost use Rattle.std.specs.Prelude.{◌≡◌, ◌≢◌, ◌<◌, ◌==◌, true, [], ◌∷◌, length, map, filter, All, OnOk};
ghost use Rattle.pg_graph.specs.Multigraph.{vertices, edge_numbers, edges_at, edge_at, is_at};
ghost use Rattle.pg_law.specs.Monoid.{part};
ghost use Rattle.pg_law.specs.Configuration.{AreData, AreWords, AreMessages, message_in};
ghost use Rattle.pg_law.specs.Round.{from_source, from_target, final_word, with_signals};
ghost use Rattle.pg_law.specs.Carries.{AreCarries};
ghost use Rattle.pg_law.specs.EdgeWords.{written};
ghost use Rattle.pg_rounds.specs.Carries.{outcomes_with};
ghost use Rattle.pg_rounds.specs.Visits.{executes_in, visitor, visitor_of, visits_of, IsVisited, AreInside};

use crate::draft::note_change;
use crate::visit::{deliver, visit_edge};
use pg_graph::{Edge, Graph};
use pg_law::{Change, Datum, EdgeWords, VertexProgram, laws_of};
use std::alloc::{AllocError, Global};

/// Whether `v` visits this edge, at which it stands. It executes.
fn is_visitor<C: Copy>(carries: &[Option<C>], edge: Edge, v: u32) -> bool
    requires src { edge.src < length carries.now }
    requires apart { edge.src ≢ edge.dst }
    requires at { is_at v edge ≡ true }
    requires runs { executes_in carries.now v ≡ true }
    ensures { result ≡ (visitor_of carries.now edge == v) }
{
    edge.src == v || carries[edge.src as usize].is_none()
}

/// Visits an edge: its ends receive what it scatters, and its new word is noted.
fn visit_here<P: VertexProgram>(
    alloc: Global,
    program: &P,
    graph: &Graph,
    values: &[Datum],
    words: &EdgeWords,
    carries: &[Option<P::Carry>],
    e: u32,
    messages: &mut [Option<u64>],
    changes: &mut Vec<Change>,
) -> Result<(), AllocError>
    requires values { AreData (P.meaning program.now) graph.now values.now }
    requires words { AreWords (P.meaning program.now) graph.now words.now }
    requires carries { AreCarries (P.meaning program.now) graph.now carries.now }
    requires messages { AreMessages (P.meaning program.now) graph.now messages.old }
    requires e { e < length graph.now.edges }
    ensures visited { let p = P.meaning program.now in
        let became = outcomes_with p graph.now carries.now in
        OnOk result (IsVisited p graph.now values.now words.now became (e ∷ [])
        messages.old messages.new changes.old.items changes.new.items) }
    ensures own { OnOk result (AreMessages (P.meaning program.now) graph.now messages.new) }
{
    laws_of(program);
    let edge = graph.edges()[e as usize];
    let visit = visit_edge(alloc, program, graph, values, words, carries, e)?;
    deliver(
        program,
        messages,
        edge,
        visit.from_source,
        visit.from_target,
    );
    note_change(changes, e, words.word(e), visit.word)?;
    Ok(())
}

/// Visits an edge at `v`, if `v` is its visitor.
fn visit_from<P: VertexProgram>(
    alloc: Global,
    program: &P,
    graph: &Graph,
    values: &[Datum],
    words: &EdgeWords,
    carries: &[Option<P::Carry>],
    v: u32,
    e: u32,
    messages: &mut [Option<u64>],
    changes: &mut Vec<Change>,
) -> Result<(), AllocError>
    requires values { AreData (P.meaning program.now) graph.now values.now }
    requires words { AreWords (P.meaning program.now) graph.now words.now }
    requires carries { AreCarries (P.meaning program.now) graph.now carries.now }
    requires messages { AreMessages (P.meaning program.now) graph.now messages.old }
    requires e { e < length graph.now.edges }
    requires at { is_at v (edge_at graph.now e) ≡ true }
    requires runs { executes_in (outcomes_with (P.meaning program.now) graph.now carries.now) v
        ≡ true }
    ensures visited { let p = P.meaning program.now in
        let became = outcomes_with p graph.now carries.now in
        OnOk result (IsVisited p graph.now values.now words.now became
        (part (visitor graph.now became) v (e ∷ [])) messages.old messages.new
        changes.old.items changes.new.items) }
    ensures own { OnOk result (AreMessages (P.meaning program.now) graph.now messages.new) }
{
    let edge = graph.edges()[e as usize];
    if !is_visitor(carries, edge, v) {
        return Ok(());
    }
    visit_here(
        alloc, program, graph, values, words, carries, e, messages, changes,
    )
}

/// `v`, which executes, visits its edges.
fn visit_around<P: VertexProgram>(
    alloc: Global,
    program: &P,
    graph: &Graph,
    values: &[Datum],
    words: &EdgeWords,
    carries: &[Option<P::Carry>],
    v: u32,
    messages: &mut [Option<u64>],
    changes: &mut Vec<Change>,
) -> Result<(), AllocError>
    requires values { AreData (P.meaning program.now) graph.now values.now }
    requires words { AreWords (P.meaning program.now) graph.now words.now }
    requires carries { AreCarries (P.meaning program.now) graph.now carries.now }
    requires messages { AreMessages (P.meaning program.now) graph.now messages.old }
    requires v { v < length graph.now.ids }
    requires runs { executes_in (outcomes_with (P.meaning program.now) graph.now carries.now) v
        ≡ true }
    ensures visited { let p = P.meaning program.now in
        let became = outcomes_with p graph.now carries.now in
        OnOk result (IsVisited p graph.now values.now words.now became
        (visits_of graph.now became v)
        messages.old messages.new changes.old.items changes.new.items) }
    ensures own { OnOk result (AreMessages (P.meaning program.now) graph.now messages.new) }
{
    let around = graph.edges_of(v);
    for e in around {
        visit_from(
            alloc, program, graph, values, words, carries, v, *e, messages, changes,
        )?;
    }
    Ok(())
}

/// The vertices that execute visit their edges. An edge between two of them is visited once, by its source.
fn visit_frontier<P: VertexProgram>(
    alloc: Global,
    program: &P,
    graph: &Graph,
    values: &[Datum],
    words: &EdgeWords,
    carries: &[Option<P::Carry>],
    frontier: &[u32],
    messages: &mut [Option<u64>],
    changes: &mut Vec<Change>,
) -> Result<(), AllocError>
    requires values { AreData (P.meaning program.now) graph.now values.now }
    requires words { AreWords (P.meaning program.now) graph.now words.now }
    requires carries { AreCarries (P.meaning program.now) graph.now carries.now }
    requires frontier { let became = outcomes_with (P.meaning program.now) graph.now carries.now in
        frontier.now ≡ filter (executes_in became) (vertices graph.now) }
    requires messages { AreMessages (P.meaning program.now) graph.now messages.old }
    requires none { changes.old.items ≡ [] }
    ensures words { let p = P.meaning program.now in
        let became = outcomes_with p graph.now carries.now in
        OnOk result (written words.now changes.new.items ≡
        map (final_word p graph.now values.now words.now became) (edge_numbers graph.now)) }
    ensures messages { let p = P.meaning program.now in
        let became = outcomes_with p graph.now carries.now in
        OnOk result (messages.new ≡ map (λ v. with_signals p graph.now values.now words.now became v
        (message_in messages.old v) (edges_at graph.now v)) (vertices graph.now)) }
    ensures inside { OnOk result (AreInside graph.now changes.new.items) }
{
    laws_of(program);
    let _ = graph.vertices();
    for v in frontier {
        visit_around(
            alloc, program, graph, values, words, carries, *v, messages, changes,
        )?;
    }
    Ok(())
}

/// All edges are visited, ascending. Where nobody at an edge executes, the visit changes nothing.
fn sweep<P: VertexProgram>(
    alloc: Global,
    program: &P,
    graph: &Graph,
    values: &[Datum],
    words: &EdgeWords,
    carries: &[Option<P::Carry>],
    messages: &mut [Option<u64>],
    changes: &mut Vec<Change>,
) -> Result<(), AllocError>
    requires values { AreData (P.meaning program.now) graph.now values.now }
    requires words { AreWords (P.meaning program.now) graph.now words.now }
    requires carries { AreCarries (P.meaning program.now) graph.now carries.now }
    requires messages { AreMessages (P.meaning program.now) graph.now messages.old }
    requires none { changes.old.items ≡ [] }
    ensures words { let p = P.meaning program.now in
        let became = outcomes_with p graph.now carries.now in
        OnOk result (written words.now changes.new.items ≡
        map (final_word p graph.now values.now words.now became) (edge_numbers graph.now)) }
    ensures messages { let p = P.meaning program.now in
        let became = outcomes_with p graph.now carries.now in
        OnOk result (messages.new ≡ map (λ v. with_signals p graph.now values.now words.now became v
        (message_in messages.old v) (edges_at graph.now v)) (vertices graph.now)) }
    ensures inside { OnOk result (AreInside graph.now changes.new.items) }
{
    laws_of(program);
    for e in 0..graph.edges().len() as u32 {
        visit_here(
            alloc, program, graph, values, words, carries, e, messages, changes,
        )?;
    }
    Ok(())
}

/// Whether the vertices stand at so many edges that going over all edges in order is cheaper.
pub fn is_dense(graph: &Graph, frontier: &[u32]) -> bool
    requires { All (λ v. v < length graph.now.ids) frontier.now }
{
    let mut around = 0usize;
    for v in frontier {
        around = around.saturating_add(graph.edges_of(*v).len());
    }
    around >= graph.edges().len() / 2
}

/// The edges at the vertices that execute are visited.
///
/// Then every message is that after the round, and so is every word with the changes.
pub fn visit_all<P: VertexProgram>(
    alloc: Global,
    program: &P,
    graph: &Graph,
    values: &[Datum],
    words: &EdgeWords,
    carries: &[Option<P::Carry>],
    frontier: &[u32],
    messages: &mut [Option<u64>],
    changes: &mut Vec<Change>,
) -> Result<(), AllocError>
    requires values { AreData (P.meaning program.now) graph.now values.now }
    requires words { AreWords (P.meaning program.now) graph.now words.now }
    requires carries { AreCarries (P.meaning program.now) graph.now carries.now }
    requires frontier { let became = outcomes_with (P.meaning program.now) graph.now carries.now in
        frontier.now ≡ filter (executes_in became) (vertices graph.now) }
    requires messages { AreMessages (P.meaning program.now) graph.now messages.old }
    requires none { changes.old.items ≡ [] }
    ensures words { let p = P.meaning program.now in
        let became = outcomes_with p graph.now carries.now in
        OnOk result (written words.now changes.new.items ≡
        map (final_word p graph.now values.now words.now became) (edge_numbers graph.now)) }
    ensures messages { let p = P.meaning program.now in
        let became = outcomes_with p graph.now carries.now in
        OnOk result (messages.new ≡ map (λ v. with_signals p graph.now values.now words.now became v
        (message_in messages.old v) (edges_at graph.now v)) (vertices graph.now)) }
    ensures inside { OnOk result (AreInside graph.now changes.new.items) }
{
    if is_dense(graph, frontier) {
        sweep(
            alloc, program, graph, values, words, carries, messages, changes,
        )
    } else {
        visit_frontier(
            alloc, program, graph, values, words, carries, frontier, messages, changes,
        )
    }
}
