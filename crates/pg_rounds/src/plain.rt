//! A round as its definition reads: new lists, and every edge is visited, ascending.
ghost use Rattle.std.specs.Prelude.{◌≡◌, ◌+◌, ◌<◌, ◌≤◌, true, length, map, IfOk, OnOk, if◌then◌else◌};
ghost use Rattle.pg_graph.specs.Multigraph.{vertices, edge_numbers, edges_at};
ghost use Rattle.pg_law.specs.Configuration.{Configuration, AreData, AreWords, AreMessages, IsFit, signalled, is_signalled, message_in};
ghost use Rattle.pg_law.specs.Round.{outcome, outcomes, edges_over, datum_after, message_after};
ghost use Rattle.pg_law.specs.Round.{AreApplied, values_after, messages_after, final_word, with_signals, round as round_of};
ghost use Rattle.pg_law.specs.Rounds.{gathers_in};
ghost use Rattle.pg_law.specs.Carries.{carry_in};

use crate::visit::{deliver, visit_edge};
use pg_graph::Graph;
use pg_law::{Applied, Datum, EdgeWords, State, Steps, VertexProgram, laws_of, take_turn};
use std::alloc::{AllocError, Global};
use std::sync::ledger::Ledger;

/// What one vertex becomes, and what that took.
#[derive(Drop)]
struct Became<C> {
    pub became: Option<Applied<C>>,
    pub executions: u64,
    pub gathers: u64,
}

/// A vertex applies to its fresh gather, if it is signalled.
fn apply_one<P: VertexProgram, L: Ledger>(
    alloc: Global,
    program: &P,
    graph: &Graph,
    state: &State,
    v: u32,
    steps: &mut Steps<L>,
) -> Result<Became<P::Carry>, AllocError>
    requires fit { IsFit (P.meaning program.now) graph.now state.now }
    requires v { v < length graph.now.ids }
    ensures became { IfOk result (λ turn. turn.became ≡ outcome
        (P.meaning program.now) graph.now state.now (λ u. true) v) }
    ensures executions { IfOk result (λ turn. turn.executions
        ≡ (if is_signalled state.now v then 1 else 0)) }
    ensures gathers { IfOk result (λ turn. turn.gathers
        ≡ (if is_signalled state.now v then length (edges_over
        (P.meaning program.now).gather_edges graph.now v) else 0)) }
    ensures counted { IfOk result (λ turn. steps.new ≡ steps.old + turn.gathers) }
{
    match state.messages[v as usize] {
        None => Ok(Became {
            became: None,
            executions: 0,
            gathers: 0,
        }),
        Some(message) => {
            let turn = take_turn(alloc, program, graph, state, v, message, steps)?;
            Ok(Became {
                became: Some(turn.applied),
                executions: 1,
                gathers: turn.gathers,
            })
        }
    }
}

/// The datum of a vertex after what it became.
fn datum_of<C: Copy>(old: Datum, became: &Option<Applied<C>>) -> Datum
    ensures { result ≡ datum_after old became.now }
{
    match became {
        None => old,
        Some(applied) => applied.datum,
    }
}

/// The message of a vertex after what it became, without the signals of others.
fn message_of<C: Copy>(old: Option<u64>, became: &Option<Applied<C>>) -> Option<u64>
    ensures { result ≡ message_after old became.now }
{
    match became {
        None => old,
        Some(applied) => applied.again,
    }
}

/// The carry of a vertex that became something.
fn carry_of<C: Copy>(became: &Option<Applied<C>>) -> Option<C>
    ensures { result ≡ carry_in became.now }
{
    match became {
        None => None,
        Some(applied) => Some(applied.carry),
    }
}

/// What each vertex becomes, and what that took.
#[derive(Drop)]
struct Applies<C> {
    pub became: Vec<Option<Applied<C>>>,
    pub executions: u64,
    pub gathers: u64,
}

/// The state after a round, and what it took.
#[derive(Drop)]
pub struct Rounded {
    pub state: State,
    pub executions: u64,
    pub gathers: u64,
}

/// Every signalled vertex applies to its fresh gather.
fn apply_all<P: VertexProgram, L: Ledger>(
    alloc: Global,
    program: &P,
    graph: &Graph,
    state: &State,
    steps: &mut Steps<L>,
) -> Result<Applies<P::Carry>, AllocError>
    requires { IsFit (P.meaning program.now) graph.now state.now }
    ensures became { IfOk result (λ applies. applies.became.items
        ≡ outcomes (P.meaning program.now) graph.now state.now (λ v. true)) }
    ensures executions { IfOk result (λ applies. applies.executions
        ≡ length (signalled graph.now state.now)) }
    ensures gathers { IfOk result (λ applies. applies.gathers
        ≡ gathers_in (P.meaning program.now) graph.now state.now) }
    ensures counted { IfOk result (λ applies. steps.new ≡ steps.old + applies.gathers) }
{
    let mut became = Vec::new(alloc);
    let mut executions = 0;
    let mut gathers = 0;
    for v in 0..graph.vertices() {
        let turn = apply_one(alloc, program, graph, state, v, steps)?;
        became.push(turn.became)?;
        executions += turn.executions;
        gathers += turn.gathers;
    }
    Ok(Applies {
        became,
        executions,
        gathers,
    })
}

/// The data after apply.
fn values_of<P: VertexProgram>(
    alloc: Global,
    _program: &P,
    graph: &Graph,
    values: &[Datum],
    became: &[Option<Applied<P::Carry>>],
) -> Result<Vec<Datum>, AllocError>
    requires values { AreData (P.meaning _program.now) graph.now values.now }
    requires became { AreApplied (P.meaning _program.now) graph.now became.now }
    ensures { IfOk result (λ after. after.items ≡ values_after
        (P.meaning _program.now) graph.now values.now became.now) }
{
    let mut after = Vec::new(alloc);
    for v in 0..graph.vertices() as usize {
        after.push(datum_of(values[v], &became[v]))?;
    }
    Ok(after)
}

/// The messages after apply.
fn messages_of<P: VertexProgram>(
    alloc: Global,
    _program: &P,
    graph: &Graph,
    messages: &[Option<u64>],
    became: &[Option<Applied<P::Carry>>],
) -> Result<Vec<Option<u64>>, AllocError>
    requires messages { AreMessages (P.meaning _program.now) graph.now messages.now }
    requires became { AreApplied (P.meaning _program.now) graph.now became.now }
    ensures { IfOk result (λ after. after.items ≡ messages_after
        (P.meaning _program.now) graph.now messages.now became.now) }
{
    let mut after = Vec::new(alloc);
    for v in 0..graph.vertices() as usize {
        after.push(message_of(messages[v], &became[v]))?;
    }
    Ok(after)
}

/// The carries of the vertices.
fn carries_of<C: Copy>(
    alloc: Global,
    became: &[Option<Applied<C>>],
) -> Result<Vec<Option<C>>, AllocError>
    ensures { IfOk result (λ carries. carries.items ≡ map carry_in became.now) }
{
    let mut carries = Vec::new(alloc);
    for applied in became {
        carries.push(carry_of(applied))?;
    }
    Ok(carries)
}

/// The edges are visited ascending, each for its source and then for its target.
fn scatter_all<P: VertexProgram>(
    alloc: Global,
    program: &P,
    graph: &Graph,
    values: &[Datum],
    words: &EdgeWords,
    became: &[Option<Applied<P::Carry>>],
    messages: &mut [Option<u64>],
) -> Result<Vec<u64>, AllocError>
    requires values { AreData (P.meaning program.now) graph.now values.now }
    requires words { AreWords (P.meaning program.now) graph.now words.now }
    requires became { AreApplied (P.meaning program.now) graph.now became.now }
    requires messages { AreMessages (P.meaning program.now) graph.now messages.old }
    ensures words { let p = P.meaning program.now in
        IfOk result (λ after. after.items
        ≡ map (final_word p graph.now values.now words.now became.now) (edge_numbers graph.now)) }
    ensures messages { let p = P.meaning program.now in
        OnOk result (messages.new ≡ map (λ v. with_signals p graph.now values.now words.now
        became.now v (message_in messages.old v) (edges_at graph.now v)) (vertices graph.now)) }
{
    laws_of(program);
    let carries = carries_of(alloc, became)?;
    let mut after = Vec::new(alloc);
    let edges = graph.edges();
    for e in 0..edges.len() as u32 {
        let visit = visit_edge(alloc, program, graph, values, words, carries.as_slice(), e)?;
        after.push(visit.word)?;
        deliver(
            program,
            messages,
            edges[e as usize],
            visit.from_source,
            visit.from_target,
        );
    }
    Ok(after)
}

/// One round, slow and plain: it makes new lists of all vertices and edges, and visits every edge.
///
/// `Err` is want of memory.
pub fn plain_round<P: VertexProgram, L: Ledger>(
    alloc: Global,
    program: &P,
    graph: &Graph,
    state: &State,
    steps: &mut Steps<L>,
) -> Result<Rounded, AllocError>
    requires { IsFit (P.meaning program.now) graph.now state.now }
    ensures state { IfOk result (λ rounded. rounded.state
        ≡ round_of (P.meaning program.now) graph.now state.now) }
    ensures fit { IfOk result (λ rounded. IsFit (P.meaning program.now) graph.now rounded.state) }
    ensures executions { IfOk result (λ rounded. rounded.executions
        ≡ length (signalled graph.now state.now)) }
    ensures gathers { IfOk result (λ rounded. rounded.gathers
        ≡ gathers_in (P.meaning program.now) graph.now state.now) }
    ensures counted { IfOk result (λ rounded. steps.new ≡ steps.old + rounded.gathers) }
{
    laws_of(program);
    let _ = graph.vertices();
    let applies = apply_all(alloc, program, graph, state, steps)?;
    let became = applies.became.as_slice();
    let values = values_of(alloc, program, graph, state.values.as_slice(), became)?;
    let mut messages = messages_of(alloc, program, graph, state.messages.as_slice(), became)?;
    let edges = scatter_all(
        alloc,
        program,
        graph,
        values.as_slice(),
        &state.edges,
        became,
        messages.as_mut_slice(),
    )?;
    Ok(Rounded {
        state: State {
            values,
            edges: EdgeWords::from(edges),
            messages,
        },
        executions: applies.executions,
        gathers: applies.gathers,
    })
}
