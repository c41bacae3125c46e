//! One serial execution.
ghost use Rattle.std.specs.Prelude.{◌≡◌, ◌≢◌, ℕ, ◌+◌, ◌<◌, ◌≤◌, ◌^◌, ◌||◌, ◌==◌, Some, length};
ghost use Rattle.std.specs.Prelude.{IfOk, OnOk, OnErr, All};
ghost use Rattle.std.specs.Prelude.{if◌then◌else◌};
ghost use Rattle.pg_serial.specs.Neighbours.{AreNeighbours};
ghost use Rattle.pg_law.specs.Configuration.{Configuration, IsFit, is_signalled, message_in};
ghost use Rattle.pg_law.specs.Round.{outcome, execution};
ghost use Rattle.pg_serial.specs.Journals.{gather_degree};
ghost use Rattle.pg_serial.specs.Sending.{sents_around, IsAddressed, reaches};

use crate::gather::turn_of;
use crate::neighbours::Neighbours;
use crate::scatter::{Sent, deliver, scatter_around};
use crate::writing::write_words;
use pg_graph::Graph;
use pg_law::{Applied, State, Steps, VertexProgram, laws_of};
use std::alloc::{AllocError, Global};
use std::sync::ledger::Ledger;

/// Writes what an execution prepared, all of it or nothing. The words come first, since they alone
/// may take memory.
fn commit<P: VertexProgram>(
    alloc: Global,
    program: &P,
    graph: &Graph,
    state: &mut State,
    u: u32,
    applied: Applied<P::Carry>,
    sents: &[Sent],
) -> Result<(), AllocError>
    requires fit { IsFit (P.meaning program.now) graph.now state.old }
    requires u { u < length graph.now.ids }
    requires applied { let p = P.meaning program.now in
        outcome p graph.now state.old (λ v. v == u) u ≡ Some applied }
    requires sents { sents.now ≡ sents_around (P.meaning program.now) graph.now
        state.old.values state.old.edges u applied }
    requires own { All (IsAddressed (P.meaning program.now)
        (length graph.now.edges) (length graph.now.ids)) sents.now }
    ensures ok { let p = P.meaning program.now in
        OnOk result (state.new ≡ execution p graph.now state.old u) }
    ensures err { OnErr result (state.new ≡ state.old) }
{
    laws_of(program);
    let _ = graph.vertices();
    write_words(alloc, &mut state.edges, sents)?;
    state.values[u as usize] = applied.datum;
    state.messages[u as usize] = applied.again;
    deliver(program, sents, state.messages.as_mut_slice());
    Ok(())
}

/// Executes `u`, which has this message, and answers over how many edges it gathered.
///
/// It touches `u` and its edges alone, whose other ends the rows tell. All memory is taken before
/// the first write, and `sents` is left with what was sent.
pub fn execute_beside<P: VertexProgram, L: Ledger>(
    alloc: Global,
    program: &P,
    graph: &Graph,
    neighbours: &Neighbours,
    state: &mut State,
    u: u32,
    message: u64,
    sents: &mut Vec<Sent>,
    steps: &mut Steps<L>,
) -> Result<u64, AllocError>
    requires fit { IsFit (P.meaning program.now) graph.now state.old }
    requires neighbours { AreNeighbours graph.now neighbours.now }
    requires u { u < length graph.now.ids }
    requires message { message_in state.old.messages u ≡ Some message }
    ensures state { let p = P.meaning program.now in
        OnOk result (state.new ≡ execution p graph.now state.old u) }
    ensures gathers { IfOk result (λ gathers.
        gathers ≡ gather_degree (P.meaning program.now) graph.now u) }
    ensures few { IfOk result (λ gathers. gathers ≤ 2 ^ 24) }
    ensures counted { IfOk result (λ gathers. steps.new ≡ steps.old + gathers) }
    ensures own { OnOk result (All (IsAddressed (P.meaning program.now)
        (length graph.now.edges) (length graph.now.ids)) sents.new.items) }
    ensures signals { OnOk result ((v : ℕ) → is_signalled state.new v ≡
        ((if v == u then is_signalled state.new u else is_signalled state.old v)
        || reaches v sents.new.items)) }
    ensures fit { IsFit (P.meaning program.now) graph.now state.new }
    ensures err { OnErr result (state.new ≡ state.old) }
{
    laws_of(program);
    let _ = graph.vertices();
    let turn = turn_of(alloc, program, graph, neighbours, state, u, message, steps)?;
    scatter_around(
        alloc,
        program,
        graph,
        neighbours,
        state.values.as_slice(),
        &state.edges,
        u,
        turn.applied,
        sents,
    )?;
    commit(
        alloc,
        program,
        graph,
        state,
        u,
        turn.applied,
        sents.as_slice(),
    )?;
    Ok(turn.gathers)
}

/// Executes `u`, which has this message, and answers over how many edges it gathered.
///
/// It touches `u` and its edges alone. All memory is taken before the first write, and `sents` is
/// left with what was sent.
pub fn execute_signalled<P: VertexProgram, L: Ledger>(
    alloc: Global,
    program: &P,
    graph: &Graph,
    state: &mut State,
    u: u32,
    message: u64,
    sents: &mut Vec<Sent>,
    steps: &mut Steps<L>,
) -> Result<u64, AllocError>
    requires fit { IsFit (P.meaning program.now) graph.now state.old }
    requires u { u < length graph.now.ids }
    requires message { message_in state.old.messages u ≡ Some message }
    ensures state { let p = P.meaning program.now in
        OnOk result (state.new ≡ execution p graph.now state.old u) }
    ensures gathers { IfOk result (λ gathers.
        gathers ≡ gather_degree (P.meaning program.now) graph.now u) }
    ensures few { IfOk result (λ gathers. gathers ≤ 2 ^ 24) }
    ensures counted { IfOk result (λ gathers. steps.new ≡ steps.old + gathers) }
    ensures own { OnOk result (All (IsAddressed (P.meaning program.now)
        (length graph.now.edges) (length graph.now.ids)) sents.new.items) }
    ensures signals { OnOk result ((v : ℕ) → is_signalled state.new v ≡
        ((if v == u then is_signalled state.new u else is_signalled state.old v)
        || reaches v sents.new.items)) }
    ensures fit { IsFit (P.meaning program.now) graph.now state.new }
    ensures err { OnErr result (state.new ≡ state.old) }
{
    let neighbours = Neighbours::none(alloc);
    execute_beside(
        alloc,
        program,
        graph,
        &neighbours,
        state,
        u,
        message,
        sents,
        steps,
    )
}

/// The same for any vertex. It is false where `u` isn't signalled. The caller keeps `sents` for the
/// next execution.
pub fn execute_with<P: VertexProgram, L: Ledger>(
    alloc: Global,
    program: &P,
    graph: &Graph,
    neighbours: &Neighbours,
    state: &mut State,
    u: u32,
    sents: &mut Vec<Sent>,
    steps: &mut Steps<L>,
) -> Result<bool, AllocError>
    requires fit { IsFit (P.meaning program.now) graph.now state.old }
    requires neighbours { AreNeighbours graph.now neighbours.now }
    requires u { u < length graph.now.ids }
    ensures signalled { IfOk result (λ executed. executed ≡ is_signalled state.old u) }
    ensures state { OnOk result (state.new ≡ (if is_signalled state.old u
        then execution (P.meaning program.now) graph.now state.old u else state.old)) }
    ensures counted { OnOk result (steps.new ≡ steps.old + (if is_signalled state.old u
        then gather_degree (P.meaning program.now) graph.now u else 0)) }
    ensures fit { IsFit (P.meaning program.now) graph.now state.new }
    ensures err { OnErr result (state.new ≡ state.old) }
{
    match state.messages[u as usize] {
        None => Ok(false),
        Some(message) => {
            execute_beside(
                alloc, program, graph, neighbours, state, u, message, sents, steps,
            )?;
            Ok(true)
        }
    }
}

/// One serial execution of `u`: it gathers afresh, applies and scatters. It is false exactly where
/// `u` isn't signalled.
///
/// The work is in proportion to the edges at `u`. `Err` is want of memory, and leaves the state as
/// it was; what was gathered until then is counted.
pub fn execute<P: VertexProgram, L: Ledger>(
    alloc: Global,
    program: &P,
    graph: &Graph,
    state: &mut State,
    u: u32,
    steps: &mut Steps<L>,
) -> Result<bool, AllocError>
    requires fit { IsFit (P.meaning program.now) graph.now state.old }
    requires u { u < length graph.now.ids }
    ensures signalled { IfOk result (λ executed. executed ≡ is_signalled state.old u) }
    ensures state { OnOk result (state.new ≡ (if is_signalled state.old u
        then execution (P.meaning program.now) graph.now state.old u else state.old)) }
    ensures counted { OnOk result (steps.new ≡ steps.old + (if is_signalled state.old u
        then gather_degree (P.meaning program.now) graph.now u else 0)) }
    ensures fit { IsFit (P.meaning program.now) graph.now state.new }
    ensures err { OnErr result (state.new ≡ state.old) }
{
    let neighbours = Neighbours::none(alloc);
    let mut sents = Vec::new(alloc);
    execute_with(
        alloc,
        program,
        graph,
        &neighbours,
        state,
        u,
        &mut sents,
        steps,
    )
}
