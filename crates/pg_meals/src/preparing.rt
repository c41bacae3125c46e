//! Preparing the entry of a vertex.
ghost use Rattle.std.specs.Prelude.{◌≡◌, ◌+◌, ◌<◌, length, IfOk, OnOk, OnErr, MatchOption};
ghost use Rattle.std.specs.Prelude.{MatchBool, IsFalse, if◌then◌else◌};
ghost use Rattle.pg_law.specs.Configuration.{Configuration};
ghost use Rattle.pg_meals.specs.Plans.{cell_keeping};
ghost use Rattle.pg_meals.specs.Boards.{Frame};
ghost use Rattle.pg_meals.specs.Carrying.{IsKept};
ghost use Rattle.pg_meals.specs.Prepares.{MayPrepareOn, MayNotPrepare, PreparesOn};
ghost use Rattle.pg_meals.specs.Prepares.{gather_on, cost_on, cost_by, IsDraft};

use crate::actor::Ready;
use crate::board::Board;
use crate::fork::Carried;
use crate::gathering::gather_noted;
use crate::messages::message_for;
use crate::planning::plan;
use crate::settling::kept_gather;
use pg_delta::CacheCell;
use pg_graph::Graph;
use pg_law::{Steps, VertexProgram, laws_of};
use std::alloc::{AllocError, Global};
use std::sync::ledger::Ledger;

/// A vertex in hand that may be prepared, and the message for it.
#[derive(Clone, Copy)]
pub struct Due {
    pub vertex: u32,
    pub message: u64,
}

/// What an entry will make of a vertex, and of what rides on each of its forks, ascending.
#[derive(Drop)]
pub struct Draft<A> {
    pub ready: Ready,
    pub cell: CacheCell<A>,
    pub plans: Vec<Carried<A>>,
}

/// The vertex that the actor may prepare, if it may.
pub fn due_of<P: VertexProgram>(
    program: &P,
    graph: &Graph,
    board: &Board<P::Acc>,
    actor: u32,
) -> Option<Due>
    requires actor { actor < length board.now.actors.items }
    requires kept { (s : Configuration) × IsKept (P.meaning program.now) graph.now s board.now }
    ensures { let p = P.meaning program.now in MatchOption result
        (MayNotPrepare p graph.now board.now actor)
        (λ due. MayPrepareOn p graph.now board.now actor due.vertex due.message) }
{
    laws_of(program);
    let record = board.actors[actor as usize];
    if record.committed {
        return None;
    }
    let Some(vertex) = record.vertex else {
        return None;
    };
    let gathers = program.gather_edges();
    let scatters = program.scatter_edges();
    if !board.has_noted(graph, gathers, scatters, actor, vertex) {
        return None;
    }
    let own = board.seats[vertex as usize].message;
    match message_for(program, graph, board.forks.as_slice(), own, vertex) {
        Some(message) => Some(Due { vertex, message }),
        None => None,
    }
}

/// The gather of a vertex that may be prepared: the one that is kept, or else over what was noted.
fn gather_of<P: VertexProgram, L: Ledger>(
    alloc: Global,
    program: &P,
    graph: &Graph,
    board: &Board<P::Acc>,
    actor: u32,
    due: Due,
    steps: &mut Steps<L>,
) -> Result<P::Acc, AllocError>
    requires kept { (s : Configuration) × IsKept (P.meaning program.now) graph.now s board.now }
    requires due { let p = P.meaning program.now in
        MayPrepareOn p graph.now board.now actor due.vertex due.message }
    ensures value { let p = P.meaning program.now in
        IfOk result (λ acc. acc ≡ gather_on p graph.now board.now actor due.vertex) }
    ensures own { IfOk result (P.meaning program.now).IsAcc }
    ensures counted { let p = P.meaning program.now in
        OnOk result (steps.new ≡ steps.old + cost_on p graph.now board.now due.vertex) }
{
    laws_of(program);
    let seat = &board.seats[due.vertex as usize];
    let forks = board.forks.as_slice();
    match kept_gather(alloc, program, graph, forks, &seat.cell, due.vertex)? {
        Some(acc) => Ok(acc),
        None => gather_noted(alloc, program, graph, forks, seat.datum, due.vertex, steps),
    }
}

/// A cell that keeps this gather, where gathers are kept.
fn keep_gather<A: Drop>(caches: bool, acc: A) -> CacheCell<A>
    ensures { result ≡ cell_keeping caches acc }
{
    let mut cell = CacheCell::new();
    if caches {
        cell.fill(acc);
    }
    cell
}

/// What is prepared for a vertex that may be prepared.
fn draft_of<P: VertexProgram, L: Ledger>(
    alloc: Global,
    program: &P,
    graph: &Graph,
    board: &Board<P::Acc>,
    actor: u32,
    due: Due,
    steps: &mut Steps<L>,
) -> Result<Draft<P::Acc>, AllocError>
    requires kept { (s : Configuration) × IsKept (P.meaning program.now) graph.now s board.now }
    requires due { let p = P.meaning program.now in
        MayPrepareOn p graph.now board.now actor due.vertex due.message }
    ensures draft { let p = P.meaning program.now in
        IfOk result (IsDraft p graph.now board.now actor due.vertex due.message) }
    ensures counted { let p = P.meaning program.now in
        OnOk result (steps.new ≡ steps.old + cost_on p graph.now board.now due.vertex) }
{
    laws_of(program);
    let acc = gather_of(alloc, program, graph, board, actor, due, steps)?;
    let datum = board.seats[due.vertex as usize].datum;
    let info = graph.info(due.vertex);
    let applied = program.apply(info, datum, &acc, due.message);
    let forks = board.forks.as_slice();
    let plans = plan(alloc, program, graph, forks, due.vertex, applied)?;
    let ready = Ready {
        datum: applied.datum,
        again: applied.again,
    };
    let cell = keep_gather(board.caches, acc);
    Ok(Draft { ready, cell, plans })
}

/// The actor prepares the entry of its vertex, where it may. `Err` is want of memory.
pub fn prepare_on<P: VertexProgram, L: Ledger>(
    alloc: Global,
    program: &P,
    graph: &Graph,
    board: &mut Board<P::Acc>,
    actor: u32,
    steps: &mut Steps<L>,
) -> Result<bool, AllocError>
    requires actor { actor < length board.old.actors.items }
    requires kept { (s : Configuration) × IsKept (P.meaning program.now) graph.now s board.old }
    ensures made { let p = P.meaning program.now in IfOk result (λ made. MatchBool made
        (PreparesOn p graph.now board.old actor board.new)
        (board.new ≡ board.old)) }
    ensures refused { let p = P.meaning program.now in IfOk result (λ made. IsFalse made
        → MayNotPrepare p graph.now board.old actor) }
    ensures counted { let p = P.meaning program.now in IfOk result (λ made. steps.new
        ≡ steps.old + (if made then cost_by p graph.now board.old actor else 0)) }
    ensures err { OnErr result (board.new ≡ board.old) }
    ensures frame { Frame board.old board.new }
    ensures kept { (s : Configuration) → IsKept (P.meaning program.now) graph.now s board.old
        → IsKept (P.meaning program.now) graph.now s board.new }
{
    laws_of(program);
    let Some(due) = due_of(program, graph, board, actor) else {
        return Ok(false);
    };
    let draft = draft_of(alloc, program, graph, board, actor, due, steps)?;
    let Draft { ready, cell, plans } = draft;
    board.keep(graph, actor, due.vertex, ready, cell, plans);
    Ok(true)
}
