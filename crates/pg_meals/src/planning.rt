//! What is to ride on the forks of a vertex once it has executed.
ghost use Rattle.std.specs.Prelude.{◌≡◌, ◌<◌, ℕ, length, map, true, IfOk};
ghost use Rattle.pg_graph.specs.Multigraph.{edge_at, is_at, edges_at};
ghost use Rattle.pg_law.specs.Laws.{IsDelta, IsScattered};
ghost use Rattle.pg_delta.specs.Deltas.{joined};
ghost use Rattle.pg_meals.specs.Entries.{fork_at};
ghost use Rattle.pg_meals.specs.Plans.{IsNearAt, AreNear, laid_for, carried_sent, carried_kept};
ghost use Rattle.pg_meals.specs.Plans.{planned_over};
ghost use Rattle.pg_meals.specs.StandsFor.{IsContent};
ghost use Rattle.pg_meals.specs.Shown.{content_of};

use crate::fork::{Carried, Fork, Ride};
use crate::gathering::near_over;
use crate::messages::join_messages;
use pg_graph::{Graph, Side};
use pg_law::{Applied, Delta, Scattered, VertexProgram, laws_of};
use std::alloc::{AllocError, Global};

/// A change and then another, which is used up.
fn join_changes<P: VertexProgram>(
    alloc: Global,
    program: &P,
    first: &Delta<P::Acc>,
    next: Delta<P::Acc>,
) -> Result<Delta<P::Acc>, AllocError>
    requires first { IsDelta (P.meaning program.now).IsAcc first.now }
    requires next { IsDelta (P.meaning program.now).IsAcc next }
    ensures { IfOk result (λ both. both ≡ joined (P.meaning program.now).sum first.now next) }
{
    match (first, next) {
        (Delta::Nothing, next) => Ok(next),
        (Delta::Clear, _) => Ok(Delta::Clear),
        (Delta::Add(a), Delta::Nothing) => Ok(Delta::Add(program.copy(alloc, a)?)),
        (Delta::Add(_), Delta::Clear) => Ok(Delta::Clear),
        (Delta::Add(a), Delta::Add(b)) => {
            let a = program.copy(alloc, a)?;
            Ok(Delta::Add(program.sum(alloc, a, &b)?))
        }
    }
}

/// A content with this word, and this for the end other than `me`.
fn lay<A: Drop>(me: Side, word: u64, ride: Ride<A>) -> Carried<A>
    ensures { result ≡ laid_for me word ride }
{
    let none = Ride {
        message: None,
        delta: Delta::Nothing,
    };
    match me {
        Side::Source => Carried {
            word,
            source: none,
            target: ride,
        },
        Side::Target => Carried {
            word,
            source: ride,
            target: none,
        },
    }
}

/// What a fork carries once its end `me` has scattered this over it.
fn sent_over<P: VertexProgram>(
    alloc: Global,
    program: &P,
    content: &Carried<P::Acc>,
    me: Side,
    scattered: Scattered<P::Acc>,
) -> Result<Carried<P::Acc>, AllocError>
    requires content { IsContent (P.meaning program.now) (content_of content.now) }
    requires scattered { IsScattered (P.meaning program.now) scattered }
    ensures { IfOk result (λ carried.
        carried ≡ carried_sent (P.meaning program.now) me content.now scattered) }
{
    let ride = content.ride(me.opposite());
    let message = join_messages(program, ride.message, scattered.signal);
    let delta = join_changes(alloc, program, &ride.delta, scattered.delta)?;
    Ok(lay(me, scattered.edge, Ride { message, delta }))
}

/// What a fork carries once its end `me` has executed, and scattered nothing over it.
fn kept_over<P: VertexProgram>(
    alloc: Global,
    program: &P,
    content: &Carried<P::Acc>,
    me: Side,
) -> Result<Carried<P::Acc>, AllocError>
    requires { IsContent (P.meaning program.now) (content_of content.now) }
    ensures { IfOk result (λ carried. carried ≡ carried_kept me content.now) }
{
    let ride = content.ride(me.opposite());
    let message = ride.message;
    let delta = join_changes(alloc, program, &ride.delta, Delta::Nothing)?;
    Ok(lay(me, content.word, Ride { message, delta }))
}

/// What one fork of a vertex is to carry, which has applied.
fn plan_over<P: VertexProgram>(
    alloc: Global,
    program: &P,
    graph: &Graph,
    forks: &[Fork<P::Acc>],
    vertex: u32,
    applied: Applied<P::Carry>,
    edge: u32,
) -> Result<Carried<P::Acc>, AllocError>
    requires edge { edge < length graph.now.edges }
    requires forks { length forks.now ≡ length graph.now.edges }
    requires carry { (P.meaning program.now).IsCarry applied.carry }
    requires near { let p = P.meaning program.now in
        IsNearAt p p.scatter_edges graph.now forks.now applied.datum vertex edge }
    requires content { IsContent (P.meaning program.now)
        (content_of (fork_at 0 forks.now edge).content) }
    ensures { IfOk result (λ carried. carried
        ≡ planned_over (P.meaning program.now) graph.now forks.now vertex applied edge) }
{
    laws_of(program);
    let me = graph.edges()[edge as usize].side(vertex);
    let content = &forks[edge as usize].content;
    if !program.scatter_edges().takes(me) {
        return kept_over(alloc, program, content, me);
    }
    let near = near_over(graph, forks, applied.datum, vertex, edge);
    let scattered = program.scatter(alloc, near, applied.carry)?;
    sent_over(alloc, program, content, me, scattered)
}

/// What each fork of a vertex is to carry, which has applied: a content for each of its edges,
/// ascending.
pub fn plan<P: VertexProgram>(
    alloc: Global,
    program: &P,
    graph: &Graph,
    forks: &[Fork<P::Acc>],
    vertex: u32,
    applied: Applied<P::Carry>,
) -> Result<Vec<Carried<P::Acc>>, AllocError>
    requires vertex { vertex < length graph.now.ids }
    requires forks { length forks.now ≡ length graph.now.edges }
    requires carry { (P.meaning program.now).IsCarry applied.carry }
    requires near { let p = P.meaning program.now in
        AreNear p p.scatter_edges graph.now forks.now applied.datum vertex }
    requires contents { (e : ℕ) → e < length graph.now.edges
        → is_at vertex (edge_at graph.now e) ≡ true
        → IsContent (P.meaning program.now) (content_of (fork_at 0 forks.now e).content) }
    ensures { IfOk result (λ plans. plans.items
        ≡ map (planned_over (P.meaning program.now) graph.now forks.now vertex applied)
        (edges_at graph.now vertex)) }
{
    let around = graph.edges_of(vertex);
    let mut plans = Vec::with_capacity(alloc, around.len())?;
    for e in around {
        plans.push(plan_over(alloc, program, graph, forks, vertex, applied, *e)?)?;
    }
    Ok(plans)
}
