//! An edge of a worker, visited for its source first, and then for its target.
ghost use Rattle.std.specs.Prelude.{◌≡◌, ◌<◌, ◌++◌, length, slice_set, All, IfOk, OnOk};
ghost use Rattle.pg_law.specs.Carries.{AreCarries, IsCarried};
ghost use Rattle.pg_law.specs.Round.{IsSent, word_after};
ghost use Rattle.pg_gather.specs.Partials.{IsReadable, IsReadableAt};
ghost use Rattle.pg_apply_scatter.specs.Sending.{AreReplicas, IsBetweenReplicas, scatter_near};
ghost use Rattle.pg_apply_scatter.specs.Sending.{near_with as near_from_here};
ghost use Rattle.pg_apply_scatter.specs.Sending.{final_at, sent_at, IsSentIn};
ghost use Rattle.pg_apply_scatter.specs.Sending.{sent_to, sent_by, listing};

use crate::near::near_with;
use crate::sent::Sent;
use pg_edge_store::EdgeStore;
use pg_graph::{Edge, Graph, Side};
use pg_law::{Delta, Scattered, VertexProgram, laws_of};
use pg_mirrors::MirrorTable;
use std::alloc::{AllocError, Global};

/// What the two visits of an edge give.
///
/// `source` is that of the visit for its source, which goes to its target, and `target` the other
/// way.
#[derive(Drop)]
pub struct Visits<A> {
    pub edge: Edge,
    pub source: Option<Scattered<A>>,
    pub target: Option<Scattered<A>>,
}

/// The word of an edge after a visit.
pub fn word_of<A>(old: u64, scattered: &Option<Scattered<A>>) -> u64
    ensures { result ≡ word_after old scattered.now }
{
    match scattered {
        None => old,
        Some(scattered) => scattered.edge,
    }
}

/// What an end of an edge with this word scatters, where the vertex there has this carry.
///
/// `local` is the edge between replicas.
fn scatter_from<P: VertexProgram>(
    alloc: Global,
    program: &P,
    graph: &Graph,
    mirrors: &MirrorTable,
    side: Side,
    e: u32,
    local: Edge,
    word: u64,
    carry: Option<P::Carry>,
) -> Result<Option<Scattered<P::Acc>>, AllocError>
    requires replicas { AreReplicas (P.meaning program.now) mirrors.now }
    requires edge { IsReadableAt graph.now mirrors.now e }
    requires local { IsBetweenReplicas graph.now mirrors.now e local }
    requires word { (P.meaning program.now).IsWord word }
    requires carry { IsCarried (P.meaning program.now) carry }
    ensures value { IfOk result (λ scattered. scattered ≡ scatter_near (P.meaning program.now)
        (near_from_here graph.now mirrors.now side e word) carry) }
    ensures own { IfOk result (IsSent (P.meaning program.now)) }
{
    laws_of(program);
    match carry {
        None => Ok(None),
        Some(carry) => {
            if program.scatter_edges().takes(side) {
                let near = near_with(program, graph, mirrors, side, e, local, word);
                let scattered = program.scatter(alloc, near, carry)?;
                Ok(Some(scattered))
            } else {
                Ok(None)
            }
        }
    }
}

/// Visits the edge at a place of the store, for its source first, and then for its target.
pub fn visit_place<P: VertexProgram>(
    alloc: Global,
    program: &P,
    graph: &Graph,
    store: &mut EdgeStore,
    mirrors: &MirrorTable,
    carries: &[Option<P::Carry>],
    place: u32,
) -> Result<Visits<P::Acc>, AllocError>
    requires readable { IsReadable (P.meaning program.now) graph.now store.old mirrors.now }
    requires carries { AreCarries (P.meaning program.now) graph.now carries.now }
    requires place { place < length store.old.numbers }
    ensures words { let p = P.meaning program.now in OnOk result (store.new ≡ record store.old {
      words = slice_set store.old.words place
          (final_at p graph.now mirrors.now carries.now store.old place);
    }) }
    ensures sent { let p = P.meaning program.now in IfOk result (λ visits.
        sent_by visits ≡ sent_at p graph.now mirrors.now carries.now store.old place) }
    ensures own { IfOk result (λ visits.
        All (IsSentIn (P.meaning program.now) (length graph.now.ids)) (sent_by visits)) }
    ensures readable { OnOk result
        (IsReadable (P.meaning program.now) graph.now store.new mirrors.now) }
{
    laws_of(program);
    let e = store.edge(place);
    let local = store.local(place);
    let edge = graph.edges()[e as usize];
    let word = store.word(place);
    let (side, carry) = (Side::Source, carries[edge.src as usize]);
    let source = scatter_from(alloc, program, graph, mirrors, side, e, local, word, carry)?;
    let between = word_of(word, &source);
    let (side, carry) = (Side::Target, carries[edge.dst as usize]);
    let target = scatter_from(
        alloc, program, graph, mirrors, side, e, local, between, carry,
    )?;
    store.set_word(place, word_of(between, &target));
    Ok(Visits {
        edge,
        source,
        target,
    })
}

/// Appends what a visit sends to the vertex at the other end, or its signal alone.
fn push_sent<A: Drop>(
    sent: &mut Vec<Sent<A>>,
    to: u32,
    scattered: Option<Scattered<A>>,
    with_deltas: bool,
) -> Result<(), AllocError>
    ensures { OnOk result (sent.new.items ≡
        sent.old.items ++ listing with_deltas (sent_to to scattered)) }
{
    let Some(scattered) = scattered else {
        return Ok(());
    };
    let signal = scattered.signal;
    let delta = scattered.delta;
    if with_deltas {
        sent.push(Sent { to, signal, delta })?;
    } else if signal.is_some() {
        sent.push(Sent {
            to,
            signal,
            delta: Delta::Nothing,
        })?;
    }
    Ok(())
}

/// Appends what the visits of an edge send, or the signals alone.
pub fn push_visits<A: Drop>(
    sent: &mut Vec<Sent<A>>,
    visits: Visits<A>,
    with_deltas: bool,
) -> Result<(), AllocError>
    ensures { OnOk result (sent.new.items ≡
        sent.old.items ++ listing with_deltas (sent_by visits)) }
{
    let Visits {
        edge,
        source,
        target,
    } = visits;
    push_sent(sent, edge.dst, source, with_deltas)?;
    push_sent(sent, edge.src, target, with_deltas)?;
    Ok(())
}
