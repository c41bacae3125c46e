//! A worker that goes over all its edges, and combines the signals at the desks of its replicas.
ghost use Rattle.std.specs.Prelude.{◌≡◌, ◌<◌, ℕ, length, slice_index, slice_set, All, IfOk, OnOk};
ghost use Rattle.pg_graph.specs.Multigraph.{Multigraph};
ghost use Rattle.pg_law.specs.Carries.{AreCarries, IsCarried};
ghost use Rattle.pg_law.specs.Laws.{IsNear};
ghost use Rattle.pg_law.specs.Round.{IsSent};
ghost use Rattle.pg_mirrors.specs.Mirrors.{Mirrors};
ghost use Rattle.pg_gather.specs.Partials.{IsReadable};
ghost use Rattle.pg_apply_scatter.specs.Sending.{IsSentIn, scatter_near, final_at, sent_to, sent_by};
ghost use Rattle.pg_apply_scatter.specs.Sending.{words_after, sent_from};
ghost use Rattle.pg_apply_scatter.specs.Desks.{AreDesks, AreSignalsOf, AreVisitsAt, AreSent};
ghost use Rattle.pg_apply_scatter.specs.Desks.{signal_at};
ghost use Rattle.pg_apply_scatter.specs.Delivering.{DeliverTheSame, signals_of};

use crate::delivery::join;
use crate::desk::{Desk, desks_of, list_desks};
use crate::sent::Sent;
use crate::visit::{Visits, word_of};
use pg_edge_store::EdgeStore;
use pg_graph::{Graph, Side};
use pg_law::{Near, Scattered, VertexProgram, laws_of};
use pg_mirrors::MirrorTable;
use std::alloc::{AllocError, Global};

/// What an end scatters over an edge that it sees so, where the vertex there has this carry.
fn scatter_at<P: VertexProgram>(
    alloc: Global,
    program: &P,
    near: Near,
    carry: Option<P::Carry>,
) -> Result<Option<Scattered<P::Acc>>, AllocError>
    requires near { IsNear (P.meaning program.now) near }
    requires carry { IsCarried (P.meaning program.now) carry }
    ensures value { IfOk result (λ scattered.
        scattered ≡ scatter_near (P.meaning program.now) near carry) }
    ensures own { IfOk result (IsSent (P.meaning program.now)) }
{
    laws_of(program);
    match carry {
        None => Ok(None),
        Some(carry) => {
            if program.scatter_edges().takes(near.side) {
                let scattered = program.scatter(alloc, near, carry)?;
                Ok(Some(scattered))
            } else {
                Ok(None)
            }
        }
    }
}

/// Gives the edge at a place another word, and writes nothing where it stays.
fn write_word(store: &mut EdgeStore, place: u32, old: u64, word: u64)
    requires place { place < length store.old.numbers }
    requires old { old ≡ slice_index store.old.words place }
    ensures { store.new ≡ record store.old { words = slice_set store.old.words place word } }
{
    if word != old {
        store.set_word(place, word);
    }
}

/// Visits the edge at a place of the store, for its source first, and then for its target, from the
/// desks of its ends. The edge of the visits is that between replicas.
fn visit_desks<P: VertexProgram>(
    alloc: Global,
    program: &P,
    graph: &Graph,
    store: &mut EdgeStore,
    _mirrors: &MirrorTable,
    _carries: &[Option<P::Carry>],
    desks: &[Desk<P::Carry>],
    place: u32,
) -> Result<Visits<P::Acc>, AllocError>
    requires readable { IsReadable (P.meaning program.now) graph.now store.old _mirrors.now }
    requires carries { AreCarries (P.meaning program.now) graph.now _carries.now }
    requires desks { AreDesks _mirrors.now _carries.now (length graph.now.ids) desks.now }
    requires place { place < length store.old.numbers }
    ensures words { let p = P.meaning program.now in OnOk result (store.new ≡ record store.old {
      words = slice_set store.old.words place
          (final_at p graph.now _mirrors.now _carries.now store.old place);
    }) }
    ensures visits { let p = P.meaning program.now in IfOk result
        (AreVisitsAt p graph.now _mirrors.now _carries.now store.old place) }
    ensures own { IfOk result (AreSent (P.meaning program.now)) }
    ensures readable { OnOk result
        (IsReadable (P.meaning program.now) graph.now store.new _mirrors.now) }
{
    laws_of(program);
    let _ = graph.vertices();
    let e = store.edge(place);
    let local = store.local(place);
    let (from, to) = (desks[local.src as usize], desks[local.dst as usize]);
    let edge = graph.edge_info(e);
    let word = store.word(place);
    let near = Near {
        side: Side::Source,
        edge,
        word,
        centre: from.datum,
        other: to.datum,
    };
    let source = scatter_at(alloc, program, near, from.carry)?;
    let between = word_of(word, &source);
    let near = Near {
        side: Side::Target,
        edge,
        word: between,
        centre: to.datum,
        other: from.datum,
    };
    let target = scatter_at(alloc, program, near, to.carry)?;
    write_word(store, place, word, word_of(between, &target));
    Ok(Visits {
        edge: local,
        source,
        target,
    })
}

/// Combines what a visit sends to the replica at the other end at its desk.
fn combine_sent<P: VertexProgram>(
    program: &P,
    desks: &mut [Desk<P::Carry>],
    to: u32,
    scattered: &Option<Scattered<P::Acc>>,
)
    requires to { to < length desks.old }
    requires sent { IsSent (P.meaning program.now) scattered.now }
    requires signals { AreSignalsOf (P.meaning program.now) desks.old }
    ensures combined { (i : ℕ) → signal_at desks.new i ≡
        signals_of (P.meaning program.now) i (signal_at desks.old i) (sent_to to scattered.now) }
    ensures own { AreSignalsOf (P.meaning program.now) desks.new }
    ensures desks { (m : Mirrors) (carries : _) (below : ℕ) → AreDesks m carries below desks.old →
        AreDesks m carries below desks.new }
{
    laws_of(program);
    if let Some(scattered) = scattered {
        let replica = to as usize;
        desks[replica].signal = join(program, desks[replica].signal, scattered.signal);
    }
}

/// Combines what the visits of an edge between replicas send at the desks of its ends.
fn combine_visits<P: VertexProgram>(
    program: &P,
    desks: &mut [Desk<P::Carry>],
    visits: &Visits<P::Acc>,
)
    requires source { visits.now.edge.src < length desks.old }
    requires target { visits.now.edge.dst < length desks.old }
    requires sent { AreSent (P.meaning program.now) visits.now }
    requires signals { AreSignalsOf (P.meaning program.now) desks.old }
    ensures combined { (i : ℕ) → signal_at desks.new i ≡
        signals_of (P.meaning program.now) i (signal_at desks.old i) (sent_by visits.now) }
    ensures own { AreSignalsOf (P.meaning program.now) desks.new }
    ensures desks { (m : Mirrors) (carries : _) (below : ℕ) → AreDesks m carries below desks.old →
        AreDesks m carries below desks.new }
{
    combine_sent(program, desks, visits.edge.dst, &visits.source);
    combine_sent(program, desks, visits.edge.src, &visits.target);
}

/// Visits all edges of a worker, ascending, and combines the signals for each vertex as it goes.
///
/// So at most one signal for each vertex is handed over, however many edges were scattered over.
pub fn scatter_desks<P: VertexProgram>(
    alloc: Global,
    program: &P,
    graph: &Graph,
    store: &mut EdgeStore,
    mirrors: &MirrorTable,
    carries: &[Option<P::Carry>],
) -> Result<Vec<Sent<P::Acc>>, AllocError>
    requires readable { IsReadable (P.meaning program.now) graph.now store.old mirrors.now }
    requires carries { AreCarries (P.meaning program.now) graph.now carries.now }
    ensures words { let p = P.meaning program.now in OnOk result (store.new ≡ record store.old {
      words = words_after p graph.now mirrors.now carries.now store.old;
    }) }
    ensures sent { let p = P.meaning program.now in IfOk result (λ sent. DeliverTheSame p
        sent.items (sent_from p graph.now mirrors.now carries.now store.old)) }
    ensures own { IfOk result (λ sent.
        All (IsSentIn (P.meaning program.now) (length graph.now.ids)) sent.items) }
{
    laws_of(program);
    let _ = graph.vertices();
    let mut room = desks_of(alloc, graph, mirrors, carries)?;
    let desks = room.as_mut_slice();
    for place in 0..store.len() {
        let visits = visit_desks(alloc, program, graph, store, mirrors, carries, desks, place)?;
        combine_visits(program, desks, &visits);
    }
    list_desks(alloc, graph, mirrors, desks)
}
