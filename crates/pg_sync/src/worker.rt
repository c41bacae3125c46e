//! One worker: what it owns in each phase, and what it does there.
ghost use Rattle.std.specs.Prelude.{◌≡◌, length, All, IfOk, OnOk, IsSome};
ghost use Rattle.pg_law.specs.Carries.{AreCarries};
ghost use Rattle.pg_gather.specs.Partials.{IsReadable};
ghost use Rattle.pg_apply_scatter.specs.Sending.{IsSentIn, words_after, sent_from};
ghost use Rattle.pg_apply_scatter.specs.Delivering.{StandsFor};
ghost use Rattle.pg_sync.specs.Phases.{HasGathered};

use pg_apply_scatter::{Sent, scatter_signals, scatter_worker};
use pg_edge_store::EdgeStore;
use pg_gather::partial_sums;
use pg_graph::Graph;
use pg_law::{Steps, VertexProgram};
use pg_mirrors::MirrorTable;
use std::alloc::{AllocError, Global};
use std::sync::ledger::Ledger;

/// What a worker has while it gathers: its counter, and what it summed last. No sums are want of
/// memory.
pub type Seat<A, L> = (Option<Steps<L>>, Option<Vec<(u32, A)>>);

/// What a worker owns while it scatters: its edges, and what it sent last.
#[derive(Drop)]
pub struct Scattering<A> {
    pub store: EdgeStore,
    pub sent: Result<Vec<Sent<A>>, AllocError>,
}

/// A worker sums over its own edges for the wanted vertices, and counts each gather.
pub fn gather<P: VertexProgram, L: Ledger>(
    alloc: Global,
    program: &P,
    graph: &Graph,
    store: &EdgeStore,
    mirrors: &MirrorTable,
    wanted: &[u32],
    seat: &mut Seat<P::Acc, L>,
)
    requires steps { IsSome seat.old.0 }
    requires readable { IsReadable (P.meaning program.now) graph.now store.now mirrors.now }
    ensures { HasGathered (P.meaning program.now) graph.now store.now mirrors.now wanted.now
        seat.old seat.new }
{
    if let Some(steps) = &mut seat.0 {
        seat.1 = partial_sums(alloc, program, graph, store, mirrors, wanted, steps).ok();
    }
}

/// What a worker sends over its own edges, with its deltas, or signals alone that deliver the same.
fn scatter_over<P: VertexProgram>(
    alloc: Global,
    program: &P,
    graph: &Graph,
    store: &mut EdgeStore,
    mirrors: &MirrorTable,
    carries: &[Option<P::Carry>],
    with_deltas: bool,
) -> Result<Vec<Sent<P::Acc>>, AllocError>
    requires readable { IsReadable (P.meaning program.now) graph.now store.old mirrors.now }
    requires carries { AreCarries (P.meaning program.now) graph.now carries.now }
    ensures words { let p = P.meaning program.now in OnOk result (store.new ≡ record store.old {
      words = words_after p graph.now mirrors.now carries.now store.old;
    }) }
    ensures sent { let p = P.meaning program.now in IfOk result (λ sent. StandsFor p with_deltas
        sent.items (sent_from p graph.now mirrors.now carries.now store.old)) }
    ensures own { IfOk result (λ sent.
        All (IsSentIn (P.meaning program.now) (length graph.now.ids)) sent.items) }
{
    if with_deltas {
        scatter_worker(alloc, program, graph, store, mirrors, carries)
    } else {
        scatter_signals(alloc, program, graph, store, mirrors, carries)
    }
}

impl<A> Scattering<A> {
    ghost use Rattle.pg_law.specs.Carries.{AreCarries};
    ghost use Rattle.pg_gather.specs.Partials.{IsReadable};
    ghost use Rattle.pg_sync.specs.Phases.{HasScattered};

    /// Scatters over the worker's own edges for the vertices with a carry. Where no gather is kept
    /// the signals alone are listed, since nobody asks for a delta.
    pub fn scatter<P: VertexProgram<Acc = A>>(
        &mut self,
        alloc: Global,
        program: &P,
        graph: &Graph,
        mirrors: &MirrorTable,
        carries: &[Option<P::Carry>],
        with_deltas: bool,
    )
        requires readable { IsReadable (P.meaning program.now) graph.now self.old.store
            mirrors.now }
        requires carries { AreCarries (P.meaning program.now) graph.now carries.now }
        ensures { HasScattered (P.meaning program.now) graph.now mirrors.now carries.now
            with_deltas self.old self.new }
    {
        let store = &mut self.store;
        self.sent = scatter_over(alloc, program, graph, store, mirrors, carries, with_deltas);
    }
}
