//! What one worker sums.
ghost use Rattle.std.specs.Prelude.{◌≡◌, ◌+◌, ◌++◌, ◌∷◌, [], ◌<◌, cond, length, slice_index};
ghost use Rattle.std.specs.Prelude.{IfOk, OnOk};
ghost use Rattle.pg_edge_store.specs.Store.{places_around};
ghost use Rattle.pg_gather.specs.Partials.{IsReadable, has_replica, gathers_here};
ghost use Rattle.pg_gather.specs.Partials.{partial_sum as part_of, partial_sums as parts_of};

use crate::near::near_at;
use crate::sweep::{is_for_a_sweep, sweep_sums};
use pg_edge_store::EdgeStore;
use pg_graph::Graph;
use pg_law::{Steps, VertexProgram, laws_of};
use pg_mirrors::MirrorTable;
use std::alloc::{AllocError, Global};
use std::sync::ledger::Ledger;

/// The sum of the vertex of a replica over its gather edges of this store.
fn partial_sum<P: VertexProgram, L: Ledger>(
    alloc: Global,
    program: &P,
    graph: &Graph,
    store: &EdgeStore,
    mirrors: &MirrorTable,
    replica: u32,
    steps: &mut Steps<L>,
) -> Result<P::Acc, AllocError>
    requires readable { IsReadable (P.meaning program.now) graph.now store.now mirrors.now }
    requires replica { replica < length store.now.vertices }
    ensures sum { let p = P.meaning program.now in
        let u = slice_index store.now.vertices replica in
        IfOk result (λ acc. acc ≡ part_of p graph.now store.now mirrors.now u) }
    ensures counted { let p = P.meaning program.now in
        let u = slice_index store.now.vertices replica in OnOk result (steps.new ≡ steps.old +
        length (places_around graph.now store.now.numbers u p.gather_edges)) }
{
    laws_of(program);
    let dir = program.gather_edges();
    let centre = mirrors.datum(replica);
    let row = store.row(replica);
    let mut acc = program.empty(alloc)?;
    for place in row {
        let local = store.local(*place);
        let side = local.side(replica);
        if !dir.takes(side) {
            continue;
        }
        let near = near_at(program, graph, store, mirrors, side, centre, *place, local);
        let part = program.gather(alloc, near, steps)?;
        acc = program.sum(alloc, acc, &part)?;
    }
    Ok(acc)
}

/// Appends the sum of a vertex, if the vertex has a replica here.
fn push_sum<P: VertexProgram, L: Ledger>(
    alloc: Global,
    program: &P,
    graph: &Graph,
    store: &EdgeStore,
    mirrors: &MirrorTable,
    u: u32,
    sums: &mut Vec<(u32, P::Acc)>,
    steps: &mut Steps<L>,
) -> Result<(), AllocError>
    requires { IsReadable (P.meaning program.now) graph.now store.now mirrors.now }
    ensures sums { let p = P.meaning program.now in OnOk result (sums.new.items ≡ sums.old.items ++
        cond (has_replica mirrors.now u)
        ((u, part_of p graph.now store.now mirrors.now u) ∷ []) []) }
    ensures counted { let p = P.meaning program.now in OnOk result (steps.new ≡ steps.old +
        length (places_around graph.now store.now.numbers u p.gather_edges)) }
{
    let Some(replica) = mirrors.replica(u) else {
        return Ok(());
    };
    let sum = partial_sum(alloc, program, graph, store, mirrors, replica, steps)?;
    sums.push((u, sum))?;
    Ok(())
}

/// For each wanted vertex with a replica here, in order, the sum over its gather edges of this
/// store. `Err` is want of memory.
///
/// The other ends are read through the replicas, and the words are the store's. The counter rises
/// by the gathers made: by one for each gather edge of a wanted vertex on this store.
pub fn partial_sums<P: VertexProgram, L: Ledger>(
    alloc: Global,
    program: &P,
    graph: &Graph,
    store: &EdgeStore,
    mirrors: &MirrorTable,
    wanted: &[u32],
    steps: &mut Steps<L>,
) -> Result<Vec<(u32, P::Acc)>, AllocError>
    requires readable { IsReadable (P.meaning program.now) graph.now store.now mirrors.now }
    ensures sums { let p = P.meaning program.now in IfOk result (λ sums.
        sums.items ≡ parts_of p graph.now store.now mirrors.now wanted.now) }
    ensures counted { let p = P.meaning program.now in OnOk result (steps.new ≡ steps.old +
        gathers_here p graph.now store.now mirrors.now wanted.now) }
{
    if is_for_a_sweep(store, mirrors, wanted) {
        return sweep_sums(alloc, program, graph, store, mirrors, wanted, steps);
    }
    let room = wanted.len().min(mirrors.len() as usize);
    let mut sums = Vec::with_capacity(alloc, room)?;
    for u in wanted {
        push_sum(alloc, program, graph, store, mirrors, *u, &mut sums, steps)?;
    }
    Ok(sums)
}
