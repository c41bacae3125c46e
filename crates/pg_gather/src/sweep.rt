//! The sums of many vertices at once: the edges are gone over in the order in which they lie.
ghost use Rattle.std.specs.Prelude.{◌≡◌, ◌≢◌, ℕ, ◌+◌, ◌<◌, cond, length, is_some};
ghost use Rattle.std.specs.Prelude.{AllPairs, IfOk, IsTrue, OnOk};
ghost use Rattle.std.specs.List.Sorted.{IsStrictlyIncreasing};
ghost use Rattle.pg_graph.specs.Multigraph.{end_of, takes};
ghost use Rattle.pg_graph.specs.declared.edge.Side.TheVariants.{Source as AtSource};
ghost use Rattle.pg_graph.specs.declared.edge.Side.TheVariants.{Target as AtTarget};
ghost use Rattle.pg_law.specs.Laws.{IsNear};
ghost use Rattle.pg_edge_store.specs.Store.{local_at};
ghost use Rattle.pg_gather.specs.Partials.{IsReadable, near_at, gathers_here};
ghost use Rattle.pg_gather.specs.Partials.{partial_sums as parts_of};
ghost use Rattle.pg_gather.specs.Desks.{AreDesks, HaveSums, desk_at, end_sum, end_count};

use crate::desk::{Desk, add_part, blank_desks, open_desks, take_sums};
use pg_edge_store::EdgeStore;
use pg_graph::{Edge, Graph, Side};
use pg_law::{Near, Steps, VertexProgram, laws_of};
use pg_mirrors::MirrorTable;
use std::alloc::{AllocError, Global};
use std::sync::ledger::Ledger;

/// The edge at a place, as its end at this side sees it, with the data that lie at the desks.
fn near_at_desks<P: VertexProgram>(
    _program: &P,
    graph: &Graph,
    store: &EdgeStore,
    _mirrors: &MirrorTable,
    desks: &[Desk<P::Acc>],
    side: Side,
    place: u32,
    local: Edge,
) -> Near
    requires readable { IsReadable (P.meaning _program.now) graph.now store.now _mirrors.now }
    requires desks { AreDesks (P.meaning _program.now) _mirrors.now desks.now }
    requires place { place < length store.now.numbers }
    requires local { local ≡ local_at store.now place }
    ensures value { result ≡ near_at graph.now store.now _mirrors.now side place }
    ensures near { IsNear (P.meaning _program.now) result }
{
    Near {
        side,
        edge: graph.edge_info(store.edge(place)),
        word: store.word(place),
        centre: desks[local.end(side) as usize].datum,
        other: desks[local.end(side.opposite()) as usize].datum,
    }
}

/// The sum at one end of the edge at a place goes on over it, if there is one and the edge is among
/// those that the end gathers over.
fn add_end<P: VertexProgram, L: Ledger>(
    alloc: Global,
    program: &P,
    graph: &Graph,
    store: &EdgeStore,
    mirrors: &MirrorTable,
    side: Side,
    place: u32,
    desks: &mut [Desk<P::Acc>],
    steps: &mut Steps<L>,
) -> Result<(), AllocError>
    requires readable { IsReadable (P.meaning program.now) graph.now store.now mirrors.now }
    requires place { place < length store.now.numbers }
    requires desks { AreDesks (P.meaning program.now) mirrors.now desks.old }
    ensures desks { OnOk result (AreDesks (P.meaning program.now) mirrors.now desks.new) }
    ensures sums { let p = P.meaning program.now in OnOk result ((r : ℕ)
        → r < length mirrors.now.vertices → (desk_at desks.new r).sum ≡
        end_sum p graph.now store.now mirrors.now side place r (desk_at desks.old r).sum) }
    ensures counted { let p = P.meaning program.now in
        let r = end_of side (local_at store.now place) in OnOk result (steps.new ≡ steps.old +
        cond (is_some (desk_at desks.old r).sum) (cond (takes p.gather_edges side) 1 0) 0) }
{
    laws_of(program);
    if !program.gather_edges().takes(side) {
        return Ok(());
    }
    let local = store.local(place);
    let replica = local.end(side) as usize;
    if desks[replica].sum.is_none() {
        return Ok(());
    }
    let near = near_at_desks(program, graph, store, mirrors, desks, side, place, local);
    let part = program.gather(alloc, near, steps)?;
    add_part(alloc, program, desks, replica, &part)?;
    Ok(())
}

/// The sums at both ends of the edge at a place go on over it.
fn add_edge<P: VertexProgram, L: Ledger>(
    alloc: Global,
    program: &P,
    graph: &Graph,
    store: &EdgeStore,
    mirrors: &MirrorTable,
    _wanted: &[u32],
    place: u32,
    desks: &mut [Desk<P::Acc>],
    steps: &mut Steps<L>,
) -> Result<(), AllocError>
    requires readable { IsReadable (P.meaning program.now) graph.now store.now mirrors.now }
    requires place { place < length store.now.numbers }
    requires desks { AreDesks (P.meaning program.now) mirrors.now desks.old }
    requires sums { HaveSums (P.meaning program.now) graph.now store.now mirrors.now _wanted.now
        place desks.old }
    ensures desks { OnOk result (AreDesks (P.meaning program.now) mirrors.now desks.new) }
    ensures sums { let p = P.meaning program.now in OnOk result (HaveSums p graph.now store.now
        mirrors.now _wanted.now (place + 1) desks.new) }
    ensures counted { let count = end_count (P.meaning program.now) graph.now store.now mirrors.now
        _wanted.now in OnOk result (steps.new ≡ steps.old +
        (count AtSource place + count AtTarget place)) }
{
    let _ = graph.vertices();
    add_end(
        alloc,
        program,
        graph,
        store,
        mirrors,
        Side::Source,
        place,
        desks,
        steps,
    )?;
    add_end(
        alloc,
        program,
        graph,
        store,
        mirrors,
        Side::Target,
        place,
        desks,
        steps,
    )?;
    Ok(())
}

/// The sums at the desks go on over all edges.
fn add_edges<P: VertexProgram, L: Ledger>(
    alloc: Global,
    program: &P,
    graph: &Graph,
    store: &EdgeStore,
    mirrors: &MirrorTable,
    wanted: &[u32],
    desks: &mut [Desk<P::Acc>],
    steps: &mut Steps<L>,
) -> Result<(), AllocError>
    requires readable { IsReadable (P.meaning program.now) graph.now store.now mirrors.now }
    requires apart { AllPairs (λ a b. a ≢ b) wanted.now }
    requires desks { AreDesks (P.meaning program.now) mirrors.now desks.old }
    requires sums { HaveSums (P.meaning program.now) graph.now store.now mirrors.now wanted.now
        0 desks.old }
    ensures desks { OnOk result (AreDesks (P.meaning program.now) mirrors.now desks.new) }
    ensures sums { let p = P.meaning program.now in OnOk result (HaveSums p graph.now store.now
        mirrors.now wanted.now (length store.now.numbers) desks.new) }
    ensures counted { let p = P.meaning program.now in OnOk result (steps.new ≡ steps.old +
        gathers_here p graph.now store.now mirrors.now wanted.now) }
{
    let _ = graph.vertices();
    for place in 0..store.len() {
        add_edge(
            alloc, program, graph, store, mirrors, wanted, place, desks, steps,
        )?;
    }
    Ok(())
}

/// Whether each of these numbers is greater than the one before.
fn ascends(numbers: &[u32]) -> bool
    ensures { IsTrue result → IsStrictlyIncreasing numbers.now }
{
    for i in 1..numbers.len() {
        if numbers[i - 1] >= numbers[i] {
            return false;
        }
    }
    true
}

/// Whether the wanted vertices have more than half of the ends of the edges here.
fn is_dense(store: &EdgeStore, mirrors: &MirrorTable, wanted: &[u32]) -> bool
    requires { store.now.vertices ≡ mirrors.now.vertices }
{
    let edges = store.len() as usize;
    let mut ends = 0usize;
    for u in wanted {
        if let Some(replica) = mirrors.replica(*u) {
            ends = ends.saturating_add(store.row(replica).len());
            if ends > edges {
                return true;
            }
        }
    }
    false
}

/// Whether the sums of the wanted vertices are found faster over all edges in order than by rows.
///
/// Those that are wanted twice have their sums row by row.
pub fn is_for_a_sweep(store: &EdgeStore, mirrors: &MirrorTable, wanted: &[u32]) -> bool
    requires { store.now.vertices ≡ mirrors.now.vertices }
    ensures { IsTrue result → AllPairs (λ a b. a ≢ b) wanted.now }
{
    is_dense(store, mirrors, wanted) && ascends(wanted)
}

/// The sums of the wanted vertices, which are distinct, over all edges in order.
pub fn sweep_sums<P: VertexProgram, L: Ledger>(
    alloc: Global,
    program: &P,
    graph: &Graph,
    store: &EdgeStore,
    mirrors: &MirrorTable,
    wanted: &[u32],
    steps: &mut Steps<L>,
) -> Result<Vec<(u32, P::Acc)>, AllocError>
    requires readable { IsReadable (P.meaning program.now) graph.now store.now mirrors.now }
    requires apart { AllPairs (λ a b. a ≢ b) wanted.now }
    ensures sums { let p = P.meaning program.now in IfOk result (λ sums.
        sums.items ≡ parts_of p graph.now store.now mirrors.now wanted.now) }
    ensures counted { let p = P.meaning program.now in OnOk result (steps.new ≡ steps.old +
        gathers_here p graph.now store.now mirrors.now wanted.now) }
{
    let mut desks = blank_desks(alloc, program, mirrors)?;
    let all = desks.as_mut_slice();
    open_desks(alloc, program, graph, store, mirrors, wanted, all)?;
    add_edges(alloc, program, graph, store, mirrors, wanted, all, steps)?;
    take_sums(alloc, program, graph, store, mirrors, wanted, all)
}
