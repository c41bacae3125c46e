//! The desks at which a worker sums while it goes over its edges in order.
ghost use Rattle.std.specs.Prelude.{◌≡◌, ◌≢◌, ◌<◌, None, Some, length, slice_set, map};
ghost use Rattle.std.specs.Prelude.{AllPairs, IfOk, IfSome, OnOk};
ghost use Rattle.std.specs.List.{range_with_len};
ghost use Rattle.std.specs.List.Sorted.{IsStrictlyIncreasing};
ghost use Rattle.std.specs.Option.{option_map};
ghost use Rattle.pg_mirrors.specs.Mirrors.{datum_at};
ghost use Rattle.pg_gather.specs.Partials.{partial_sums as parts_of};
ghost use Rattle.pg_gather.specs.Desks.{desk, desk_at, AreDesks, HaveSums};

use pg_edge_store::EdgeStore;
use pg_graph::Graph;
use pg_law::{Datum, VertexProgram, laws_of};
use pg_mirrors::MirrorTable;
use std::alloc::{AllocError, Global};

/// What a worker keeps for a replica while it goes over its edges.
///
/// `sum` is what the vertex gathered so far, if it is wanted. The datum of the replica lies beside
/// it, since an edge needs that for the sum at its other end.
#[derive(Drop)]
pub struct Desk<A> {
    pub datum: Datum,
    pub sum: Option<A>,
}

/// A desk without a sum for each replica.
pub fn blank_desks<P: VertexProgram>(
    alloc: Global,
    _program: &P,
    mirrors: &MirrorTable,
) -> Result<Vec<Desk<P::Acc>>, AllocError>
    ensures { IfOk result (λ desks. desks.items ≡
        map (λ r. desk (datum_at mirrors.now.values r) None)
        (range_with_len 0 (length mirrors.now.vertices))) }
{
    let mut desks = Vec::with_capacity(alloc, mirrors.len() as usize)?;
    for replica in 0..mirrors.len() {
        desks.push(Desk {
            datum: mirrors.datum(replica),
            sum: None,
        })?;
    }
    Ok(desks)
}

/// Lays an empty sum at the desk of a replica.
fn open_desk<P: VertexProgram>(
    alloc: Global,
    program: &P,
    desks: &mut [Desk<P::Acc>],
    replica: usize,
) -> Result<(), AllocError>
    requires { replica < length desks.old }
    ensures { let p = P.meaning program.now in OnOk result (desks.new ≡
        slice_set desks.old replica (desk (desk_at desks.old replica).datum (Some p.empty))) }
{
    desks[replica].sum = Some(program.empty(alloc)?);
    Ok(())
}

/// Lays an empty sum at the desk of each wanted vertex.
pub fn open_desks<P: VertexProgram>(
    alloc: Global,
    program: &P,
    _graph: &Graph,
    _store: &EdgeStore,
    mirrors: &MirrorTable,
    wanted: &[u32],
    desks: &mut [Desk<P::Acc>],
) -> Result<(), AllocError>
    requires ascending { IsStrictlyIncreasing mirrors.now.vertices }
    requires blank { desks.old ≡ map (λ r. desk (datum_at mirrors.now.values r) None)
        (range_with_len 0 (length mirrors.now.vertices)) }
    ensures desks { let p = P.meaning program.now in
        OnOk result (AreDesks p mirrors.now desks.new) }
    ensures sums { let p = P.meaning program.now in OnOk result
        (HaveSums p _graph.now _store.now mirrors.now wanted.now 0 desks.new) }
{
    laws_of(program);
    for u in wanted {
        let Some(replica) = mirrors.replica(*u) else {
            continue;
        };
        open_desk(alloc, program, desks, replica as usize)?;
    }
    Ok(())
}

/// Adds a part to the sum at the desk of a replica, if there is one.
pub fn add_part<P: VertexProgram>(
    alloc: Global,
    program: &P,
    desks: &mut [Desk<P::Acc>],
    replica: usize,
    part: &P::Acc,
) -> Result<(), AllocError>
    requires replica { replica < length desks.old }
    requires own { IfSome (desk_at desks.old replica).sum
        (λ sum. (P.meaning program.now).IsAcc sum) }
    requires part { (P.meaning program.now).IsAcc part.now }
    ensures { let p = P.meaning program.now in let old = desk_at desks.old replica in
        OnOk result (desks.new ≡ slice_set desks.old replica
        (desk old.datum (option_map (λ sum. p.sum sum part.now) old.sum))) }
{
    if let Some(sum) = desks[replica].sum.take() {
        desks[replica].sum = Some(program.sum(alloc, sum, part)?);
    }
    Ok(())
}

/// The sums at the desks of the wanted vertices, in order, once all edges are gone over.
pub fn take_sums<P: VertexProgram>(
    alloc: Global,
    _program: &P,
    _graph: &Graph,
    _store: &EdgeStore,
    mirrors: &MirrorTable,
    wanted: &[u32],
    desks: &mut [Desk<P::Acc>],
) -> Result<Vec<(u32, P::Acc)>, AllocError>
    requires apart { AllPairs (λ a b. a ≢ b) wanted.now }
    requires desks { AreDesks (P.meaning _program.now) mirrors.now desks.old }
    requires sums { HaveSums (P.meaning _program.now) _graph.now _store.now mirrors.now wanted.now
        (length _store.now.numbers) desks.old }
    ensures { let p = P.meaning _program.now in IfOk result (λ sums.
        sums.items ≡ parts_of p _graph.now _store.now mirrors.now wanted.now) }
{
    let mut sums = Vec::with_capacity(alloc, wanted.len().min(mirrors.len() as usize))?;
    for u in wanted {
        let Some(replica) = mirrors.replica(*u) else {
            continue;
        };
        let Some(sum) = desks[replica as usize].sum.take() else {
            continue;
        };
        sums.push((*u, sum))?;
    }
    Ok(sums)
}
