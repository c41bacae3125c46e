//! The path of four vertices, each of whose edges lies on a worker of its own.
ghost use Rattle.std.specs.Prelude.{◌<◌};
ghost use Rattle.pg_law.specs.Configuration.{IsFit};
ghost use Rattle.pg_cut.specs.Cut.{IsCutOf};

use crate::samples::{cut_by, path};
use pg_cut::Cut;
use pg_edge_store::EdgeStore;
use pg_gather::{merge_at_masters, partial_sums, shares_are_readable};
use pg_graph::Graph;
use pg_law::{State, Steps, VertexProgram};
use pg_mirrors::MirrorTable;
use pg_paths::Components;
use std::alloc::{AllocError, Global};
use std::marker::Brand;
use std::process::Abort;
use std::sync::ledger::Ledger;
use std::test::Fail;

/// What a worker of the cut sums.
fn sums_of<P: VertexProgram, L: Ledger>(
    alloc: Global,
    program: &P,
    graph: &Graph,
    cut: &Cut,
    worker: u8,
    state: &State,
    wanted: &[u32],
    steps: &mut Steps<L>,
) -> Result<Vec<(u32, P::Acc)>, AllocError>
    requires cut { IsCutOf graph.now cut.now }
    requires worker { worker < cut.now.workers }
    requires fit { IsFit (P.meaning program.now) graph.now state.now }
{
    shares_are_readable(program);
    let _ = graph.vertices();
    let words = state.edges.to_vec(alloc)?;
    let store = EdgeStore::of(alloc, graph, cut, worker, words.as_slice())?;
    let mirrors = MirrorTable::of(alloc, graph, cut, worker, state.values.as_slice())?;
    partial_sums(alloc, program, graph, &store, &mirrors, wanted, steps)
}

// Each vertex hears the ids of its neighbours over the edges of one worker alone. Vertex 3 isn't
// wanted, and 2 is wanted before 1.
#[test]
fn a_worker_sums_over_its_own_edges(rt: HostRuntime) -> Result<(), Fail> {
    let alloc = rt.alloc();
    let graph = path(alloc)?;
    let cut = cut_by(&rt, alloc, &graph, 3, &[0, 1, 2])?;
    let state = State::start(alloc, &Components, &graph)?;
    let wanted = [0, 2, 1];
    let rows: [(u8, &[(u32, u64)]); 3] = [
        (0, &[(0, 2), (1, 1)]),
        (1, &[(2, 2), (1, 3)]),
        (2, &[(2, 4)]),
    ];
    for (worker, sums) in rows {
        assert!(rt; worker < cut.workers());
        let mut steps = Steps::<Brand>::new();
        let program = &Components;
        let part = sums_of(
            alloc, program, &graph, &cut, worker, &state, &wanted, &mut steps,
        )?;
        assert_eq!(rt; part.as_slice(), sums, "worker {worker}");
    }
    Ok(())
}

// The lists are in no order, 7 is wanted by nobody, and 5 has no part.
#[test]
fn parts_are_merged_wherever_they_stand(rt: HostRuntime) -> Result<(), Fail> {
    let alloc = rt.alloc();
    let first = Vec::from_slice(alloc, &[(2, 8), (7, 1), (0, 9)])?;
    let second = Vec::from_slice(alloc, &[(0, 4), (2, 6)])?;
    let none = Vec::new(alloc);
    let mut parts = Vec::new(alloc);
    parts.push(first)?;
    parts.push(none)?;
    parts.push(second)?;
    let merged = merge_at_masters(alloc, &Components, &[0, 5, 2], parts)?;
    assert_eq!(rt;
        merged.as_slice(),
        [(0, 4), (5, u64::MAX), (2, 6)].as_slice()
    );
    Ok(())
}
