//! The path of four vertices on three workers, a lone vertex, the mix, and keys in blocks.
ghost use Rattle.std.specs.Prelude.{◌≡◌, IfOk};
ghost use Rattle.pg_cut.specs.Cut.{IsCutOf};

use crate::samples::{cut_by, path};
use pg_base::Limits;
use pg_cut::{Cut, Keys, random};
use pg_graph::{Graph, GraphBuilder};
use pg_law::Steps;
use std::alloc::Global;
use std::marker::Brand;
use std::process::Abort;
use std::test::Fail;

/// A vertex has this span and this master.
fn is_held(rt: &impl Abort, graph: &Graph, cut: &Cut, v: u32, span: u64, master: u8)
    requires { IsCutOf graph.now cut.now }
{
    assert!(rt; v < graph.vertices());
    assert_eq!(rt; cut.span(v), span, "vertex {v}");
    assert_eq!(rt; cut.master(v), master, "vertex {v}");
}

#[test]
fn spans_masters_and_replicas_follow_from_the_places(rt: HostRuntime) -> Result<(), Fail> {
    let graph = path(rt.alloc())?;
    let cut = cut_by(&rt, rt.alloc(), &graph, 3, &[0, 1, 2])?;
    assert_eq!(rt; (cut.workers(), cut.replicas()), (3, 6));
    is_held(&rt, &graph, &cut, 0, 0b001, 0);
    is_held(&rt, &graph, &cut, 1, 0b011, 1);
    is_held(&rt, &graph, &cut, 2, 0b110, 1);
    is_held(&rt, &graph, &cut, 3, 0b100, 2);
    Ok(())
}

/// A worker has these edges and vertices.
fn has(rt: &impl Abort, cut: &Cut, worker: u8, edges: &[u32], vertices: &[u32]) {
    assert!(rt; worker < cut.workers());
    assert_eq!(rt; cut.edges_on(worker), edges, "worker {worker}");
    assert_eq!(rt; cut.vertices_on(worker), vertices, "worker {worker}");
    assert_eq!(rt; cut.load(worker) as usize, edges.len(), "worker {worker}");
    assert_eq!(rt;
        cut.held(worker) as usize,
        vertices.len(),
        "worker {worker}"
    );
}

#[test]
fn each_worker_has_its_edges_and_vertices(rt: HostRuntime) -> Result<(), Fail> {
    let graph = path(rt.alloc())?;
    let cut = cut_by(&rt, rt.alloc(), &graph, 3, &[1, 0, 1])?;
    has(&rt, &cut, 0, &[1], &[1, 2]);
    has(&rt, &cut, 1, &[0, 2], &[0, 1, 2, 3]);
    has(&rt, &cut, 2, &[], &[]);
    Ok(())
}

#[test]
fn a_lone_vertex_is_on_the_worker_of_its_number(rt: HostRuntime) -> Result<(), Fail> {
    let mut builder = GraphBuilder::new(rt.alloc(), Limits::standard())?;
    builder.vertex(7)?;
    builder.vertex(8)?;
    builder.vertex(9)?;
    let graph = builder.finish()?;
    let cut = cut_by(&rt, rt.alloc(), &graph, 2, &[])?;
    assert_eq!(rt; cut.replicas(), 3);
    is_held(&rt, &graph, &cut, 0, 0b01, 0);
    is_held(&rt, &graph, &cut, 1, 0b10, 1);
    is_held(&rt, &graph, &cut, 2, 0b01, 0);
    Ok(())
}

/// The random cut of the path places its edges so.
fn mixes_to(
    rt: &impl Abort,
    alloc: Global,
    workers: u8,
    seed: u64,
    places: &[u8],
) -> Result<(), Fail> {
    let graph = path(alloc)?;
    assert!(rt; workers >= 1);
    assert!(rt; workers <= 64);
    let cut = random(alloc, &graph, workers, seed)?;
    for e in 0..places.len() {
        assert!(rt; e < graph.edges().len());
        assert_eq!(rt; cut.place(e as u32), places[e], "edge {e} of seed {seed}");
    }
    Ok(())
}

// The places were computed by another program from the formula of the mix.
#[test]
fn ids_and_seed_are_mixed(rt: HostRuntime) -> Result<(), Fail> {
    mixes_to(&rt, rt.alloc(), 5, 9, &[4, 1, 2])?;
    mixes_to(&rt, rt.alloc(), 64, 77, &[41, 31, 32])?;
    mixes_to(&rt, rt.alloc(), 3, 4_294_967_298, &[0, 0, 2])
}

/// Keys whose order is tested.
fn keys_of(rt: &impl Abort, alloc: Global, numbers: &[u32]) -> Result<Keys, Fail>
    ensures { IfOk result (λ keys. keys ≡ numbers.now) }
{
    for i in 1..numbers.len() {
        assert!(rt; numbers[i - 1] < numbers[i]);
    }
    assert!(rt; numbers.len() < 1000);
    Ok(Keys::of(alloc, Vec::from_slice(alloc, numbers)?)?)
}

/// Asserts that of the numbers from one to another exactly the keys are found, where they stand.
fn finds_the_keys(rt: &impl Abort, keys: &Keys, numbers: &[u32], from: u32, to: u32)
    requires { keys.now ≡ numbers.now }
{
    for x in from..to {
        let place = keys.place(x);
        assert_eq!(rt; place.is_some(), numbers.contains(&x), "number {x}");
        if let Some(i) = place {
            assert_eq!(rt; numbers[i as usize], x, "number {x}");
        }
        let mut steps = Steps::<Brand>::new();
        assert_eq!(rt; keys.find(x, &mut steps), place, "number {x}");
    }
}

/// Of all numbers up to one, and of the greatest, exactly these keys are found.
fn finds(rt: &impl Abort, alloc: Global, numbers: &[u32], to: u32) -> Result<(), Fail> {
    let top = (1 << 22) - 1;
    let keys = keys_of(rt, alloc, numbers)?;
    finds_the_keys(rt, &keys, numbers, 0, to);
    finds_the_keys(rt, &keys, numbers, top - 200, top + 200);
    finds_the_keys(rt, &keys, numbers, u32::MAX - 200, u32::MAX);
    Ok(())
}

#[test]
fn every_key_is_found_and_no_other(rt: HostRuntime) -> Result<(), Fail> {
    let alloc = rt.alloc();
    let top = (1 << 22) - 1;
    finds(&rt, alloc, &[], 200)?;
    finds(&rt, alloc, &[0], 200)?;
    finds(&rt, alloc, &[63], 200)?;
    finds(&rt, alloc, &[3, 5, 70, 300, 301, 999], 1200)?;
    finds(&rt, alloc, &[0, 63, 64, 127, 128, 191, 192, 320], 500)?;
    finds(&rt, alloc, &[7, top - 64, top - 63, top], 200)
}

/// All numbers from one to another are keys, and no other.
fn finds_all_between(rt: &impl Abort, alloc: Global, from: u32, to: u32) -> Result<(), Fail> {
    let mut numbers = Vec::new(alloc);
    for x in from..to {
        numbers.push(x)?;
    }
    let keys = keys_of(rt, alloc, numbers.as_slice())?;
    finds_the_keys(rt, &keys, numbers.as_slice(), 0, 400);
    Ok(())
}

#[test]
fn keys_of_full_blocks_are_found(rt: HostRuntime) -> Result<(), Fail> {
    let alloc = rt.alloc();
    finds_all_between(&rt, alloc, 0, 64)?;
    finds_all_between(&rt, alloc, 64, 128)?;
    finds_all_between(&rt, alloc, 60, 200)?;
    finds_all_between(&rt, alloc, 1, 192)?;
    finds_all_between(&rt, alloc, 128, 193)
}
