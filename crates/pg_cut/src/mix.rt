//! Cuts at random.
ghost use Rattle.std.specs.Prelude.{◌≡◌, ◌<◌, ◌≤◌, ◌%◌, IfOk};
ghost use Rattle.pg_graph.specs.Multigraph.{IsEdgeInfo};
ghost use Rattle.pg_cut.specs.Cut.{IsCutOf, cut_of};
ghost use Rattle.pg_cut.specs.Mix.{mixed as mixed_of, random_place as random_place_of};
ghost use Rattle.pg_cut.specs.Mix.{random_places};

use crate::cut::Cut;
use pg_graph::{EdgeInfo, Graph};
use std::alloc::{AllocError, Global};

/// An odd number near 2^64 over the golden ratio.
const MULTIPLIER: u64 = 0x9E37_79B9_7F4A_7C15;

#[tactic(auto, unfolding(crate::specs::Mix::mixed))]
fn mixed(x: u64) -> u64
    ensures { result ≡ mixed_of x }
{
    let product = x.wrapping_mul(MULTIPLIER);
    product ^ (product >> 32)
}

/// What is left of `x` when it is shared out to the workers evenly. A power of two divides by a
/// shift, which is many times faster than a division.
fn remainder(x: u64, workers: u8) -> u8
    requires { 1 ≤ workers }
    ensures { result ≡ x % workers }
{
    let power = 1u64 << workers.trailing_zeros();
    if power == workers as u64 {
        (x % power) as u8
    } else {
        (x % workers as u64) as u8
    }
}

/// The worker of an edge.
fn random_place(workers: u8, seed: u64, edge: EdgeInfo) -> u8
    requires workers { 1 ≤ workers }
    requires edge { IsEdgeInfo edge }
    ensures value { result ≡ random_place_of workers seed edge }
    ensures within { result < workers }
{
    let ends = edge.src.id as u64 * 4_294_967_296 + edge.dst.id as u64;
    remainder(mixed(mixed(ends ^ seed)), workers)
}

/// A cut that gives each edge the worker that its ids and the seed mix to.
pub fn random(alloc: Global, graph: &Graph, workers: u8, seed: u64) -> Result<Cut, AllocError>
    requires some { 1 ≤ workers }
    requires few { workers ≤ 64 }
    ensures value { IfOk result (λ cut. cut ≡
        cut_of graph.now workers (random_places graph.now workers seed)) }
    ensures cut { IfOk result (λ cut. IsCutOf graph.now cut) }
{
    let mut place = Vec::with_capacity(alloc, graph.edges().len())?;
    for e in 0..graph.edges().len() as u32 {
        place.push(random_place(workers, seed, graph.edge_info(e)))?;
    }
    Cut::of(alloc, graph, workers, place)
}
