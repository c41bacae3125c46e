//! The vertices at the other ends of the edges around a vertex.
ghost use Rattle.std.specs.Prelude.{◌≡◌, ◌<◌, ◌++◌, true, [], length, map, slice_index, All, IfOk, OnOk};
ghost use Rattle.pg_graph.specs.Multigraph.{edges_at, IsMultigraph};
ghost use Rattle.pg_serial.specs.Neighbours.{end_sum, beside, AreNeighbours};
ghost use Rattle.pg_serial.specs.Sending.{other_end};

use pg_graph::Graph;
use std::alloc::{AllocError, Global};
use std::marker::Model;

/// The other end of each edge at each vertex, row by row in one list.
///
/// The edges at a vertex lie far apart, and so do their other ends. Who walks around many vertices
/// reads them here one behind the other. There may be no rows: then the edges tell.
#[derive(Drop)]
pub struct Neighbours {
    starts: Vec<usize>,
    ends: Vec<u32>,
}

impl Model for Neighbours {
    ghost use Rattle.pg_serial.specs.Neighbours.{Beside, beside};

    ghost Value = { Beside };

    ghost view = { λ n. beside n.starts.items n.ends.items };
}

/// The sum of the two ends of each edge: four bytes for an edge's twelve, from which one end tells
/// the other.
fn end_sums(alloc: Global, graph: &Graph) -> Result<Vec<u32>, AllocError>
    ensures { IfOk result (λ sums. sums.items ≡ map end_sum graph.now.edges) }
{
    let _ = graph.vertices();
    let edges = graph.edges();
    let mut sums = Vec::with_capacity(alloc, edges.len())?;
    for edge in edges {
        sums.push(edge.src + edge.dst)?;
    }
    Ok(sums)
}

/// Appends the row of a vertex.
fn push_row(graph: &Graph, sums: &[u32], v: u32, ends: &mut Vec<u32>) -> Result<(), AllocError>
    requires graph { IsMultigraph graph.now }
    requires sums { sums.now ≡ map end_sum graph.now.edges }
    requires v { v < length graph.now.ids }
    ensures { OnOk result (ends.new.items ≡
        ends.old.items ++ map (other_end graph.now v) (edges_at graph.now v)) }
{
    for e in graph.edges_of(v) {
        ends.push(sums[*e as usize] - v)?;
    }
    Ok(())
}

impl Neighbours {
    /// No rows. It takes no memory.
    pub fn none(alloc: Global) -> Neighbours
        ensures { result ≡ beside [] [] }
    {
        Neighbours {
            starts: Vec::new(alloc),
            ends: Vec::new(alloc),
        }
    }

    /// The rows of all vertices of a graph.
    pub fn of(alloc: Global, graph: &Graph) -> Result<Neighbours, AllocError>
        ensures { IfOk result (AreNeighbours graph.now) }
    {
        let count = graph.vertices();
        let sums = end_sums(alloc, graph)?;
        let mut starts = Vec::with_capacity(alloc, count as usize)?;
        let mut ends = Vec::with_capacity(alloc, 2 * sums.len())?;
        for v in 0..count {
            starts.push(ends.len())?;
            push_row(graph, sums.as_slice(), v, &mut ends)?;
        }
        Ok(Neighbours { starts, ends })
    }

    /// The other end of `e`, which is the edge at this place around `u`.
    #[inline(always)]
    pub fn other(&self, graph: &Graph, u: u32, at: usize, e: u32) -> u32
        requires rows { AreNeighbours graph.now self.now }
        requires at { at < length (edges_at graph.now u) }
        requires e { e ≡ slice_index (edges_at graph.now u) at }
        requires within { e < length graph.now.edges }
        ensures { result ≡ other_end graph.now u e }
    {
        if (u as usize) < self.starts.len() {
            self.ends[self.starts[u as usize] + at]
        } else {
            let edge = graph.edges()[e as usize];
            edge.end(edge.side(u).opposite())
        }
    }
}
