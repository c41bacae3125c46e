//! The vertices that are worth an attempt.
use crate::order::Order;
use pg_graph::Graph;
use std::alloc::{AllocError, Global};
use std::collections::VecDeque;

/// How many of those that have waited longest a draw chooses from. What waits together was
/// signalled together, so the data that its attempts touch are near in memory, and a vertex has
/// got most of its messages when its turn comes.
const NEAR: usize = 256;

/// Vertices that may be signalled, each once at most.
///
/// `listed` is indexed by vertices, and says which of them stand in `waiting`. No answer of a run
/// rests on it: a vertex that is missing is found as the signalled one of least rank.
#[derive(Drop)]
pub struct Worklist {
    waiting: VecDeque<u32>,
    listed: Vec<bool>,
}

impl Worklist {
    /// A list of no vertices.
    pub fn new(alloc: Global, graph: &Graph) -> Result<Worklist, AllocError> {
        let count = graph.vertices() as usize;
        Ok(Worklist {
            waiting: VecDeque::with_capacity(alloc, count)?,
            listed: vec![in alloc; false; count]?,
        })
    }

    /// Takes all vertices out.
    pub fn clear(&mut self) {
        self.waiting.clear();
        for listed in self.listed.iter_mut() {
            *listed = false;
        }
    }

    /// Whether no vertex stands there.
    pub fn is_empty(&self) -> bool {
        self.waiting.is_empty()
    }

    /// Puts a vertex in, unless it is there.
    pub fn put(&mut self, vertex: u32) -> Result<(), AllocError> {
        let place = vertex as usize;
        if place >= self.listed.len() {
            return Ok(());
        }
        if self.listed[place] {
            return Ok(());
        }
        self.listed[place] = true;
        self.waiting.push_back(vertex)?;
        Ok(())
    }

    /// Takes out one of the vertices that have waited longest, which is drawn.
    pub fn take(&mut self, order: &mut Order) -> Option<u32> {
        let near = self.waiting.len().min(NEAR);
        if near == 0 {
            return None;
        }
        let drawn = order.below(near as u32) as usize;
        let vertex = self.waiting.swap_remove_front(drawn)?;
        let place = vertex as usize;
        if place < self.listed.len() {
            self.listed[place] = false;
        }
        Some(vertex)
    }
}
