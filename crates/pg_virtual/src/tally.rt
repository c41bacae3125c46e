//! Over how many edges the executions of a run gather.
ghost use Rattle.std.specs.Prelude.{◌≡◌, ℕ, ◌+◌, ◌*◌, ◌^◌, ◌<◌, ◌≤◌, ◌||◌, ◌==◌, false, length, All};
ghost use Rattle.std.specs.Prelude.{slice_index_or, sum_by, filter, IfOk, if◌then◌else◌};
ghost use Rattle.std.specs.List.{list_any};
ghost use Rattle.pg_graph.specs.Multigraph.{vertices};
ghost use Rattle.pg_law.specs.Round.{edges_over};

use pg_graph::{Dir, Graph};
use pg_law::JournalEntry;
use pg_serial::{degree_over, noted_gathers};
use std::alloc::{AllocError, Global};

/// The gathers of all entries so far, and the vertices that have one. `seen` is indexed by vertices.
#[derive(Drop)]
pub struct Tally {
    pub seen: Vec<bool>,
    pub all: u64,
}

impl Tally {
    /// There is no entry yet.
    pub fn new(alloc: Global, graph: &Graph) -> Result<Tally, AllocError>
        ensures len { IfOk result (λ tally. length tally.seen.items ≡ length graph.now.ids) }
        ensures seen { IfOk result (λ tally. (v : ℕ) → slice_index_or tally.seen.items v false
            ≡ false) }
        ensures all { IfOk result (λ tally. tally.all ≡ 0) }
    {
        Ok(Tally {
            seen: vec![in alloc; false; graph.vertices() as usize]?,
            all: 0,
        })
    }

    /// There are these entries more.
    pub fn count(&mut self, graph: &Graph, dir: Dir, entries: &[JournalEntry])
        requires within { All (λ entry. entry.vertex < length graph.now.ids) entries.now }
        requires len { length self.old.seen.items ≡ length graph.now.ids }
        requires few { self.old.all + 2 ^ 24 * length entries.now < 2 ^ 64 }
        ensures len { length self.new.seen.items ≡ length graph.now.ids }
        ensures seen { (v : ℕ) → v < length graph.now.ids
            → slice_index_or self.new.seen.items v false
            ≡ (slice_index_or self.old.seen.items v false
            || list_any (λ entry. entry.vertex == v) entries.now) }
        ensures all { self.new.all ≡ self.old.all
            + sum_by (λ entry. length (edges_over dir graph.now entry.vertex)) entries.now }
    {
        for entry in entries {
            self.all += degree_over(graph, dir, entry.vertex);
            self.seen[entry.vertex as usize] = true;
        }
    }

    /// The gathers of a run. Where gathers are kept, each vertex counts once.
    pub fn gathers(&self, graph: &Graph, dir: Dir, kept: bool) -> u64
        requires len { length self.now.seen.items ≡ length graph.now.ids }
        ensures { result ≡ (if kept then sum_by (λ v. length (edges_over dir graph.now v))
            (filter (λ v. slice_index_or self.now.seen.items v false) (vertices graph.now))
            else self.now.all) }
    {
        if kept {
            noted_gathers(graph, dir, self.seen.as_slice())
        } else {
            self.all
        }
    }
}
