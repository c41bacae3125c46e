//! Loaders that each know of their own edges alone.
ghost use Rattle.std.specs.Prelude.{◌≡◌, ℕ, ◌+◌, ◌%◌, ◌<◌, ◌≤◌, length};
ghost use Rattle.pg_greedy.specs.Loaders.{oblivious};
ghost use Rattle.pg_greedy.specs.Drafts.{IsDraft, StandsAs};

use crate::draft::{Draft, place_edge};
use crate::table::GreedyTable;
use pg_graph::Graph;

/// Places the edges of one loader, which knows of no others. Those of the loaders below it stand.
pub fn place_alone(
    table: &mut GreedyTable<'_>,
    draft: &mut Draft,
    graph: &Graph,
    workers: u8,
    loaders: u8,
    loader: u8,
)
    requires some { 1 ≤ workers }
    requires loader { loader < loaders }
    requires graph { table.old.graph ≡ graph.now }
    requires workers { table.old.workers ≡ workers }
    requires draft { IsDraft (length graph.now.edges) workers
        draft.old.place.items draft.old.cases.items }
    requires before { (e : ℕ) → e < length graph.now.edges → e % loaders < loader →
        StandsAs (oblivious graph.now workers loaders)
        draft.old.place.items draft.old.cases.items e }
    ensures graph { table.new.graph ≡ graph.now }
    ensures workers { table.new.workers ≡ workers }
    ensures draft { IsDraft (length graph.now.edges) workers
        draft.new.place.items draft.new.cases.items }
    ensures stand { (e : ℕ) → e < length graph.now.edges → e % loaders < loader + 1 →
        StandsAs (oblivious graph.now workers loaders)
        draft.new.place.items draft.new.cases.items e }
{
    table.restart(loader % workers);
    let edges = graph.edges().len() as u32;
    let mut e = loader as u32;
    while e < edges {
        place_edge(table, draft, e);
        e += loaders as u32;
    }
}
