//! Loaders that merge what they know after each batch.
ghost use Rattle.std.specs.Prelude.{◌≡◌, ℕ, ◌+◌, ◌*◌, ◌%◌, ◌<◌, ◌≤◌, length, slice_index};
ghost use Rattle.std.specs.List.{range_with_len};
ghost use Rattle.pg_greedy.specs.Loaders.{coordinated, coordinated_places, batch_start};
ghost use Rattle.pg_greedy.specs.Loaders.{table_after, table_at};
ghost use Rattle.pg_greedy.specs.Drafts.{IsDraft, StandsAs};

use crate::draft::{Draft, place_edge};
use crate::table::GreedyTable;
use pg_graph::Graph;

/// Places the edges of one loader from `e` on up to the end of the batch, and then takes them back
/// from the table, so that the next loader of the batch doesn't see them.
///
/// It calls itself for the next edge, so the calls are as deep as the loader has edges in a batch.
fn place_apart(
    table: &mut GreedyTable<'_>,
    draft: &mut Draft,
    graph: &Graph,
    loaders: u8,
    e: u32,
    end: u32,
)
    requires some { 1 ≤ loaders }
    requires end { end ≤ length graph.now.edges }
    requires batch { e < end → end ≤ batch_start loaders e + 1024 * loaders }
    requires table { e < end → table.old ≡
        table_at graph.now table.old.workers loaders (batch_start loaders e)
        (coordinated_places graph.now table.old.workers loaders) e }
    requires draft { IsDraft (length graph.now.edges) table.old.workers
        draft.old.place.items draft.old.cases.items }
    ensures table { table.new ≡ table.old }
    ensures draft { IsDraft (length graph.now.edges) table.old.workers
        draft.new.place.items draft.new.cases.items }
    ensures placed { (x : ℕ) → e ≤ x → x < end → x % loaders ≡ e % loaders →
        StandsAs (coordinated graph.now table.old.workers loaders)
        draft.new.place.items draft.new.cases.items x }
    ensures still { (x : ℕ) →
        StandsAs (coordinated graph.now table.old.workers loaders)
        draft.old.place.items draft.old.cases.items x →
        StandsAs (coordinated graph.now table.old.workers loaders)
        draft.new.place.items draft.new.cases.items x }
{
    if e < end {
        let edge = graph.edges()[e as usize];
        let us = table.held(edge.src);
        let vs = table.held(edge.dst);
        place_edge(table, draft, e);
        place_apart(table, draft, graph, loaders, e + loaders as u32, end);
        table.take_back(edge, draft.place[e as usize], us, vs);
    }
}

/// Notes the edges of a batch in the merged table.
fn merge(table: &mut GreedyTable<'_>, graph: &Graph, place: &[u8], start: u32, end: u32)
    requires order { start ≤ end }
    requires end { end ≤ length graph.now.edges }
    requires place { length place.now ≡ length graph.now.edges }
    requires within { (e : ℕ) → e < length graph.now.edges →
        slice_index place.now e < table.old.workers }
    requires table { table.old ≡ table_after graph.now table.old.workers table.old.first
        place.now (range_with_len 0 start) }
    ensures { table.new ≡ table_after graph.now table.old.workers table.old.first
        place.now (range_with_len 0 end) }
{
    for e in start..end {
        table.give(graph.edges()[e as usize], place[e as usize]);
    }
}

/// Places the edges of a batch, and merges what the loaders know. The edges before it stand.
pub fn place_batch(
    table: &mut GreedyTable<'_>,
    draft: &mut Draft,
    graph: &Graph,
    workers: u8,
    loaders: u8,
    start: u32,
    end: u32,
)
    requires some { 1 ≤ workers }
    requires some_loaders { 1 ≤ loaders }
    requires start { batch_start loaders start ≡ start }
    requires order { start ≤ end }
    requires batch { end ≤ start + 1024 * loaders }
    requires end { end ≤ length graph.now.edges }
    requires workers { table.old.workers ≡ workers }
    requires table { table.old ≡ table_after graph.now workers table.old.first
        (coordinated_places graph.now workers loaders) (range_with_len 0 start) }
    requires draft { IsDraft (length graph.now.edges) workers
        draft.old.place.items draft.old.cases.items }
    requires before { (e : ℕ) → e < start →
        StandsAs (coordinated graph.now workers loaders)
        draft.old.place.items draft.old.cases.items e }
    ensures workers { table.new.workers ≡ workers }
    ensures table { table.new ≡ table_after graph.now workers table.new.first
        (coordinated_places graph.now workers loaders) (range_with_len 0 end) }
    ensures draft { IsDraft (length graph.now.edges) workers
        draft.new.place.items draft.new.cases.items }
    ensures stand { (e : ℕ) → e < end →
        StandsAs (coordinated graph.now workers loaders)
        draft.new.place.items draft.new.cases.items e }
{
    for loader in 0..loaders {
        table.prefer(loader % workers);
        place_apart(table, draft, graph, loaders, start + loader as u32, end);
    }
    merge(table, graph, draft.place.as_slice(), start, end);
}
