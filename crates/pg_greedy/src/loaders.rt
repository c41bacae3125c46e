//! Greedy cuts by several loaders.
ghost use Rattle.std.specs.Prelude.{◌≡◌, ◌≤◌, length, sum, IfOk};
ghost use Rattle.pg_cut.specs.Cut.{IsCutOf, cut_of};
ghost use Rattle.pg_greedy.specs.Loaders.{case_counts};
ghost use Rattle.pg_greedy.specs.Loaders.{oblivious_places, oblivious_cases};
ghost use Rattle.pg_greedy.specs.Loaders.{coordinated_places, coordinated_cases};
ghost use Rattle.pg_greedy.specs.Drafts.{IsDraft};

use crate::alone::place_alone;
use crate::draft::{Draft, blank, count_cases};
use crate::table::GreedyTable;
use crate::together::place_batch;
use pg_cut::Cut;
use pg_graph::Graph;
use std::alloc::{AllocError, Global};

/// A greedy cut, and how many edges went by each of the four cases.
#[derive(Drop)]
pub struct GreedyCut {
    pub cut: Cut,
    pub cases: [u64; 4],
}

/// The cut of a draft that is whole.
fn finish(alloc: Global, graph: &Graph, workers: u8, draft: Draft) -> Result<GreedyCut, AllocError>
    requires some { 1 ≤ workers }
    requires few { workers ≤ 64 }
    requires draft { IsDraft (length graph.now.edges) workers
        draft.place.items draft.cases.items }
    ensures value { IfOk result (λ made. made.cut ≡
        cut_of graph.now workers draft.place.items) }
    ensures cut { IfOk result (λ made. IsCutOf graph.now made.cut) }
    ensures cases { IfOk result (λ made. made.cases ≡ case_counts draft.cases.items) }
    ensures total { IfOk result (λ made. sum made.cases ≤ length graph.now.edges) }
{
    let cases = count_cases(draft.cases.as_slice());
    let cut = Cut::of(alloc, graph, workers, draft.place)?;
    Ok(GreedyCut { cut, cases })
}

/// The cut of loaders that each know of their own edges alone. The edge `i` comes from the loader
/// `i mod loaders`.
pub fn oblivious(
    alloc: Global,
    graph: &Graph,
    workers: u8,
    loaders: u8,
) -> Result<GreedyCut, AllocError>
    requires some { 1 ≤ workers }
    requires few { workers ≤ 64 }
    requires some_loaders { 1 ≤ loaders }
    requires few_loaders { loaders ≤ 64 }
    ensures value { IfOk result (λ made. made.cut ≡
        cut_of graph.now workers (oblivious_places graph.now workers loaders)) }
    ensures cut { IfOk result (λ made. IsCutOf graph.now made.cut) }
    ensures cases { IfOk result (λ made. made.cases ≡
        case_counts (oblivious_cases graph.now workers loaders)) }
    ensures total { IfOk result (λ made. sum made.cases ≤ length graph.now.edges) }
{
    let mut draft = blank(alloc, graph.edges().len())?;
    let mut table = GreedyTable::new(alloc, graph, workers, 0)?;
    for loader in 0..loaders {
        place_alone(&mut table, &mut draft, graph, workers, loaders, loader);
    }
    finish(alloc, graph, workers, draft)
}

/// The cut of loaders that merge what they know after each batch, which is 1,024 edges of each.
pub fn coordinated(
    alloc: Global,
    graph: &Graph,
    workers: u8,
    loaders: u8,
) -> Result<GreedyCut, AllocError>
    requires some { 1 ≤ workers }
    requires few { workers ≤ 64 }
    requires some_loaders { 1 ≤ loaders }
    requires few_loaders { loaders ≤ 64 }
    ensures value { IfOk result (λ made. made.cut ≡
        cut_of graph.now workers (coordinated_places graph.now workers loaders)) }
    ensures cut { IfOk result (λ made. IsCutOf graph.now made.cut) }
    ensures cases { IfOk result (λ made. made.cases ≡
        case_counts (coordinated_cases graph.now workers loaders)) }
    ensures total { IfOk result (λ made. sum made.cases ≤ length graph.now.edges) }
{
    let edges = graph.edges().len() as u32;
    let batch = 1024 * loaders as u32;
    let mut draft = blank(alloc, graph.edges().len())?;
    let mut table = GreedyTable::new(alloc, graph, workers, 0)?;
    let mut start = 0;
    while start < edges {
        let end = edges.min(start + batch);
        place_batch(&mut table, &mut draft, graph, workers, loaders, start, end);
        start = end;
    }
    finish(alloc, graph, workers, draft)
}
