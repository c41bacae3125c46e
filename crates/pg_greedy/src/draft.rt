//! Places and cases as they are found.
ghost use Rattle.std.specs.Prelude.{◌≡◌, ◌<◌, ◌≤◌, ◌==◌, length, slice_set, sum, count_by, replicate};
ghost use Rattle.std.specs.Prelude.{IfOk};
ghost use Rattle.pg_graph.specs.Multigraph.{edge_at};
ghost use Rattle.pg_greedy.specs.Greedy.{HasRoom, greedy, with_edge};
ghost use Rattle.pg_greedy.specs.Loaders.{case_counts};
ghost use Rattle.pg_greedy.specs.Drafts.{IsDraft};

use crate::table::GreedyTable;
use std::alloc::{AllocError, Global};

/// The worker of each edge, and the case that put it there, as far as they are known.
#[derive(Drop)]
pub struct Draft {
    pub place: Vec<u8>,
    pub cases: Vec<u8>,
}

/// Room for so many edges.
pub fn blank(alloc: Global, count: usize) -> Result<Draft, AllocError>
    ensures place { IfOk result (λ draft. draft.place.items ≡ replicate count 0) }
    ensures cases { IfOk result (λ draft. draft.cases.items ≡ replicate count 0) }
{
    Ok(Draft {
        place: vec![in alloc; 0u8; count]?,
        cases: vec![in alloc; 0u8; count]?,
    })
}

/// Places an edge, and writes down where it went.
pub fn place_edge(table: &mut GreedyTable<'_>, draft: &mut Draft, e: u32)
    requires edge { e < length table.old.graph.edges }
    requires room { HasRoom table.old }
    requires draft { IsDraft (length table.old.graph.edges) table.old.workers
        draft.old.place.items draft.old.cases.items }
    ensures place { draft.new.place.items ≡ slice_set draft.old.place.items e
        (greedy table.old (edge_at table.old.graph e)).worker }
    ensures cases { draft.new.cases.items ≡ slice_set draft.old.cases.items e
        (greedy table.old (edge_at table.old.graph e)).case }
    ensures draft { IsDraft (length table.old.graph.edges) table.old.workers
        draft.new.place.items draft.new.cases.items }
    ensures table { table.new ≡ with_edge table.old (edge_at table.old.graph e)
        (greedy table.old (edge_at table.old.graph e)).worker }
{
    let placed = table.place(e);
    draft.place[e as usize] = placed.worker;
    draft.cases[e as usize] = placed.case;
}

/// How many of these cases are this one.
fn count_case(cases: &[u8], case: u8) -> u64
    ensures { result ≡ count_by (λ c. c == case) cases.now }
{
    let mut count = 0;
    for c in cases {
        if *c == case {
            count += 1;
        }
    }
    count
}

/// How many edges went by each of the four cases.
pub fn count_cases(cases: &[u8]) -> [u64; 4]
    ensures value { result ≡ case_counts cases.now }
    ensures total { sum result ≤ length cases.now }
{
    [
        count_case(cases, 1),
        count_case(cases, 2),
        count_case(cases, 3),
        count_case(cases, 4),
    ]
}
