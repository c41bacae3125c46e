//! The cut that a job names.
ghost use Rattle.std.specs.Prelude.{◌≡◌, ◌≤◌, IfOk};
ghost use Rattle.std.specs.Option.{option_map};
ghost use Rattle.pg_cut.specs.Cut.{IsCutOf};
ghost use Rattle.pg_main.specs.Cuts.{cut_by, cases_by};

use pg_cut::{Cut, random};
use pg_graph::Graph;
use pg_greedy::{coordinated, oblivious};
use pg_words::CutKind;
use std::alloc::{AllocError, Global};

/// A cut, and how many edges went by each of the four cases, where it is a greedy one.
#[derive(Drop)]
pub struct Divided {
    pub cut: Cut,
    pub cases: Option<[u64; 4]>,
}

/// Divides the edges among so many workers. A greedy cut has as many loaders.
pub fn divide(
    alloc: Global,
    graph: &Graph,
    workers: u8,
    kind: CutKind,
) -> Result<Divided, AllocError>
    requires some { 1 ≤ workers }
    requires few { workers ≤ 64 }
    ensures value { IfOk result (λ made. made.cut ≡ cut_by kind workers graph.now) }
    ensures cases { IfOk result (λ made. made.cases ≡ cases_by kind workers graph.now) }
    ensures cut { IfOk result (λ made. IsCutOf graph.now made.cut) }
{
    match kind {
        CutKind::Random { seed } => {
            let cut = random(alloc, graph, workers, seed)?;
            Ok(Divided { cut, cases: None })
        }
        CutKind::Oblivious => {
            let made = oblivious(alloc, graph, workers, workers)?;
            Ok(Divided {
                cut: made.cut,
                cases: Some(made.cases),
            })
        }
        CutKind::Coordinated => {
            let made = coordinated(alloc, graph, workers, workers)?;
            Ok(Divided {
                cut: made.cut,
                cases: Some(made.cases),
            })
        }
    }
}
