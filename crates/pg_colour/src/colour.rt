//! A colouring in which no two neighbours are alike.
ghost use Rattle.std.specs.Prelude.{◌≡◌};

use crate::colours::Colours;
use pg_graph::{Dir, EdgeInfo, VertexInfo};
use pg_law::{Applied, Datum, Delta, Near, Scattered, Started, Steps, VertexProgram};
use std::alloc::{AllocError, Global};
use std::sync::ledger::Ledger;

/// Gives each vertex a colour that none of its neighbours has.
///
/// A vertex keeps its colour where it can, and else takes the least number that no neighbour has.
#[derive(Clone, Copy, Debug)]
pub struct Colour;

impl Colour {
    pub fn new() -> Colour {
        Colour
    }
}

impl VertexProgram for Colour {
    ghost use Rattle.pg_colour.specs.Colouring.{colouring};
    ghost use Rattle.pg_colour.specs.ColouringLaws.{colouring_lawful};

    type Acc = Colours;

    type Carry = ();

    ghost meaning = { λ _. colouring };

    fn start(&self, _v: VertexInfo) -> Started {
        Started {
            datum: Datum::one(0),
            message: Some(0),
        }
    }

    fn start_edge(&self, _e: EdgeInfo) -> u64 {
        0
    }

    fn gather_edges(&self) -> Dir {
        Dir::AllEdges
    }

    fn scatter_edges(&self) -> Dir {
        Dir::AllEdges
    }

    fn keeps_deltas(&self) -> bool {
        false
    }

    fn wide(&self) -> bool {
        false
    }

    fn empty(&self, alloc: Global) -> Result<Colours, AllocError> {
        Ok(Colours::new(alloc))
    }

    fn copy(&self, _alloc: Global, a: &Colours) -> Result<Colours, AllocError> {
        a.copy()
    }

    fn gather<L: Ledger>(
        &self,
        alloc: Global,
        near: Near,
        steps: &mut Steps<L>,
    ) -> Result<Colours, AllocError> {
        steps.tick();
        Ok(Colours::one(alloc, near.other.first()))
    }

    fn sum(&self, _alloc: Global, a: Colours, b: &Colours) -> Result<Colours, AllocError> {
        let mut union = a;
        union.add_all(b)?;
        Ok(union)
    }

    fn combine(&self, a: u64, b: u64) -> u64 {
        a.min(b)
    }

    fn apply(&self, _v: VertexInfo, datum: Datum, acc: &Colours, _message: u64) -> Applied<()> {
        let old = datum.first();
        let colour = if acc.contains(old) {
            acc.least_free()
        } else {
            old
        };
        Applied {
            datum: Datum::one(colour),
            again: None,
            carry: (),
        }
    }

    fn scatter(
        &self,
        _alloc: Global,
        near: Near,
        _carry: (),
    ) -> Result<Scattered<Colours>, AllocError> {
        Ok(Scattered {
            edge: near.word,
            signal: if near.centre.first() == near.other.first() {
                Some(0)
            } else {
                None
            },
            delta: Delta::Clear,
        })
    }

    ghost lawful = { λ _. colouring_lawful };
}
