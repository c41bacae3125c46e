//! A cell that is used, and filled by a gather where it has none.
ghost use Rattle.std.specs.Prelude.{◌≡◌, ◌+◌, Some, length, All, IfOk, OnOk, OnErr};
ghost use Rattle.pg_law.specs.Laws.{IsNear};
ghost use Rattle.pg_delta.specs.Deltas.{gather_over};
ghost use Rattle.pg_delta.specs.Cell.{IsCell, cleared, used, gathers_of};

use crate::cell::CacheCell;
use pg_law::{Near, Steps, VertexProgram, laws_of};
use std::alloc::{AllocError, Global};
use std::sync::ledger::Ledger;

/// The gather over these edges.
fn gather_all<P: VertexProgram, L: Ledger>(
    alloc: Global,
    program: &P,
    near: &[Near],
    steps: &mut Steps<L>,
) -> Result<P::Acc, AllocError>
    requires { All (IsNear (P.meaning program.now)) near.now }
    ensures value { IfOk result (λ acc. acc ≡ gather_over (P.meaning program.now) near.now) }
    ensures own { IfOk result (P.meaning program.now).IsAcc }
    ensures counted { OnOk result (steps.new ≡ steps.old + length near.now) }
{
    laws_of(program);
    let mut acc = program.empty(alloc)?;
    for one in near {
        let part = program.gather(alloc, *one, steps)?;
        acc = program.sum(alloc, acc, &part)?;
    }
    Ok(acc)
}

impl<A: Drop> CacheCell<A> {
    /// Settles the cell, and gathers over these edges where it has no gather then.
    ///
    /// `Err` is want of memory.
    fn settle_or_gather<P: VertexProgram<Acc = A>, L: Ledger>(
        &mut self,
        alloc: Global,
        program: &P,
        near: &[Near],
        steps: &mut Steps<L>,
    ) -> Result<(), AllocError>
        requires cell { IsCell (P.meaning program.now) self.old }
        requires near { All (IsNear (P.meaning program.now)) near.now }
        ensures ok { OnOk result (self.new ≡ used (P.meaning program.now) self.old near.now) }
        ensures err { OnErr result (self.new ≡ cleared) }
        ensures own { IsCell (P.meaning program.now) self.new }
        ensures counted { OnOk result
            (steps.new ≡ steps.old + gathers_of (P.meaning program.now) self.old near.now) }
    {
        if self.settle(alloc, program)? {
            return Ok(());
        }
        let acc = gather_all(alloc, program, near, steps)?;
        self.fill(acc);
        Ok(())
    }

    /// Settles the cell, gathers over these edges where it has no gather then, and lends the gather.
    ///
    /// `Err` is want of memory.
    pub fn use_or_gather<P: VertexProgram<Acc = A>, L: Ledger>(
        &mut self,
        alloc: Global,
        program: &P,
        near: &[Near],
        steps: &mut Steps<L>,
    ) -> Result<&A, AllocError>
        requires cell { IsCell (P.meaning program.now) self.old }
        requires near { All (IsNear (P.meaning program.now)) near.now }
        ensures value { IfOk result
            (λ acc. Some acc.now ≡ (used (P.meaning program.now) self.old near.now).acc) }
        ensures counted { OnOk result
            (steps.new ≡ steps.old + gathers_of (P.meaning program.now) self.old near.now) }
    {
        self.settle_or_gather(alloc, program, near, steps)?;
        match &self.acc {
            Some(acc) => Ok(acc),
            None => unreachable!(),
        }
    }
}
