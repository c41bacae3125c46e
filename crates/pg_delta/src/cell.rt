//! The kept gather of one vertex.
ghost use Rattle.std.specs.Prelude.{◌≡◌, is_some, IfOk, OnOk, OnErr};
ghost use Rattle.pg_law.specs.Laws.{IsDelta};
ghost use Rattle.pg_delta.specs.Deltas.{joined};

use pg_law::{Delta, VertexProgram, laws_of};
use std::alloc::{AllocError, Global};
use std::mem::replace;

/// The gather of a vertex as it was last known, and what has changed since.
///
/// Where `acc` is None, nothing is known, and nothing is pending.
#[derive(Drop)]
pub struct CacheCell<A> {
    pub acc: Option<A>,
    pub pending: Delta<A>,
}

/// Two deltas, one after the other.
fn join_deltas<P: VertexProgram>(
    alloc: Global,
    program: &P,
    pending: Delta<P::Acc>,
    delta: Delta<P::Acc>,
) -> Result<Delta<P::Acc>, AllocError>
    requires pending { IsDelta (P.meaning program.now).IsAcc pending }
    requires delta { IsDelta (P.meaning program.now).IsAcc delta }
    ensures { IfOk result (λ both. both ≡ joined (P.meaning program.now).sum pending delta) }
{
    match (pending, delta) {
        (Delta::Nothing, delta) => Ok(delta),
        (Delta::Clear, _) => Ok(Delta::Clear),
        (pending, Delta::Nothing) => Ok(pending),
        (_, Delta::Clear) => Ok(Delta::Clear),
        (Delta::Add(a), Delta::Add(b)) => Ok(Delta::Add(program.sum(alloc, a, &b)?)),
    }
}

impl<A: Drop> CacheCell<A> {
    ghost use Rattle.pg_delta.specs.Cell.{IsCell, cleared, filled, posted, settled};

    /// A cell of nothing.
    pub fn new() -> CacheCell<A>
        ensures { result ≡ cleared }
    {
        CacheCell {
            acc: None,
            pending: Delta::Nothing,
        }
    }

    /// Forgets the gather.
    pub fn clear(&mut self)
        ensures { self.new ≡ cleared }
    {
        *self = CacheCell::new();
    }

    /// Keeps a gather, to which nothing has happened since.
    pub fn fill(&mut self, acc: A)
        ensures { self.new ≡ filled acc }
    {
        self.acc = Some(acc);
        self.pending = Delta::Nothing;
    }

    /// Notes a change to the gather. A cell of nothing stays as it is.
    ///
    /// `Err` is want of memory.
    pub fn post<P: VertexProgram<Acc = A>>(
        &mut self,
        alloc: Global,
        program: &P,
        delta: Delta<A>,
    ) -> Result<(), AllocError>
        requires cell { IsCell (P.meaning program.now) self.old }
        requires delta { IsDelta (P.meaning program.now).IsAcc delta }
        ensures ok { OnOk result (self.new ≡ posted (P.meaning program.now).sum self.old delta) }
        ensures err { OnErr result (self.new ≡ cleared) }
        ensures own { IsCell (P.meaning program.now) self.new }
    {
        laws_of(program);
        if self.acc.is_none() {
            return Ok(());
        }
        let pending = replace(&mut self.pending, Delta::Nothing);
        match join_deltas(alloc, program, pending, delta) {
            Ok(both) => {
                self.pending = both;
                Ok(())
            }
            Err(error) => {
                self.clear();
                Err(error)
            }
        }
    }

    /// Sums in what has changed, and answers whether a gather is there then.
    ///
    /// `Err` is want of memory.
    pub fn settle<P: VertexProgram<Acc = A>>(
        &mut self,
        alloc: Global,
        program: &P,
    ) -> Result<bool, AllocError>
        requires { IsCell (P.meaning program.now) self.old }
        ensures ok { OnOk result (self.new ≡ settled (P.meaning program.now).sum self.old) }
        ensures there { IfOk result (λ there. there ≡ is_some self.new.acc) }
        ensures err { OnErr result (self.new ≡ cleared) }
        ensures own { IsCell (P.meaning program.now) self.new }
    {
        laws_of(program);
        let pending = replace(&mut self.pending, Delta::Nothing);
        let Some(acc) = self.acc.take() else {
            return Ok(false);
        };
        match pending {
            Delta::Nothing => self.acc = Some(acc),
            Delta::Add(delta) => self.acc = Some(program.sum(alloc, acc, &delta)?),
            Delta::Clear => {}
        }
        Ok(self.acc.is_some())
    }
}
