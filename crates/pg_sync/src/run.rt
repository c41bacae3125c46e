//! Rounds over the cut.
ghost use Rattle.std.specs.Prelude.{◌≡◌, length, cond, All, IfOk, OnOk, IsSome, IsTrue};
ghost use Rattle.pg_law.specs.Configuration.{Configuration};
ghost use Rattle.pg_cut.specs.Cut.{IsCutOf};
ghost use Rattle.pg_sync.specs.Held.{IsHeld, IsHolding};
ghost use Rattle.pg_sync.specs.Going.{IsDone};
ghost use Rattle.pg_sync.specs.Counting.{counters_of, AreCounted};

use crate::cells::cells_of;
use crate::masters::{Masters, signalled_in};
use crate::round::one_round;
use crate::worker::{Scattering, Seat};
use pg_base::Gate;
use pg_cut::Cut;
use pg_graph::Graph;
use pg_law::{End, VertexProgram};
use pg_mirrors::MirrorTable;
use std::alloc::{AllocError, Global};
use std::sync::ledger::Ledger;
use std::thread::Threads;

/// How many rounds were made, what they took, and how they ended.
#[derive(Clone, Copy, Debug)]
pub struct Ran {
    pub rounds: u32,
    pub executions: u64,
    pub gathers: u64,
    pub end: End,
}

/// Rounds until nothing is signalled, or so many, with kept gathers where `cache` is true.
///
/// Whatever state the workers and the masters hold before, they hold the one after its rounds, and
/// each counter rises by its worker's gathers in them. After `Err`, which is want of memory, they
/// hold none, and the counters are there.
pub fn run_parts<R: Threads + Sync, P: VertexProgram, G: Gate, L: Ledger + Send>(
    rt: &R,
    alloc: Global,
    program: &P,
    graph: &Graph,
    cut: &Cut,
    seats: &mut [Seat<P::Acc, L>],
    workers: &mut [Scattering<P::Acc>],
    mirrors: &mut [MirrorTable],
    masters: &mut Masters<P::Carry>,
    cache: bool,
    limit: u32,
    gate: &G,
) -> Result<Ran, AllocError>
    requires cut { IsCutOf graph.now cut.now }
    requires held { IsHolding (P.meaning program.now) graph.now cut.now workers.old mirrors.old
        masters.old.values.items masters.old.messages.items }
    requires deltas { IsTrue cache → IsTrue (P.meaning program.now).keeps_deltas }
    requires carries { length masters.old.carries.items ≡ length graph.now.ids }
    requires seats { length seats.old ≡ cut.now.workers }
    requires steps { All (λ seat. IsSome seat.0) seats.old }
    ensures done { let p = P.meaning program.now in IfOk result (λ ran. (s : Configuration) →
        IsHeld p graph.now cut.now s workers.old mirrors.old
        masters.old.values.items masters.old.messages.items →
        IsDone p graph.now cut.now cache s limit ran.rounds ran.executions ran.gathers
        workers.new mirrors.new masters.new.values.items masters.new.messages.items ran.end) }
    ensures counted { let p = P.meaning program.now in OnOk result ((s : Configuration) →
        IsHeld p graph.now cut.now s workers.old mirrors.old
        masters.old.values.items masters.old.messages.items →
        AreCounted p graph.now cut.now cache s limit
        (counters_of seats.old) (counters_of seats.new)) }
    ensures present { All (λ seat. IsSome seat.0) seats.new }
{
    let _ = graph.vertices();
    let mut cells = cells_of(alloc, graph, cache)?;
    let kept = cells.as_mut_slice();
    let mut executions = 0u64;
    let mut gathers = 0u64;
    for round in 0..limit {
        let wanted = signalled_in(alloc, graph, masters.messages.as_slice())?;
        if wanted.is_empty() {
            return Ok(Ran {
                rounds: round,
                executions,
                gathers,
                end: End::Quiescent,
            });
        }
        let listed = wanted.as_slice();
        gathers += one_round(
            rt, alloc, program, graph, cut, seats, workers, mirrors, masters, kept, listed, gate,
        )?;
        executions += listed.len() as u64;
    }
    let wanted = signalled_in(alloc, graph, masters.messages.as_slice())?;
    let end = end_by(wanted.is_empty());
    Ok(Ran {
        rounds: limit,
        executions,
        gathers,
        end,
    })
}

/// How rounds end at the limit: quiescent, if nothing is signalled.
fn end_by(quiet: bool) -> End
    ensures { result ≡ cond quiet End.Quiescent End.Spent }
{
    if quiet { End::Quiescent } else { End::Spent }
}
