//! A job of any kind.
ghost use Rattle.std.specs.Prelude.{◌≤◌, length};
ghost use Rattle.pg_base.specs.Limits.{IsWithinStandard};
ghost use Rattle.pg_main.specs.Counters.{ArePresent};
ghost use Rattle.pg_words.specs.Workers.{HasWorkers};
ghost use Rattle.pg_main.specs.Performing.{Performs, outside};

use crate::check::check_job;
use crate::cut_job::cut_job;
use crate::job::run_job;
use crate::status::{Status, settle_check, settle_cut, settle_run};
use pg_base::{Gate, Limits, Sink, Source};
use pg_law::Steps;
use pg_words::Job;
use std::alloc::Global;
use std::sync::ledger::Ledger;
use std::thread::Threads;

/// Does a job, and answers how it ends.
pub fn perform<R: Threads + Sync, S: Source, K: Sink, G: Gate, L: Ledger + Send>(
    rt: &R,
    alloc: Global,
    job: Job,
    limits: Limits,
    input: &mut S,
    out: &mut K,
    gate: &G,
    steps: &mut [Option<Steps<L>>],
) -> Status
    requires limits { IsWithinStandard limits }
    requires workers { HasWorkers job }
    requires enough { 64 ≤ length steps.old }
    requires present { ArePresent steps.old }
    ensures { Performs limits job
        (outside (S.left input.old) (S.faults input.old) (K.written out.old) (K.faults out.old)
        (K.finished out.old) steps.old)
        (outside (S.left input.new) (S.faults input.new) (K.written out.new) (K.faults out.new)
        (K.finished out.new) steps.new) result }
{
    match job {
        Job::Run(run) => settle_run(run_job(rt, alloc, run, limits, input, out, gate, steps)),
        Job::Check(run) => settle_check(check_job(alloc, run, limits, input, out, steps)),
        Job::Cut(cut) => settle_cut(cut_job(alloc, cut, limits, input, out)),
    }
}
