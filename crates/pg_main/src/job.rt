//! A job that was named: a text is read, a program is run on its graph, and the report is written.
ghost use Rattle.std.specs.Prelude.{◌≡◌, ◌⊎◌, ◌≤◌, true, [], length, Some, None, IsErrOf, IfSome, IfOk, IfErr, OnOk, OnErr};
ghost use Rattle.pg_base.specs.Faults.{HasRisen};
ghost use Rattle.pg_base.specs.Limits.{IsWithinStandard};
ghost use Rattle.pg_input.specs.Events.{IsEventOf};
ghost use Rattle.pg_input.specs.Reading.{first_event};
ghost use Rattle.pg_input.specs.declared.error.InputError.{InputError as Unread};
ghost use Rattle.pg_input.specs.declared.error.InputError.TheVariants.{ReadFault};
ghost use Rattle.pg_law.specs.declared.values.End.TheVariants.{Quiescent};
ghost use Rattle.pg_main.specs.Counters.{ArePresent};
ghost use Rattle.pg_main.specs.Jobs.{IsReported, IsReportedInPart, IsMeant, IsAbsent};

use crate::laws::what_quiescence_means;
use crate::programs::report_named;
use crate::refusal::Refusal;
use crate::source::find_source;
use pg_base::{Gate, Limits, Sink, Source};
use pg_input::read_graph;
use pg_law::{End, Steps};
use pg_words::RunJob;
use std::alloc::Global;
use std::sync::ledger::Ledger;
use std::thread::Threads;

/// Reads a text, runs a program on its graph, and writes the report.
pub fn run_job<R: Threads + Sync, S: Source, K: Sink, G: Gate, L: Ledger + Send>(
    rt: &R,
    alloc: Global,
    job: RunJob,
    limits: Limits,
    input: &mut S,
    out: &mut K,
    gate: &G,
    steps: &mut [Option<Steps<L>>],
) -> Result<End, Refusal>
    requires limits { IsWithinStandard limits }
    requires some { 1 ≤ job.workers }
    requires few { job.workers ≤ 64 }
    requires enough { 64 ≤ length steps.old }
    requires present { ArePresent steps.old }
    ensures reported { IfOk result (λ end. IfSome (S.left input.old)
        (IsReported limits (K.written out.old) (K.written out.new) steps.old steps.new end job)) }
    ensures meant { IfOk result (λ end. end ≡ Quiescent → IfSome (S.left input.old)
        (IsMeant limits (K.written out.old) (K.written out.new) job)) }
    ensures finished { OnOk result (K.finished out.new ≡ true) }
    ensures read { OnOk result (IfSome (S.left input.old) (λ _. S.left input.new ≡ Some [])) }
    ensures event { (error : Unread) → IsErrOf result (Refusal.Input error) →
        IfSome (S.left input.old) (λ text. IsEventOf (first_event job.format limits text) error) }
    ensures absent { (id : _) → IsErrOf result (Refusal.NoVertex id) →
        IfSome (S.left input.old) (IsAbsent limits id job) }
    ensures read_fault { IsErrOf result (Refusal.Input ReadFault) →
        HasRisen (S.faults input.old) (S.faults input.new) }
    ensures write_fault { IsErrOf result Refusal.WriteFault →
        HasRisen (K.faults out.old) (K.faults out.new) }
    ensures unread { (error : Unread) → IsErrOf result (Refusal.Input error) →
        K.written out.new ≡ K.written out.old }
    ensures unsent { (id : _) → IsErrOf result (Refusal.NoVertex id) →
        K.written out.new ≡ K.written out.old }
    ensures front { IsErrOf result Refusal.WriteFault → IfSome (S.left input.old)
        (IsReportedInPart limits (K.written out.old) (K.written out.new) job) }
    ensures memory { IsErrOf result Refusal.Memory → IfSome (S.left input.old)
        (λ text. (K.written out.new ≡ K.written out.old)
        ⊎ IsReportedInPart limits (K.written out.old) (K.written out.new) job text) }
    ensures present { ArePresent steps.new }
{
    what_quiescence_means();
    let graph = read_graph(alloc, job.format, limits, input)?;
    let _ = graph.vertices();
    find_source(job.program, &graph)?;
    let end = report_named(rt, alloc, job, &graph, out, gate, steps)?;
    out.finish()?;
    Ok(end)
}
