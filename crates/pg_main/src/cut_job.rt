//! A cut that was named: a text is read, its graph is cut, and what the cut costs is written.
ghost use Rattle.std.specs.Prelude.{◌≡◌, ◌⊎◌, ◌≤◌, true, [], Some, None, IsErrOf, IfSome, OnOk};
ghost use Rattle.pg_base.specs.Faults.{HasRisen};
ghost use Rattle.pg_base.specs.Limits.{IsWithinStandard};
ghost use Rattle.pg_input.specs.Events.{IsEventOf};
ghost use Rattle.pg_input.specs.Reading.{first_event};
ghost use Rattle.pg_input.specs.declared.error.InputError.{InputError as Unread};
ghost use Rattle.pg_input.specs.declared.error.InputError.TheVariants.{ReadFault};
ghost use Rattle.pg_main.specs.Jobs.{IsDivided, IsDividedInPart};

use crate::cut::divide;
use crate::cut_text::write_cut;
use crate::refusal::Refusal;
use pg_base::{Limits, Sink, Source};
use pg_input::read_graph;
use pg_words::CutJob;
use std::alloc::Global;

/// Reads a text, cuts its graph, and writes what the cut costs.
pub fn cut_job<S: Source, K: Sink>(
    alloc: Global,
    job: CutJob,
    limits: Limits,
    input: &mut S,
    out: &mut K,
) -> Result<(), Refusal>
    requires limits { IsWithinStandard limits }
    requires some { 1 ≤ job.workers }
    requires few { job.workers ≤ 64 }
    ensures divided { OnOk result (IfSome (S.left input.old)
        (IsDivided limits (K.written out.old) (K.written out.new) job)) }
    ensures finished { OnOk result (K.finished out.new ≡ true) }
    ensures read { OnOk result (IfSome (S.left input.old) (λ _. S.left input.new ≡ Some [])) }
    ensures event { (error : Unread) → IsErrOf result (Refusal.Input error) →
        IfSome (S.left input.old) (λ text. IsEventOf (first_event job.format limits text) error) }
    ensures absent { (id : _) → IsErrOf result (Refusal.NoVertex id) → ⊥ }
    ensures read_fault { IsErrOf result (Refusal.Input ReadFault) →
        HasRisen (S.faults input.old) (S.faults input.new) }
    ensures write_fault { IsErrOf result Refusal.WriteFault →
        HasRisen (K.faults out.old) (K.faults out.new) }
    ensures unread { (error : Unread) → IsErrOf result (Refusal.Input error) →
        K.written out.new ≡ K.written out.old }
    ensures front { IsErrOf result Refusal.WriteFault → IfSome (S.left input.old)
        (IsDividedInPart limits (K.written out.old) (K.written out.new) job) }
    ensures memory { IsErrOf result Refusal.Memory → IfSome (S.left input.old)
        (λ text. (K.written out.new ≡ K.written out.old)
        ⊎ IsDividedInPart limits (K.written out.old) (K.written out.new) job text) }
{
    let graph = read_graph(alloc, job.format, limits, input)?;
    let made = divide(alloc, &graph, job.workers, job.kind)?;
    write_cut(out, job.kind, &graph, &made)?;
    out.finish()?;
    Ok(())
}
