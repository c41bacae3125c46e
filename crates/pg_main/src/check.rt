//! A check that was named: a text and the report behind it are read, and the report is judged.
ghost use Rattle.std.specs.Prelude.{◌≡◌, ◌≤◌, ◌<◌, ℕ, true, [], length, Some, None, Ok, IsErrOf, IfSome, IfOk};
ghost use Rattle.std.specs.Option.{option_map};
ghost use Rattle.pg_base.specs.Faults.{HasRisen};
ghost use Rattle.pg_base.specs.Limits.{IsWithinStandard};
ghost use Rattle.pg_base.specs.Shown.{shown};
ghost use Rattle.pg_base.specs.Writing.{Writes};
ghost use Rattle.pg_input.specs.declared.error.InputError.{InputError as Unread};
ghost use Rattle.pg_input.specs.declared.error.InputError.TheVariants.{ReadFault};
ghost use Rattle.pg_check.specs.declared.verdict.Verdict.TheVariants.{Confirmed, Rejected};
ghost use Rattle.pg_main.specs.Checks.{IsJudged, IsConfirmed, IsConfirmedInPart, IsAbsentBefore, IsEventOfCheck, confirmed_text};
ghost use Rattle.pg_main.specs.Counters.{ArePresent};

use crate::judge::judge_named;
use crate::refusal::Refusal;
use crate::source::find_source;
use pg_base::{Failed, Limits, LineCutter, RawLine, Sink, Source, write_whole};
use pg_check::Verdict;
use pg_input::{Part, read_part};
use pg_law::Steps;
use pg_words::RunJob;
use std::alloc::Global;
use std::sync::ledger::Ledger;

/// Reads a text and the report behind it, and writes that the report is right, where it is.
pub fn check_job<S: Source, K: Sink, L: Ledger>(
    alloc: Global,
    job: RunJob,
    limits: Limits,
    input: &mut S,
    out: &mut K,
    steps: &mut [Option<Steps<L>>],
) -> Result<Verdict, Refusal>
    requires limits { IsWithinStandard limits }
    requires some { 0 < length steps.old }
    requires present { ArePresent steps.old }
    ensures confirmed { result ≡ Ok Confirmed → IfSome (S.left input.old)
        (IsConfirmed limits (K.written out.old) (K.written out.new) steps.old steps.new job) }
    ensures rejected { (line : ℕ) → result ≡ Ok (Rejected line) → IfSome (S.left input.old)
        (IsJudged limits (Rejected line) job) }
    ensures finished { result ≡ Ok Confirmed → K.finished out.new ≡ true }
    ensures read { result ≡ Ok Confirmed →
        IfSome (S.left input.old) (λ _. S.left input.new ≡ Some []) }
    ensures unwritten { (line : ℕ) → result ≡ Ok (Rejected line) →
        K.written out.new ≡ K.written out.old }
    ensures event { (error : Unread) → IsErrOf result (Refusal.Input error) →
        IfSome (S.left input.old) (IsEventOfCheck limits error job) }
    ensures absent { (id : ℕ) → IsErrOf result (Refusal.NoVertex id) →
        IfSome (S.left input.old) (IsAbsentBefore limits id job) }
    ensures read_fault { IsErrOf result (Refusal.Input ReadFault) →
        HasRisen (S.faults input.old) (S.faults input.new) }
    ensures write_fault { IsErrOf result Refusal.WriteFault →
        HasRisen (K.faults out.old) (K.faults out.new) }
    ensures unread { (error : Unread) → IsErrOf result (Refusal.Input error) →
        K.written out.new ≡ K.written out.old }
    ensures unsent { (id : ℕ) → IsErrOf result (Refusal.NoVertex id) →
        K.written out.new ≡ K.written out.old }
    ensures front { IsErrOf result Refusal.WriteFault → IfSome (S.left input.old)
        (IsConfirmedInPart limits (K.written out.old) (K.written out.new) job) }
    ensures memory { IsErrOf result Refusal.Memory → K.written out.new ≡ K.written out.old }
    ensures present { ArePresent steps.new }
{
    let mut cutter = LineCutter::new(alloc)?;
    let part = read_part(
        alloc,
        job.format,
        limits,
        &mut cutter,
        input,
        b"# pgreport ",
    )?;
    find_source(job.program, &part.graph)?;
    let verdict = judge_named(
        alloc,
        &part.graph,
        &job,
        header(&part),
        &mut cutter,
        input,
        limits,
        steps,
    )?;
    match verdict {
        Verdict::Confirmed => {
            write_confirmed(out)?;
            Ok(verdict)
        }
        Verdict::Rejected { .. } => Ok(verdict),
    }
}

/// The header of the report, where one was found.
fn header(part: &Part) -> Option<RawLine<'_>>
    ensures { shown result
        ≡ option_map (λ line. (line, part.now.stop_ended)) (option_map
        (λ v. v.items) part.now.stop) }
{
    match &part.stop {
        Some(bytes) => Some(RawLine {
            bytes: bytes.as_slice(),
            ended: part.stop_ended,
        }),
        None => None,
    }
}

/// Writes that the report is right.
fn write_confirmed<K: Sink>(out: &mut K) -> Result<(), Failed>
    ensures written { Writes (K.written out.old) (K.written out.new) (K.faults out.old)
        (K.faults out.new) confirmed_text result }
    ensures finished { IfOk result (λ _. K.finished out.new ≡ true) }
{
    write_whole(out, b"confirmed\n")?;
    out.finish()
}
