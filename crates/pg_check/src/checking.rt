//! A report is read and compared.
ghost use Rattle.std.specs.Prelude.{◌≡◌, ◌+◌, ◌≤◌, [], Some, None, IsErrOf, IfSome, IfOk, IfErr, OnOk};
ghost use Rattle.pg_base.specs.Cutting.{ahead};
ghost use Rattle.pg_base.specs.Faults.{HasRisen};
ghost use Rattle.pg_base.specs.Limits.{IsWithinStandard};
ghost use Rattle.pg_base.specs.Shown.{shown};
ghost use Rattle.pg_input.specs.Events.{IsEventOf};
ghost use Rattle.pg_report.specs.Lines.{line_text};
ghost use Rattle.pg_report.specs.declared.line.ReportLine.TheVariants.{Head};
ghost use Rattle.pg_check.specs.Outcomes.{engine_name};
ghost use Rattle.pg_check.specs.Reports.{has_text, read_report};
ghost use Rattle.pg_check.specs.Verdicts.{verdict_by, gathers_by, counts_once, event_for};
ghost use Rattle.pg_check.specs.declared.verdict.Verdict.TheVariants.{Confirmed};

use crate::begin::begin;
use crate::compare::is_line;
use crate::course::take;
use crate::verdict::Verdict;
use pg_base::{Limits, LineCutter, RawLine, Source};
use pg_graph::Graph;
use pg_input::{InputError, from_cut};
use pg_law::{Steps, VertexProgram};
use pg_report::ReportLine;
use pg_words::{Engine, EngineName, RunJob};
use std::alloc::Global;
use std::sync::ledger::Ledger;

/// Whether a line is the header of the job's report.
fn is_head(line: RawLine<'_>, job: &RunJob) -> bool
    ensures { result ≡ has_text
        (line_text (Head (engine_name job.now.engine) job.now.program))
        (line.entry.bytes.now, line.entry.ended) }
{
    let engine = match job.engine {
        Engine::Sync { .. } => EngineName::Sync,
        Engine::Serial { .. } | Engine::Virtual { .. } => EngineName::Async,
    };
    let program = job.program;
    is_line(line, ReportLine::Head { engine, program })
}

/// Reads a report behind its header and says whether it is right for the job on the graph, or its
/// first wrong line. A report of rounds is compared with the one right text; one of executions is
/// replayed, and the job's fuel alone counts. Where the job keeps gathers, the last line has to count
/// each vertex once.
///
/// `first` is the header that was found before, with its line feed or not; None where the text had
/// none, and then line 1 is wrong. Lines are numbered from the header, bytes from the first that the
/// cutter read. `program` is the one that the job names.
///
/// *Order*: line by line; in one line first a fault of the source or the limit of bytes, and then the
/// comparison. Reading stops at the first wrong line, and nothing is promised of what is unread then.
pub fn check<P: VertexProgram, S: Source, L: Ledger>(
    alloc: Global,
    program: &P,
    graph: &Graph,
    job: &RunJob,
    first: Option<RawLine<'_>>,
    cutter: &mut LineCutter,
    source: &mut S,
    limits: Limits,
    steps: &mut Steps<L>,
) -> Result<Verdict, InputError>
    requires limits { IsWithinStandard limits }
    requires fresh { cutter.old.refusal ≡ None }
    // The verdict is that of the report, whose lines up to the wrong one are within the limit.
    ensures verdict { IfOk result (λ verdict. IfSome (ahead cutter.old (S.left source.old)) (λ text.
        verdict ≡ verdict_by (P.meaning program.now) job.now.program graph.now job.now.engine
        (counts_once job.now) (read_report (shown first.entry) text))) }
    ensures accepted { IfOk result (λ verdict. IfSome (ahead cutter.old (S.left source.old))
        (λ text. event_for limits.bytes cutter.old.given verdict text ≡ None)) }
    // A confirmed report was read to its end, and its run gathered so often: also where the report
    // counts each vertex once, each execution gathers anew.
    ensures end { IfOk result (λ verdict. verdict ≡ Confirmed →
        IfSome (ahead cutter.old (S.left source.old)) (λ _. S.left source.new ≡ Some [])) }
    ensures gathered { IfOk result (λ verdict. verdict ≡ Confirmed →
        IfSome (ahead cutter.old (S.left source.old)) (λ text. steps.new ≡ steps.old +
        gathers_by (P.meaning program.now) job.now.program graph.now job.now.engine
        (read_report (shown first.entry) text))) }
    // A limit is told exactly where a line up to the wrong one passes it.
    ensures event { IfErr result (λ e. IfSome (ahead cutter.old (S.left source.old)) (λ text.
        IsEventOf (event_for limits.bytes cutter.old.given
        (verdict_by (P.meaning program.now) job.now.program graph.now job.now.engine
        (counts_once job.now) (read_report (shown first.entry) text)) text) e)) }
    ensures fault { IsErrOf result InputError.ReadFault
        → HasRisen (S.faults source.old) (S.faults source.new) }
    ensures counted { S.faults source.old ≤ S.faults source.new }
    ensures steps { OnOk result (steps.old ≤ steps.new) }
{
    let Some(header) = first else {
        return Ok(Verdict::Rejected { line: 1 });
    };
    if !is_head(header, job) {
        return Ok(Verdict::Rejected { line: 1 });
    }
    let mut course = begin(alloc, program, graph, job, steps)?;
    let mut sents = Vec::new(alloc);
    let mut number = 1;
    loop {
        let line = match cutter.line(source, limits.bytes) {
            Ok(line) => line,
            Err(refusal) => return Err(from_cut(refusal, limits.bytes)),
        };
        number += 1;
        if let Some(verdict) = take(
            alloc,
            program,
            graph,
            job,
            &mut course,
            line,
            number,
            &mut sents,
            steps,
        )? {
            return Ok(verdict);
        }
    }
}
