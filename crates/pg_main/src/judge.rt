//! A report of a run that is named, judged.
ghost use Rattle.std.specs.Prelude.{◌≡◌, ◌<◌, Bool, List, None, length};
ghost use Rattle.pg_base.specs.Limits.{IsWithinStandard};
ghost use Rattle.pg_base.specs.Cutting.{ahead};
ghost use Rattle.pg_base.specs.Shown.{shown};
ghost use Rattle.pg_graph.specs.Multigraph.{Multigraph};
ghost use Rattle.pg_words.specs.declared.job.Engine.{Engine as Machine};
ghost use Rattle.pg_check.specs.Reports.{ReadLine};
ghost use Rattle.pg_check.specs.Verdicts.{verdict_by, verdict_of, gathers_by, gathers_of};
ghost use Rattle.pg_main.specs.Answers.{Judges};
ghost use Rattle.pg_main.specs.Counters.{ArePresent};

use pg_base::{Limits, LineCutter, RawLine, Source};
use pg_check::{Verdict, check};
use pg_colour::Colour;
use pg_graph::Graph;
use pg_input::InputError;
use pg_law::{Steps, VertexProgram};
use pg_paths::{Components, Sssp, Tree};
use pg_rank::PageRank;
use pg_words::{ProgramName, RunJob};
use std::alloc::Global;
use std::sync::ledger::Ledger;

/// Judges a report of this program, which is the one that the job names. The first of the workers' counters takes
/// the gathers.
fn judge<P: VertexProgram, S: Source, L: Ledger>(
    alloc: Global,
    program: &P,
    graph: &Graph,
    job: &RunJob,
    header: Option<RawLine<'_>>,
    cutter: &mut LineCutter,
    input: &mut S,
    limits: Limits,
    steps: &mut [Option<Steps<L>>],
) -> Result<Verdict, InputError>
    requires limits { IsWithinStandard limits }
    requires fresh { cutter.old.refusal ≡ None }
    requires named { (engine : Machine) (kept : Bool) (g : Multigraph) (lines : List ReadLine) →
        verdict_by (P.meaning program.now) job.now.program g engine kept lines
        ≡ verdict_of job.now.program engine kept g lines }
    requires counted { (engine : Machine) (g : Multigraph) (lines : List ReadLine) →
        gathers_by (P.meaning program.now) job.now.program g engine lines
        ≡ gathers_of job.now.program engine g lines }
    requires some { 0 < length steps.old }
    requires present { ArePresent steps.old }
    ensures { Judges limits job.now graph.now (shown header.entry) cutter.old.given
        (ahead cutter.old (S.left input.old)) (S.left input.new)
        (S.faults input.old) (S.faults input.new) steps.old steps.new result }
{
    let mut counter = steps[0].take().unwrap();
    let verdict = check(
        alloc,
        program,
        graph,
        job,
        header,
        cutter,
        input,
        limits,
        &mut counter,
    );
    steps[0] = Some(counter);
    verdict
}

/// Judges a report for the job.
pub fn judge_named<S: Source, L: Ledger>(
    alloc: Global,
    graph: &Graph,
    job: &RunJob,
    header: Option<RawLine<'_>>,
    cutter: &mut LineCutter,
    input: &mut S,
    limits: Limits,
    steps: &mut [Option<Steps<L>>],
) -> Result<Verdict, InputError>
    requires limits { IsWithinStandard limits }
    requires fresh { cutter.old.refusal ≡ None }
    requires some { 0 < length steps.old }
    requires present { ArePresent steps.old }
    ensures { Judges limits job.now graph.now (shown header.entry) cutter.old.given
        (ahead cutter.old (S.left input.old)) (S.left input.new)
        (S.faults input.old) (S.faults input.new) steps.old steps.new result }
{
    match job.program {
        ProgramName::Components => {
            let program = &Components::new();
            judge(
                alloc, program, graph, job, header, cutter, input, limits, steps,
            )
        }
        ProgramName::Colour => {
            let program = &Colour::new();
            judge(
                alloc, program, graph, job, header, cutter, input, limits, steps,
            )
        }
        ProgramName::Sssp { source } => {
            let program = &Sssp::new(source);
            judge(
                alloc, program, graph, job, header, cutter, input, limits, steps,
            )
        }
        ProgramName::Rank { tolerance } => {
            let program = &PageRank::new(tolerance);
            judge(
                alloc, program, graph, job, header, cutter, input, limits, steps,
            )
        }
        ProgramName::Tree { source } => {
            let program = &Tree::new(source);
            judge(
                alloc, program, graph, job, header, cutter, input, limits, steps,
            )
        }
    }
}
