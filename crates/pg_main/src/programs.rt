//! A run of a program that is named.
ghost use Rattle.std.specs.Prelude.{◌≡◌, ◌≤◌, Bool, List, length, IsTrue};
ghost use Rattle.pg_graph.specs.Multigraph.{Multigraph};
ghost use Rattle.pg_cut.specs.Cut.{Division};
ghost use Rattle.pg_law.specs.declared.values.JournalEntry.{JournalEntry};
ghost use Rattle.pg_words.specs.declared.job.Engine.{Engine as Machine};
ghost use Rattle.pg_main.specs.Answers.{Reports};
ghost use Rattle.pg_main.specs.Counters.{ArePresent};
ghost use Rattle.pg_main.specs.Cuts.{gathers_by, worker_gathers, job_cut, job_gathers};
ghost use Rattle.pg_main.specs.Ways.{is_kept};
ghost use Rattle.pg_check.specs.Outcomes.{HasJournal, HasJournalOf, left_by, left_of};
ghost use Rattle.pg_sync.specs.Kept.{NeverClears};
ghost use Rattle.pg_words.specs.Programs.{keeps};

use crate::interleaved::report_virtual;
use crate::refusal::Refusal;
use crate::rounds::report_rounds;
use crate::serial::report_serial;
use pg_base::{Gate, Sink};
use pg_colour::Colour;
use pg_graph::Graph;
use pg_law::{End, Steps, VertexProgram};
use pg_paths::{Components, Sssp, Tree};
use pg_rank::PageRank;
use pg_words::{Engine, ProgramName, RunJob};
use std::alloc::Global;
use std::sync::ledger::Ledger;
use std::thread::Threads;

/// Whether a job keeps gathers: rounds and actors do where it says so, and the program's scatters tell how
/// gathers change.
fn keeps_gathers(job: RunJob) -> bool
    ensures value { result ≡ is_kept job }
    ensures program { IsTrue result → IsTrue (keeps job.program) }
{
    match job.engine {
        Engine::Sync { .. } => job.program.keeps_gathers() && job.cache,
        Engine::Serial { .. } => false,
        Engine::Virtual { .. } => job.program.keeps_gathers() && job.cache,
    }
}

/// Runs a program, which is the one that the job names, and writes the report.
fn report_run<R: Threads + Sync, P: VertexProgram, K: Sink, G: Gate, L: Ledger + Send>(
    rt: &R,
    alloc: Global,
    program: &P,
    job: RunJob,
    graph: &Graph,
    out: &mut K,
    gate: &G,
    steps: &mut [Option<Steps<L>>],
) -> Result<End, Refusal>
    requires named { (engine : Machine) (kept : Bool) (g : Multigraph) (entries : List JournalEntry)
        → left_by (P.meaning program.now) g engine kept entries
        ≡ left_of job.program engine kept g entries }
    requires counts { (engine : Machine) (kept : Bool) (g : Multigraph) (cut : Division)
        (worker : _) →
        gathers_by (P.meaning program.now) engine kept g cut worker
        ≡ worker_gathers job.program engine kept g cut worker }
    requires deltas { IsTrue (keeps job.program) → IsTrue (P.meaning program.now).keeps_deltas }
    requires never { IsTrue (keeps job.program) → NeverClears (P.meaning program.now) }
    requires legal { (engine : Machine) (g : Multigraph) (entries : List JournalEntry) →
        HasJournal (P.meaning program.now) g engine entries
        → HasJournalOf job.program engine g entries }
    requires some { 1 ≤ job.workers }
    requires few { job.workers ≤ 64 }
    requires enough { 64 ≤ length steps.old }
    requires present { ArePresent steps.old }
    ensures { Reports job.program job.engine (is_kept job) graph.now (job_gathers job graph.now)
        (K.written out.old) (K.written out.new) (K.faults out.old) (K.faults out.new)
        steps.old steps.new result }
{
    let name = job.program;
    let kept = keeps_gathers(job);
    match job.engine {
        Engine::Sync { rounds } => report_rounds(
            rt,
            alloc,
            program,
            name,
            rounds,
            job.workers,
            job.kind,
            kept,
            graph,
            out,
            gate,
            steps,
        ),
        Engine::Serial { fuel } => report_serial(alloc, program, name, fuel, graph, out, steps),
        Engine::Virtual { fuel, seed } => report_virtual(
            alloc,
            program,
            name,
            fuel,
            seed,
            job.workers,
            job.kind,
            kept,
            graph,
            out,
            steps,
        ),
    }
}

/// Runs the program that the job names, and writes the report.
pub fn report_named<R: Threads + Sync, K: Sink, G: Gate, L: Ledger + Send>(
    rt: &R,
    alloc: Global,
    job: RunJob,
    graph: &Graph,
    out: &mut K,
    gate: &G,
    steps: &mut [Option<Steps<L>>],
) -> Result<End, Refusal>
    requires some { 1 ≤ job.workers }
    requires few { job.workers ≤ 64 }
    requires enough { 64 ≤ length steps.old }
    requires present { ArePresent steps.old }
    ensures { Reports job.program job.engine (is_kept job) graph.now (job_gathers job graph.now)
        (K.written out.old) (K.written out.new) (K.faults out.old) (K.faults out.new)
        steps.old steps.new result }
{
    match job.program {
        ProgramName::Components => {
            report_run(rt, alloc, &Components::new(), job, graph, out, gate, steps)
        }
        ProgramName::Colour => report_run(rt, alloc, &Colour::new(), job, graph, out, gate, steps),
        ProgramName::Sssp { source } => {
            report_run(rt, alloc, &Sssp::new(source), job, graph, out, gate, steps)
        }
        ProgramName::Rank { tolerance } => report_run(
            rt,
            alloc,
            &PageRank::new(tolerance),
            job,
            graph,
            out,
            gate,
            steps,
        ),
        ProgramName::Tree { source } => {
            report_run(rt, alloc, &Tree::new(source), job, graph, out, gate, steps)
        }
    }
}
