//! A course behind the header of its report.
ghost use Rattle.std.specs.Prelude.{◌≡◌, ℕ, ◌+◌, ◌∷◌, true, false, [], List, length, slice_index_or, IfOk};
ghost use Rattle.pg_law.specs.Configuration.{IsFit, start_state};
ghost use Rattle.pg_law.specs.Rounds.{rounds as rounds_of};
ghost use Rattle.pg_words.specs.declared.job.Engine.TheVariants.{Sync as Rounds};
ghost use Rattle.pg_check.specs.Course.{behind_counts, gathers_from, gathers_made, IsCourse};
ghost use Rattle.pg_check.specs.Outcomes.{left_by};
ghost use Rattle.pg_check.specs.Reports.{ReadLine};
ghost use Rattle.pg_check.specs.Verdicts.{judges, gathers_by, counts_once};
ghost use Rattle.pg_check.specs.declared.place.Place.TheVariants.{Counts};

use crate::course::Course;
use crate::place::Place;
use crate::told::{blank_marks, counts_once, told};
use pg_base::NoGate;
use pg_graph::Graph;
use pg_law::{End, State, Steps, VertexProgram};
use pg_report::LastLine;
use pg_rounds::run_noted_rounds;
use pg_words::{Engine, RunJob};
use std::alloc::{AllocError, Global};
use std::sync::ledger::Ledger;

/// The course of the report of rounds, which are made here, behind its header.
fn begin_rounds<P: VertexProgram, L: Ledger>(
    alloc: Global,
    program: &P,
    graph: &Graph,
    limit: u32,
    kept: bool,
    steps: &mut Steps<L>,
) -> Result<Course, AllocError>
    ensures place { IfOk result (λ course. course.place ≡ Counts) }
    ensures state { let p = P.meaning program.now in IfOk result (λ course. course.state
        ≡ (left_by p graph.now (Rounds limit) kept []).state) }
    ensures last { let p = P.meaning program.now in IfOk result (λ course. course.last
        ≡ (left_by p graph.now (Rounds limit) kept []).last) }
    ensures fit { let p = P.meaning program.now in
        IfOk result (λ course. IsFit p graph.now course.state) }
    ensures marks { IfOk result (λ course. kept ≡ true
        → length course.noted.items ≡ length graph.now.ids) }
    ensures made { let p = P.meaning program.now in IfOk result (λ course. course.made
        ≡ (rounds_of p graph.now (start_state p graph.now) limit).gathers) }
    ensures steps { IfOk result (λ course. steps.new ≡ steps.old + course.made) }
{
    let mut state = State::start(alloc, program, graph)?;
    let mut noted = blank_marks(alloc, graph, kept)?;
    let marks = noted.as_mut_slice();
    let end = run_noted_rounds(
        alloc, program, graph, &mut state, limit, &NoGate, marks, steps,
    )?;
    let gathers = told(program, graph, kept, noted.as_slice(), end.gathers);
    let last = LastLine {
        end: end.end,
        rounds: Some(end.rounds),
        executions: end.executions,
        gathers,
    };
    Ok(Course {
        place: Place::Counts,
        state,
        last,
        noted,
        made: end.gathers,
    })
}

/// The course of the report of executions, of which none is made yet, behind its header.
fn begin_journal<P: VertexProgram>(
    alloc: Global,
    program: &P,
    graph: &Graph,
    kept: bool,
) -> Result<Course, AllocError>
    ensures place { IfOk result (λ course. course.place ≡ Counts) }
    ensures state { IfOk result (λ course. course.state
        ≡ start_state (P.meaning program.now) graph.now) }
    ensures fit { let p = P.meaning program.now in
        IfOk result (λ course. IsFit p graph.now course.state) }
    ensures blank { IfOk result (λ course. (v : ℕ)
        → slice_index_or course.noted.items v false ≡ false) }
    ensures marks { IfOk result (λ course. kept ≡ true
        → length course.noted.items ≡ length graph.now.ids) }
{
    let state = State::start(alloc, program, graph)?;
    let noted = blank_marks(alloc, graph, kept)?;
    let last = LastLine {
        end: End::Quiescent,
        rounds: None,
        executions: 0,
        gathers: 0,
    };
    Ok(Course {
        place: Place::Counts,
        state,
        last,
        noted,
        made: 0,
    })
}

/// The course behind the header: the rounds were run, or nothing was executed.
pub fn begin<P: VertexProgram, L: Ledger>(
    alloc: Global,
    program: &P,
    graph: &Graph,
    job: &RunJob,
    steps: &mut Steps<L>,
) -> Result<Course, AllocError>
    ensures place { IfOk result (λ course. course.place ≡ Counts) }
    ensures judge { IfOk result (λ course. (number : ℕ) (lines : List ReadLine) →
        judges (P.meaning program.now) job.now.program graph.now job.now.engine
        (counts_once job.now) number lines
        ≡ behind_counts (P.meaning program.now) job.now.program graph.now job.now.engine
        (counts_once job.now) course number lines) }
    ensures gathers { IfOk result (λ course. (first : ReadLine) (lines : List ReadLine) →
        gathers_by (P.meaning program.now) job.now.program graph.now job.now.engine
        (first ∷ lines)
        ≡ gathers_from (P.meaning program.now) job.now.program graph.now job.now.engine course
        Counts lines) }
    ensures course { IfOk result (IsCourse (P.meaning program.now) job.now.program graph.now
        (counts_once job.now)) }
    ensures made { IfOk result (λ course. steps.new ≡ steps.old +
        gathers_made (P.meaning program.now) job.now.program graph.now job.now.engine course
        Counts) }
{
    let kept = counts_once(job);
    match job.engine {
        Engine::Sync { rounds } => begin_rounds(alloc, program, graph, rounds, kept, steps),
        Engine::Serial { .. } => begin_journal(alloc, program, graph, kept),
        Engine::Virtual { .. } => begin_journal(alloc, program, graph, kept),
    }
}
