//! The course of a check: what was compared so far, and what the run has come to.
ghost use Rattle.std.specs.Prelude.{◌≡◌, ◌+◌, ◌<◌, ◌≤◌, ◌^◌, ◌*◌, ◌==◌, ◌||◌, true, [], Some, None, length, IfOk, if◌then◌else◌};
ghost use Rattle.pg_base.specs.Shown.{shown};
ghost use Rattle.pg_law.specs.Configuration.{IsFit, is_quiet};
ghost use Rattle.pg_check.specs.Course.{last_of, told_gathers, at_place, IsTailPlace, IsNoEntry, IsCourse, IsTaken};
ghost use Rattle.pg_check.specs.Verdicts.{counts_once};
ghost use Rattle.pg_check.specs.declared.place.Place.TheVariants.{Counts, Journal, Tail as Behind};

use crate::compare::stands;
use crate::entry::{Found, find_entry};
use crate::place::{Place, Tally};
use crate::tail::{TailPlace, line_at, value_from};
use crate::told::{counts_once, told};
use crate::verdict::Verdict;
use pg_base::RawLine;
use pg_graph::Graph;
use pg_law::{End, State, Steps, VertexProgram};
use pg_report::{LastLine, ReportLine};
use pg_rounds::{note, nothing_signalled};
use pg_serial::Sent;
use pg_words::{Engine, RunJob};
use std::alloc::{AllocError, Global};
use std::sync::ledger::Ledger;

/// How far a report was compared.
///
/// `state` is that of rounds at their end, and that of a journal behind its last entry. `last` is the
/// last line, which is known from the start for rounds, and behind the journal for executions, and
/// `made` is over how many edges they gathered. `noted` has a mark for each vertex, whether it was
/// executed, where the report counts each once, and else no mark.
#[derive(Drop)]
pub struct Course {
    pub place: Place,
    pub state: State,
    pub last: LastLine,
    pub noted: Vec<bool>,
    pub made: u64,
}

/// How a journal ended, where it may end: nothing is signalled, or no fuel is left.
fn close<P: VertexProgram>(
    program: &P,
    graph: &Graph,
    state: &State,
    tally: Tally,
    kept: bool,
    noted: &[bool],
) -> Option<LastLine>
    requires messages { length state.now.messages ≡ length graph.now.ids }
    requires marks { kept ≡ true → length noted.now ≡ length graph.now.ids }
    ensures { let p = P.meaning program.now in
        result ≡ (if is_quiet graph.now state.now || (tally.left == 0)
        then Some (last_of graph.now state.now tally.executions
        (told_gathers p graph.now kept noted.now tally.gathers [])) else None) }
{
    let quiet = nothing_signalled(graph, state);
    if !quiet && tally.left > 0 {
        return None;
    }
    Some(LastLine {
        end: if quiet { End::Quiescent } else { End::Spent },
        rounds: None,
        executions: tally.executions,
        gathers: told(program, graph, kept, noted, tally.gathers),
    })
}

/// A line behind the journal, or the end of the report. Clauses alone speak of the program.
fn take_tail<P: VertexProgram>(
    _program: &P,
    graph: &Graph,
    job: &RunJob,
    course: &mut Course,
    at: TailPlace,
    line: Option<RawLine<'_>>,
    number: u64,
) -> Option<Verdict>
    requires fit { IsFit (P.meaning _program.now) graph.now course.old.state }
    requires marks { counts_once job.now ≡ true
        → length course.old.noted.items ≡ length graph.now.ids }
    requires place { IsTailPlace graph.now at }
    ensures { IsTaken (P.meaning _program.now) job.now.program graph.now job.now.engine
        (counts_once job.now) (at_place course.old (Behind at)) course.new 0 0
        (shown line.entry) number result }
{
    match line_at(at, job.program, graph, &course.state, course.last) {
        None => match line {
            None => Some(Verdict::Confirmed),
            Some(_) => Some(Verdict::Rejected { line: number }),
        },
        Some(expected) => {
            if stands(line, expected.line) {
                course.place = Place::Tail { at: expected.next };
                None
            } else {
                Some(Verdict::Rejected { line: number })
            }
        }
    }
}

/// The counts of the graph. Clauses alone speak of the program.
fn take_counts<P: VertexProgram>(
    _program: &P,
    graph: &Graph,
    job: &RunJob,
    course: &mut Course,
    line: Option<RawLine<'_>>,
    number: u64,
) -> Option<Verdict>
    requires course { IsCourse (P.meaning _program.now) job.now.program graph.now
        (counts_once job.now) course.old }
    requires place { course.old.place ≡ Counts }
    ensures { IsTaken (P.meaning _program.now) job.now.program graph.now job.now.engine
        (counts_once job.now) course.old course.new 0 0 (shown line.entry) number result }
{
    let counts = ReportLine::Counts {
        vertices: graph.vertices(),
        edges: graph.edges().len() as u32,
        loops: graph.loops(),
    };
    if !stands(line, counts) {
        return Some(Verdict::Rejected { line: number });
    }
    course.place = match job.engine {
        Engine::Sync { .. } => Place::Tail {
            at: value_from(graph, &course.state, 0),
        },
        Engine::Serial { fuel } => Place::Journal {
            tally: Tally::full(fuel),
        },
        Engine::Virtual { fuel, .. } => Place::Journal {
            tally: Tally::full(fuel),
        },
    };
    None
}

/// The first line behind a journal, which ends there.
fn take_behind<P: VertexProgram>(
    program: &P,
    graph: &Graph,
    job: &RunJob,
    course: &mut Course,
    tally: Tally,
    line: Option<RawLine<'_>>,
    number: u64,
) -> Option<Verdict>
    requires fit { IsFit (P.meaning program.now) graph.now course.old.state }
    requires marks { counts_once job.now ≡ true
        → length course.old.noted.items ≡ length graph.now.ids }
    requires place { course.old.place ≡ Journal tally }
    requires none { IsNoEntry (P.meaning program.now) job.now.program graph.now course.old.state
        tally.left (shown line) }
    ensures { IsTaken (P.meaning program.now) job.now.program graph.now job.now.engine
        (counts_once job.now) course.old course.new 0 0 (shown line.entry) number result }
{
    let kept = counts_once(job);
    let noted = course.noted.as_slice();
    let Some(last) = close(program, graph, &course.state, tally, kept, noted) else {
        return Some(Verdict::Rejected { line: number });
    };
    course.last = last;
    course.made = tally.gathers;
    let at = value_from(graph, &course.state, 0);
    take_tail(program, graph, job, course, at, line, number)
}

/// One more entry of a journal, or the first line behind it.
fn take_entry<P: VertexProgram, L: Ledger>(
    alloc: Global,
    program: &P,
    graph: &Graph,
    job: &RunJob,
    course: &mut Course,
    tally: Tally,
    line: Option<RawLine<'_>>,
    number: u64,
    sents: &mut Vec<Sent>,
    steps: &mut Steps<L>,
) -> Result<Option<Verdict>, AllocError>
    requires course { IsCourse (P.meaning program.now) job.now.program graph.now
        (counts_once job.now) course.old }
    requires place { course.old.place ≡ Journal tally }
    ensures { IfOk result (IsTaken (P.meaning program.now) job.now.program graph.now job.now.engine
        (counts_once job.now) course.old course.new steps.old steps.new (shown line.entry)
        number) }
{
    let state = &mut course.state;
    let name = job.program;
    match find_entry(
        alloc, program, name, graph, state, line, tally.left, sents, steps,
    )? {
        Found::Entry { vertex, gathers } => {
            note(course.noted.as_mut_slice(), vertex);
            course.place = Place::Journal {
                tally: tally.with(gathers),
            };
            Ok(None)
        }
        Found::WrongEntry => Ok(Some(Verdict::Rejected { line: number })),
        Found::Other => Ok(take_behind(program, graph, job, course, tally, line, number)),
    }
}

/// Takes the next line of a report, or its end. The number of the line is that in the report.
///
/// None says that the line is right and the report goes on. The caller keeps `sents` for the next.
pub fn take<P: VertexProgram, L: Ledger>(
    alloc: Global,
    program: &P,
    graph: &Graph,
    job: &RunJob,
    course: &mut Course,
    line: Option<RawLine<'_>>,
    number: u64,
    sents: &mut Vec<Sent>,
    steps: &mut Steps<L>,
) -> Result<Option<Verdict>, AllocError>
    requires { IsCourse (P.meaning program.now) job.now.program graph.now (counts_once job.now)
        course.old }
    ensures { IfOk result (IsTaken (P.meaning program.now) job.now.program graph.now job.now.engine
        (counts_once job.now) course.old course.new steps.old steps.new (shown line.entry)
        number) }
{
    match course.place {
        Place::Counts => Ok(take_counts(program, graph, job, course, line, number)),
        Place::Journal { tally } => take_entry(
            alloc, program, graph, job, course, tally, line, number, sents, steps,
        ),
        Place::Tail { at } => Ok(take_tail(program, graph, job, course, at, line, number)),
    }
}
