//! Actors that execute a program in an order drawn from a seed, and its report.
ghost use Rattle.std.specs.Prelude.{◌≡◌, ℕ, ◌≤◌, ◌<◌, Bool, List, length, IfOk, OnOk, OnErr, IsErrOf, IsTrue};
ghost use Rattle.pg_base.specs.Faults.{HasRisen};
ghost use Rattle.pg_graph.specs.Multigraph.{Multigraph};
ghost use Rattle.pg_law.specs.Configuration.{start_state, IsFit};
ghost use Rattle.pg_law.specs.declared.async_end.AsyncError.TheVariants.{WriteFault};
ghost use Rattle.pg_law.specs.declared.values.JournalEntry.{JournalEntry};
ghost use Rattle.pg_cut.specs.Cut.{IsCutOf};
ghost use Rattle.pg_journal.specs.Entry.{entry_line};
ghost use Rattle.pg_words.specs.declared.job.Engine.{Engine as Machine};
ghost use Rattle.pg_words.specs.declared.job.Engine.TheVariants.{Virtual};
ghost use Rattle.pg_virtual.specs.Interleaved.{Ran, RanInPart};
ghost use Rattle.pg_check.specs.Outcomes.{HasJournal, HasJournalOf, left_by, left_of};
ghost use Rattle.pg_main.specs.Answers.{Reports};
ghost use Rattle.pg_main.specs.Counters.{ArePresent, FirstRises};

use crate::cut::divide;
use crate::refusal::Refusal;
use pg_base::Sink;
use pg_cut::Cut;
use pg_graph::Graph;
use pg_journal::JournalText;
use pg_law::{AsyncEnd, AsyncError, End, State, Steps, VertexProgram};
use pg_report::{LastLine, write_head, write_tail};
use pg_virtual::run_virtual;
use pg_words::{CutKind, EngineName, ProgramName};
use std::alloc::Global;
use std::sync::ledger::Ledger;

/// Lets the actors of a cut execute, from the start of the program, and appends the entries' lines. The first of
/// the workers' counters takes the gathers.
fn execute_beside<P: VertexProgram, K: Sink, L: Ledger>(
    alloc: Global,
    program: &P,
    wide: bool,
    graph: &Graph,
    cut: &Cut,
    state: State,
    cache: bool,
    fuel: u32,
    seed: u64,
    out: &mut K,
    steps: &mut [Option<Steps<L>>],
) -> Result<AsyncEnd, AsyncError>
    requires cut { IsCutOf graph.now cut.now }
    requires start { state ≡ start_state (P.meaning program.now) graph.now }
    requires fit { IsFit (P.meaning program.now) graph.now state }
    requires deltas { IsTrue cache → IsTrue (P.meaning program.now).keeps_deltas }
    requires some { 0 < length steps.old }
    requires present { ArePresent steps.old }
    ensures ran { let p = P.meaning program.now in IfOk result (λ ended. Ran p graph.now
        (entry_line graph.now wide) (start_state p graph.now) fuel cache (K.written out.old)
        (K.written out.new) ended) }
    ensures part { let p = P.meaning program.now in OnErr result (RanInPart p graph.now
        (entry_line graph.now wide) (start_state p graph.now) fuel (K.written out.old)
        (K.written out.new)) }
    ensures values { IfOk result (λ ended. length ended.state.values ≡ length graph.now.ids) }
    ensures messages { IfOk result (λ ended. length ended.state.messages ≡ length graph.now.ids) }
    ensures counted { OnOk result (FirstRises steps.old steps.new) }
    ensures fault { IsErrOf result WriteFault → HasRisen (K.faults out.old) (K.faults out.new) }
    ensures later { K.faults out.old ≤ K.faults out.new }
    ensures present { ArePresent steps.new }
{
    let mut counter = steps[0].take().unwrap();
    let text = JournalText { wide };
    let ended = run_virtual(
        alloc,
        program,
        graph,
        cut,
        state,
        cache,
        fuel,
        seed,
        out,
        &text,
        &mut counter,
    );
    steps[0] = Some(counter);
    ended
}

/// Runs a program, which has this name, by as many actors as workers over a cut, and writes its report. With a
/// `cache` gathers are kept from one execution of a vertex to the next.
pub fn report_virtual<P: VertexProgram, K: Sink, L: Ledger>(
    alloc: Global,
    program: &P,
    name: ProgramName,
    fuel: u32,
    seed: u64,
    workers: u8,
    kind: CutKind,
    cache: bool,
    graph: &Graph,
    out: &mut K,
    steps: &mut [Option<Steps<L>>],
) -> Result<End, Refusal>
    requires named { (engine : Machine) (kept : Bool) (g : Multigraph) (entries : List JournalEntry)
        → left_by (P.meaning program.now) g engine kept entries
        ≡ left_of name engine kept g entries }
    requires legal { (engine : Machine) (g : Multigraph) (entries : List JournalEntry) →
        HasJournal (P.meaning program.now) g engine entries
        → HasJournalOf name engine g entries }
    requires deltas { IsTrue cache → IsTrue (P.meaning program.now).keeps_deltas }
    requires least { 1 ≤ workers }
    requires most { workers ≤ 64 }
    requires some { 0 < length steps.old }
    requires present { ArePresent steps.old }
    ensures { (gathers : ℕ → ℕ) → Reports name (Virtual fuel seed) cache graph.now gathers
        (K.written out.old) (K.written out.new) (K.faults out.old) (K.faults out.new)
        steps.old steps.new result }
{
    let state = State::start(alloc, program, graph)?;
    let cut = divide(alloc, graph, workers, kind)?.cut;
    write_head(out, EngineName::Async, name, graph)?;
    let ended = execute_beside(
        alloc,
        program,
        name.wide(),
        graph,
        &cut,
        state,
        cache,
        fuel,
        seed,
        out,
        steps,
    )?;
    let last = LastLine {
        end: ended.end,
        rounds: None,
        executions: ended.executions,
        gathers: ended.gathers,
    };
    write_tail(out, name, graph, &ended.state, last)?;
    Ok(last.end)
}
