//! The serial machine on a program, and its report.
ghost use Rattle.std.specs.Prelude.{◌≡◌, ◌≤◌, ◌<◌, Bool, false, List, length, flat_map, IfOk, OnOk, OnErr, IsErrOf};
ghost use Rattle.std.specs.Io.KnownBytes.{append_known};
ghost use Rattle.pg_base.specs.Faults.{HasRisen};
ghost use Rattle.pg_base.specs.Writing.{SendsFront};
ghost use Rattle.pg_graph.specs.Multigraph.{Multigraph};
ghost use Rattle.pg_law.specs.Configuration.{start_state, IsFit};
ghost use Rattle.pg_law.specs.declared.values.JournalEntry.{JournalEntry};
ghost use Rattle.pg_law.specs.declared.async_end.AsyncError.TheVariants.{WriteFault};
ghost use Rattle.pg_journal.specs.Entry.{entry_line};
ghost use Rattle.pg_words.specs.declared.job.Engine.{Engine as Machine};
ghost use Rattle.pg_words.specs.declared.job.Engine.TheVariants.{Serial};
ghost use Rattle.pg_main.specs.Answers.{Reports};
ghost use Rattle.pg_cut.specs.Cut.{Division};
ghost use Rattle.pg_main.specs.Counters.{ArePresent, FirstTakes};
ghost use Rattle.pg_main.specs.Cuts.{gathers_by, worker_gathers};
ghost use Rattle.pg_check.specs.Outcomes.{outcome_with, outcome_by, journal_of, HasJournal, HasJournalOf, left_by, left_of};

use crate::refusal::Refusal;
use pg_base::Sink;
use pg_graph::Graph;
use pg_journal::JournalText;
use pg_law::{AsyncEnd, AsyncError, End, State, Steps, VertexProgram};
use pg_report::{LastLine, write_head, write_tail};
use pg_serial::run_serial;
use pg_words::{EngineName, ProgramName};
use std::alloc::Global;
use std::sync::ledger::Ledger;

/// Executes the signalled vertex of least number each time, from the start of the program, and
/// appends the entries' lines. The first of the workers' counters takes the gathers.
fn execute_all<P: VertexProgram, K: Sink, L: Ledger>(
    alloc: Global,
    program: &P,
    wide: bool,
    fuel: u32,
    graph: &Graph,
    state: State,
    out: &mut K,
    steps: &mut [Option<Steps<L>>],
) -> Result<AsyncEnd, AsyncError>
    requires start { state ≡ start_state (P.meaning program.now) graph.now }
    requires fit { IsFit (P.meaning program.now) graph.now state }
    requires some { 0 < length steps.old }
    requires present { ArePresent steps.old }
    ensures outcome { let p = P.meaning program.now in let journal = journal_of p graph.now fuel in
        IfOk result (λ ended. outcome_with journal ended.state
        (record {
          end = ended.end;
          rounds = None;
          executions = ended.executions;
          gathers = ended.gathers;
        })
        ≡ outcome_by p graph.now (Serial fuel) journal) }
    ensures legal { let p = P.meaning program.now in
        HasJournal p graph.now (Serial fuel) (journal_of p graph.now fuel) }
    ensures values { IfOk result (λ ended. length ended.state.values ≡ length graph.now.ids) }
    ensures messages { IfOk result (λ ended. length ended.state.messages ≡ length graph.now.ids) }
    ensures counted { IfOk result (λ ended. FirstTakes steps.old steps.new ended.gathers) }
    ensures written { OnOk result (K.written out.new ≡ append_known (K.written out.old)
        (flat_map (entry_line graph.now wide) (journal_of
        (P.meaning program.now) graph.now fuel))) }
    ensures front { OnErr result (SendsFront (K.written out.old) (K.written out.new)
        (flat_map (entry_line graph.now wide) (journal_of
        (P.meaning program.now) graph.now fuel))) }
    ensures fault { IsErrOf result WriteFault → HasRisen (K.faults out.old) (K.faults out.new) }
    ensures later { K.faults out.old ≤ K.faults out.new }
    ensures present { ArePresent steps.new }
{
    let mut counter = steps[0].take().unwrap();
    let text = JournalText { wide };
    let ended = run_serial(alloc, program, graph, state, fuel, out, &text, &mut counter);
    steps[0] = Some(counter);
    ended
}

/// Runs the serial machine on a program, which has this name, and writes its report.
pub fn report_serial<P: VertexProgram, K: Sink, L: Ledger>(
    alloc: Global,
    program: &P,
    name: ProgramName,
    fuel: u32,
    graph: &Graph,
    out: &mut K,
    steps: &mut [Option<Steps<L>>],
) -> Result<End, Refusal>
    requires named { (engine : Machine) (kept : Bool) (g : Multigraph) (entries : List JournalEntry)
        → left_by (P.meaning program.now) g engine kept entries
        ≡ left_of name engine kept g entries }
    requires counts { (engine : Machine) (kept : Bool) (g : Multigraph) (cut : Division)
        (worker : _) →
        gathers_by (P.meaning program.now) engine kept g cut worker
        ≡ worker_gathers name engine kept g cut worker }
    requires legal { (engine : Machine) (g : Multigraph) (entries : List JournalEntry) →
        HasJournal (P.meaning program.now) g engine entries
        → HasJournalOf name engine g entries }
    requires some { 0 < length steps.old }
    requires present { ArePresent steps.old }
    ensures { (cut : Division) → Reports name (Serial fuel) false graph.now
        (worker_gathers name (Serial fuel) false graph.now cut)
        (K.written out.old) (K.written out.new) (K.faults out.old) (K.faults out.new)
        steps.old steps.new result }
{
    let state = State::start(alloc, program, graph)?;
    write_head(out, EngineName::Async, name, graph)?;
    let ended = execute_all(alloc, program, name.wide(), fuel, graph, state, out, steps)?;
    let last = LastLine {
        end: ended.end,
        rounds: None,
        executions: ended.executions,
        gathers: ended.gathers,
    };
    write_tail(out, name, graph, &ended.state, last)?;
    Ok(last.end)
}
