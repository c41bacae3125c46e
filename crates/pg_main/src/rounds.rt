//! Rounds of a program, by one worker or over a cut, and their report.
ghost use Rattle.std.specs.Prelude.{◌≡◌, ◌+◌, ◌<◌, ◌≤◌, Bool, false, List, [], length, IfOk, IsTrue};
ghost use Rattle.pg_graph.specs.Multigraph.{Multigraph};
ghost use Rattle.pg_cut.specs.Cut.{Division, IsCutOf};
ghost use Rattle.pg_law.specs.declared.values.JournalEntry.{JournalEntry};
ghost use Rattle.pg_words.specs.declared.job.Engine.{Engine as Machine};
ghost use Rattle.pg_words.specs.declared.job.Engine.TheVariants.{Sync};
ghost use Rattle.pg_main.specs.Answers.{Reports};
ghost use Rattle.pg_main.specs.Counters.{ArePresent, FirstTakes, Take};
ghost use Rattle.pg_main.specs.Cuts.{cut_by, is_alone, gathers_by, worker_gathers};
ghost use Rattle.pg_check.specs.Outcomes.{outcome_with, outcome_by, left_by, left_of};
ghost use Rattle.pg_sync.specs.Kept.{NeverClears};

use crate::cut::divide;
use crate::refusal::Refusal;
use pg_base::{Gate, Sink};
use pg_graph::Graph;
use pg_law::{End, State, Steps, VertexProgram, laws_of};
use pg_report::{LastLine, write_head, write_tail};
use pg_rounds::run_gated_rounds;
use pg_sync::SyncEngine;
use pg_sync::laws::distinct_gathers;
use pg_words::{CutKind, EngineName, ProgramName};
use std::alloc::{AllocError, Global};
use std::sync::ledger::Ledger;
use std::thread::Threads;

/// What rounds left, and how they ended.
#[derive(Drop)]
struct Ended {
    pub state: State,
    pub last: LastLine,
}

/// Rounds of a program from its start, at most `limit`, by one worker.
fn rounds<P: VertexProgram, G: Gate, L: Ledger>(
    alloc: Global,
    program: &P,
    graph: &Graph,
    limit: u32,
    gate: &G,
    steps: &mut Steps<L>,
) -> Result<Ended, AllocError>
    ensures outcome { IfOk result (λ ended. outcome_with [] ended.state ended.last ≡
        outcome_by (P.meaning program.now) graph.now (Sync limit) []) }
    ensures values { IfOk result (λ ended. length ended.state.values ≡ length graph.now.ids) }
    ensures messages { IfOk result (λ ended. length ended.state.messages ≡ length graph.now.ids) }
    ensures counted { IfOk result (λ ended. steps.new ≡ steps.old + ended.last.gathers) }
{
    let mut state = State::start(alloc, program, graph)?;
    let end = run_gated_rounds(alloc, program, graph, &mut state, limit, gate, steps)?;
    Ok(Ended {
        state,
        last: LastLine {
            end: end.end,
            rounds: Some(end.rounds),
            executions: end.executions,
            gathers: end.gathers,
        },
    })
}

/// The same with the first of the workers' counters, which takes the gathers.
fn rounds_alone<P: VertexProgram, G: Gate, L: Ledger>(
    alloc: Global,
    program: &P,
    graph: &Graph,
    limit: u32,
    gate: &G,
    steps: &mut [Option<Steps<L>>],
) -> Result<Ended, AllocError>
    requires some { 0 < length steps.old }
    requires present { ArePresent steps.old }
    ensures outcome { IfOk result (λ ended. outcome_with [] ended.state ended.last ≡
        outcome_by (P.meaning program.now) graph.now (Sync limit) []) }
    ensures values { IfOk result (λ ended. length ended.state.values ≡ length graph.now.ids) }
    ensures messages { IfOk result (λ ended. length ended.state.messages ≡ length graph.now.ids) }
    ensures counted { IfOk result (λ ended. FirstTakes steps.old steps.new ended.last.gathers) }
    ensures present { ArePresent steps.new }
{
    let mut counter = steps[0].take().unwrap();
    let ended = rounds(alloc, program, graph, limit, gate, &mut counter);
    steps[0] = Some(counter);
    ended
}

/// Rounds of a program from its start, at most `limit`, over a cut: each worker gathers and scatters over its own
/// edges, and has a counter. With a `cache` the masters keep gathers.
fn rounds_over<R: Threads + Sync, P: VertexProgram, G: Gate, L: Ledger + Send>(
    rt: &R,
    alloc: Global,
    program: &P,
    graph: &Graph,
    workers: u8,
    kind: CutKind,
    cache: bool,
    limit: u32,
    gate: &G,
    steps: &mut [Option<Steps<L>>],
) -> Result<Ended, AllocError>
    requires some { 1 ≤ workers }
    requires few { workers ≤ 64 }
    requires shared { is_alone cache workers ≡ false }
    requires deltas { IsTrue cache → IsTrue (P.meaning program.now).keeps_deltas }
    requires never { IsTrue cache → NeverClears (P.meaning program.now) }
    requires enough { 64 ≤ length steps.old }
    requires present { ArePresent steps.old }
    ensures outcome { IfOk result (λ ended. outcome_with [] ended.state ended.last ≡
        left_by (P.meaning program.now) graph.now (Sync limit) cache []) }
    ensures values { IfOk result (λ ended. length ended.state.values ≡ length graph.now.ids) }
    ensures messages { IfOk result (λ ended. length ended.state.messages ≡ length graph.now.ids) }
    ensures counted { IfOk result (λ _. Take steps.old steps.new (gathers_by
        (P.meaning program.now) (Sync limit) cache graph.now (cut_by kind workers graph.now))) }
    ensures present { ArePresent steps.new }
{
    laws_of(program);
    distinct_gathers(program);
    let _ = graph.vertices();
    let cut = divide(alloc, graph, workers, kind)?.cut;
    let state = State::start(alloc, program, graph)?;
    let (own, _) = steps.split_at_mut(workers as usize);
    let end = SyncEngine::run(
        rt, alloc, program, graph, &cut, state, cache, limit, gate, own,
    )?;
    Ok(Ended {
        state: end.state,
        last: LastLine {
            end: end.end,
            rounds: Some(end.rounds),
            executions: end.executions,
            gathers: end.gathers,
        },
    })
}

/// Rounds of a program from its start, at most `limit`. One worker that keeps no gathers needs no cut.
fn rounds_by<R: Threads + Sync, P: VertexProgram, G: Gate, L: Ledger + Send>(
    rt: &R,
    alloc: Global,
    program: &P,
    graph: &Graph,
    workers: u8,
    kind: CutKind,
    cache: bool,
    limit: u32,
    gate: &G,
    steps: &mut [Option<Steps<L>>],
) -> Result<Ended, AllocError>
    requires some { 1 ≤ workers }
    requires few { workers ≤ 64 }
    requires deltas { IsTrue cache → IsTrue (P.meaning program.now).keeps_deltas }
    requires never { IsTrue cache → NeverClears (P.meaning program.now) }
    requires enough { 64 ≤ length steps.old }
    requires present { ArePresent steps.old }
    ensures outcome { IfOk result (λ ended. outcome_with [] ended.state ended.last ≡
        left_by (P.meaning program.now) graph.now (Sync limit) cache []) }
    ensures values { IfOk result (λ ended. length ended.state.values ≡ length graph.now.ids) }
    ensures messages { IfOk result (λ ended. length ended.state.messages ≡ length graph.now.ids) }
    ensures counted { IfOk result (λ _. Take steps.old steps.new (gathers_by
        (P.meaning program.now) (Sync limit) cache graph.now (cut_by kind workers graph.now))) }
    ensures present { ArePresent steps.new }
{
    if alone(cache, workers) {
        rounds_alone(alloc, program, graph, limit, gate, steps)
    } else {
        rounds_over(
            rt, alloc, program, graph, workers, kind, cache, limit, gate, steps,
        )
    }
}

/// Whether one worker makes the rounds on the plain edge list.
fn alone(cache: bool, workers: u8) -> bool
    ensures { result ≡ is_alone cache workers }
{
    !cache && workers == 1
}

/// Runs rounds of a program, which has this name, and writes their report.
pub fn report_rounds<R: Threads + Sync, P: VertexProgram, K: Sink, G: Gate, L: Ledger + Send>(
    rt: &R,
    alloc: Global,
    program: &P,
    name: ProgramName,
    limit: u32,
    workers: u8,
    kind: CutKind,
    cache: bool,
    graph: &Graph,
    out: &mut K,
    gate: &G,
    steps: &mut [Option<Steps<L>>],
) -> Result<End, Refusal>
    requires named { (engine : Machine) (kept : Bool) (g : Multigraph) (entries : List JournalEntry)
        → left_by (P.meaning program.now) g engine kept entries
        ≡ left_of name engine kept g entries }
    requires counts { (engine : Machine) (kept : Bool) (g : Multigraph) (cut : Division)
        (worker : _) →
        gathers_by (P.meaning program.now) engine kept g cut worker
        ≡ worker_gathers name engine kept g cut worker }
    requires deltas { IsTrue cache → IsTrue (P.meaning program.now).keeps_deltas }
    requires never { IsTrue cache → NeverClears (P.meaning program.now) }
    requires some { 1 ≤ workers }
    requires few { workers ≤ 64 }
    requires enough { 64 ≤ length steps.old }
    requires present { ArePresent steps.old }
    ensures { Reports name (Sync limit) cache graph.now
        (worker_gathers name (Sync limit) cache graph.now (cut_by kind workers graph.now))
        (K.written out.old) (K.written out.new) (K.faults out.old) (K.faults out.new)
        steps.old steps.new result }
{
    let ended = rounds_by(
        rt, alloc, program, graph, workers, kind, cache, limit, gate, steps,
    )?;
    write_head(out, EngineName::Sync, name, graph)?;
    write_tail(out, name, graph, &ended.state, ended.last)?;
    Ok(ended.last.end)
}
