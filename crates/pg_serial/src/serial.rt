//! The serial machine.
ghost use Rattle.std.specs.Prelude.{◌≡◌, ℕ, ◌+◌, ◌<◌, ◌≤◌, ◌^◌, ◌*◌, ◌||◌, ◌==◌, true, length};
ghost use Rattle.std.specs.Prelude.{flat_map, All, IfOk, OnOk, OnErr};
ghost use Rattle.std.specs.Prelude.{IsErrOf, if◌then◌else◌};
ghost use Rattle.std.specs.Io.KnownBytes.{append_known};
ghost use Rattle.pg_serial.specs.Neighbours.{AreNeighbours};
ghost use Rattle.pg_base.specs.Faults.{HasRisen};
ghost use Rattle.pg_base.specs.Writing.{SendsFront};
ghost use Rattle.pg_law.specs.declared.async_end.AsyncError.TheVariants.{WriteFault};
ghost use Rattle.pg_law.specs.Configuration.{Configuration, IsFit, is_signalled};
ghost use Rattle.pg_law.specs.Round.{execution};
ghost use Rattle.pg_law.specs.Rounds.{end_of};
ghost use Rattle.pg_law.specs.Journal.{replay as replay_of};
ghost use Rattle.pg_serial.specs.Bits.{has};
ghost use Rattle.pg_serial.specs.Journals.{gather_degree, gathers_over};
ghost use Rattle.pg_serial.specs.Queue.{HasSignalled, IsNextOf};
ghost use Rattle.pg_serial.specs.Sending.{reaches};
ghost use Rattle.pg_serial.specs.Serial.{entry_after, serial_journal, IsSerialJournal};

use crate::entries::{ROOM, flush, put_entry};
use crate::execution::execute_beside;
use crate::neighbours::Neighbours;
use crate::scatter::Sent;
use crate::signal_set::SignalSet;
use pg_base::Sink;
use pg_graph::Graph;
use pg_law::{AsyncEnd, AsyncError, End, EntryText, JournalEntry, State, Steps, VertexProgram};
use std::alloc::{AllocError, Global};
use std::sync::ledger::Ledger;

/// The signalled vertices of a state.
fn queue_of(alloc: Global, graph: &Graph, state: &State) -> Result<SignalSet, AllocError>
    requires { length state.now.messages ≡ length graph.now.ids }
    ensures room { IfOk result (λ queue. length graph.now.ids ≤ 64 * length queue) }
    ensures queue { IfOk result (λ queue. HasSignalled queue state.now) }
{
    let mut queue = SignalSet::new(alloc, graph.vertices())?;
    for v in 0..graph.vertices() {
        if state.messages[v as usize].is_some() {
            queue.insert(v);
        }
    }
    Ok(queue)
}

/// After an execution of `u`: it stays where it is signalled again, and those come to whom it sent.
fn requeue(queue: &mut SignalSet, u: u32, again: bool, sents: &[Sent])
    requires here { has queue.old u ≡ true }
    requires room { All (λ sent. sent.to < 64 * length queue.old) sents.now }
    ensures has { (v : ℕ) → has queue.new v ≡
        ((if v == u then again else has queue.old v) || reaches v sents.now) }
    ensures room { length queue.new ≡ length queue.old }
{
    if !again {
        queue.remove(u);
    }
    for sent in sents {
        if sent.signal.is_some() {
            queue.insert(sent.to);
        }
    }
}

/// The vertex that executes next, where so many executions are left.
fn next(queue: &SignalSet, _graph: &Graph, _state: &State, left: u32) -> Option<u32>
    requires messages { length _state.now.messages ≡ length _graph.now.ids }
    requires queue { HasSignalled queue.now _state.now }
    ensures { IsNextOf _graph.now _state.now left result }
{
    if left == 0 { None } else { queue.least() }
}

/// How a run ends in this state.
fn ending(queue: &SignalSet, _graph: &Graph, _state: &State) -> End
    requires messages { length _state.now.messages ≡ length _graph.now.ids }
    requires queue { HasSignalled queue.now _state.now }
    ensures { result ≡ end_of _graph.now _state.now }
{
    match queue.least() {
        None => End::Quiescent,
        Some(_) => End::Spent,
    }
}

/// The entry of an execution of `u` that left this state.
fn entry_of(state: &State, u: u32) -> JournalEntry
    requires { u < length state.now.values }
    ensures { result ≡ entry_after state.now u }
{
    JournalEntry {
        vertex: u,
        datum: state.values[u as usize],
    }
}

/// Executes the signalled vertex `u`, and answers over how many edges it gathered.
fn serial_step<P: VertexProgram, L: Ledger>(
    alloc: Global,
    program: &P,
    graph: &Graph,
    neighbours: &Neighbours,
    state: &mut State,
    queue: &mut SignalSet,
    u: u32,
    sents: &mut Vec<Sent>,
    steps: &mut Steps<L>,
) -> Result<u64, AllocError>
    requires fit { IsFit (P.meaning program.now) graph.now state.old }
    requires neighbours { AreNeighbours graph.now neighbours.now }
    requires u { u < length graph.now.ids }
    requires signalled { is_signalled state.old u ≡ true }
    requires room { length graph.now.ids ≤ 64 * length queue.old }
    requires queue { HasSignalled queue.old state.old }
    ensures state { let p = P.meaning program.now in
        OnOk result (state.new ≡ execution p graph.now state.old u) }
    ensures fit { OnOk result (IsFit (P.meaning program.now) graph.now state.new) }
    ensures gathers { IfOk result (λ gathers.
        gathers ≡ gather_degree (P.meaning program.now) graph.now u) }
    ensures few { IfOk result (λ gathers. gathers ≤ 2 ^ 24) }
    ensures counted { IfOk result (λ gathers. steps.new ≡ steps.old + gathers) }
    ensures room { OnOk result (length queue.new ≡ length queue.old) }
    ensures queue { OnOk result (HasSignalled queue.new state.new) }
{
    let message = state.messages[u as usize].unwrap();
    let gathers = execute_beside(
        alloc, program, graph, neighbours, state, u, message, sents, steps,
    )?;
    requeue(
        queue,
        u,
        state.messages[u as usize].is_some(),
        sents.as_slice(),
    );
    Ok(gathers)
}

/// Executes the signalled vertex of least number each time, at most `fuel` times, and appends the
/// text of each entry to `journal`.
///
/// An execution costs the edges at its vertex, and the next vertex is found in a few steps. The
/// texts are written in pieces of some KiB. After an error the state is given up, and the sink
/// has a front of the texts: `WriteFault` comes only where its count of faults rose.
pub fn run_serial<P: VertexProgram, K: Sink, T: EntryText, L: Ledger>(
    alloc: Global,
    program: &P,
    graph: &Graph,
    state: State,
    fuel: u32,
    journal: &mut K,
    text: &T,
    steps: &mut Steps<L>,
) -> Result<AsyncEnd, AsyncError>
    requires { IsFit (P.meaning program.now) graph.now state }
    // The journal is a function of the program, the graph, the state and the fuel.
    ensures journal { let p = P.meaning program.now in
        IsSerialJournal p graph.now state fuel (serial_journal p graph.now state fuel) }
    ensures written { let entries = serial_journal (P.meaning program.now) graph.now state fuel in
        OnOk result (K.written journal.new ≡
        append_known (K.written journal.old) (flat_map (T.text text.now graph.now) entries)) }
    ensures state { let p = P.meaning program.now in
        IfOk result (λ end.
        end.state ≡ replay_of p graph.now state (serial_journal p graph.now state fuel)) }
    ensures executions { let p = P.meaning program.now in
        IfOk result (λ end. end.executions ≡ length (serial_journal p graph.now state fuel)) }
    ensures gathers { let p = P.meaning program.now in
        IfOk result (λ end.
        end.gathers ≡ gathers_over p graph.now (serial_journal p graph.now state fuel)) }
    ensures counted { IfOk result (λ end. steps.new ≡ steps.old + end.gathers) }
    ensures end { IfOk result (λ end. end.end ≡ end_of graph.now end.state) }
    ensures fit { IfOk result (λ end. IsFit (P.meaning program.now) graph.now end.state) }
    ensures front { let entries = serial_journal (P.meaning program.now) graph.now state fuel in
        OnErr result (SendsFront (K.written journal.old) (K.written journal.new)
        (flat_map (T.text text.now graph.now) entries)) }
    ensures fault { IsErrOf result WriteFault →
        HasRisen (K.faults journal.old) (K.faults journal.new) }
    ensures later { K.faults journal.old ≤ K.faults journal.new }
{
    let mut state = state;
    let neighbours = Neighbours::of(alloc, graph)?;
    let mut queue = queue_of(alloc, graph, &state)?;
    let mut waiting = Vec::with_capacity(alloc, ROOM)?;
    let mut sents = Vec::new(alloc);
    let mut gathers = 0u64;
    let mut left = fuel;
    while let Some(u) = next(&queue, graph, &state, left) {
        gathers += serial_step(
            alloc,
            program,
            graph,
            &neighbours,
            &mut state,
            &mut queue,
            u,
            &mut sents,
            steps,
        )?;
        put_entry(journal, &mut waiting, text, graph, entry_of(&state, u))?;
        left -= 1;
    }
    flush(journal, &mut waiting)?;
    let end = ending(&queue, graph, &state);
    Ok(AsyncEnd {
        state,
        executions: u64::from(fuel - left),
        gathers,
        end,
    })
}
