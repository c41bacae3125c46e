//! A run by actors, in an order drawn from a seed.
ghost use Rattle.std.specs.Prelude.{◌≡◌, ◌+◌, ◌≤◌, ◌<◌, ◌⊎◌, [], true, length, IsTrue, IfOk};
ghost use Rattle.std.specs.Prelude.{OnErr, IsErrOf, MatchBool};
ghost use Rattle.pg_base.specs.Faults.{HasRisen};
ghost use Rattle.pg_law.specs.declared.async_end.AsyncError.TheVariants.{WriteFault};
ghost use Rattle.pg_law.specs.Configuration.{IsFit};
ghost use Rattle.pg_law.specs.Rounds.{end_of};
ghost use Rattle.pg_cut.specs.Cut.{IsCutOf};
ghost use Rattle.pg_virtual.specs.Interleaved.{Ran, RanInPart};
ghost use Rattle.pg_virtual.specs.Stretches.{AreFirst};

use crate::play::Play;
use crate::single::{least_of, turn};
use crate::tally::Tally;
use crate::texts::put_entries;
use pg_base::Sink;
use pg_cut::Cut;
use pg_delta::CacheCell;
use pg_graph::Graph;
use pg_law::{AsyncEnd, AsyncError, End, EntryText, State, Steps, VertexProgram};
use pg_meals::table::Closed;
use pg_serial::{ROOM, flush};
use std::alloc::Global;
use std::sync::ledger::Ledger;

/// How many executions a stretch has at most.
const STRETCH: u32 = 262144;

/// The cells at the start of a run: no gather is known.
fn first_cells<A>(alloc: Global, cache: bool) -> Option<Vec<CacheCell<A>>>
    ensures { AreFirst cache result }
{
    if cache { Some(Vec::new(alloc)) } else { None }
}

/// How many entries the next stretch may have, where so many are left.
fn stretch_of(left: u32) -> u32
    ensures within { result ≤ left }
    ensures some { 0 < left → 0 < result }
{
    if left < STRETCH { left } else { STRETCH }
}

/// Whether another stretch follows where so many entries were made, and so many are left.
fn goes_on(made: usize, left: u32) -> bool
    ensures { MatchBool result ((0 < made) × (0 < left)) ((made ≡ 0) ⊎ (left ≡ 0)) }
{
    made > 0 && left > 0
}

/// How a run ends in this state.
fn ending(graph: &Graph, state: &State) -> End
    requires { length state.now.messages ≡ length graph.now.ids }
    ensures { result ≡ end_of graph.now state.now }
{
    match least_of(graph, state) {
        None => End::Quiescent,
        Some(_) => End::Spent,
    }
}

/// Lets as many actors as the cut has workers execute vertices beside each other, by acts in an order
/// that is drawn from the seed, at most `fuel` times, and appends the text of each entry to `journal`.
///
/// The journal is one that executing its entries one after another could have made. With `cache`
/// gathers are kept from one execution of a vertex to the next. After an error the state is given up,
/// and the sink has a front of the texts: `WriteFault` comes only where its count of faults rose.
pub fn run_virtual<P: VertexProgram, K: Sink, T: EntryText, L: Ledger>(
    alloc: Global,
    program: &P,
    graph: &Graph,
    cut: &Cut,
    state: State,
    cache: bool,
    fuel: u32,
    seed: u64,
    journal: &mut K,
    text: &T,
    steps: &mut Steps<L>,
) -> Result<AsyncEnd, AsyncError>
    requires cut { IsCutOf graph.now cut.now }
    requires fit { IsFit (P.meaning program.now) graph.now state }
    requires cache { cache ≡ true → IsTrue (P.meaning program.now).keeps_deltas }
    ensures ran { IfOk result (λ end. Ran (P.meaning program.now) graph.now
        (T.text text.now graph.now)
        state fuel cache (K.written journal.old) (K.written journal.new) end) }
    ensures fit { IfOk result (λ end. IsFit (P.meaning program.now) graph.now end.state) }
    ensures counted { IfOk result (λ _. steps.old ≤ steps.new) }
    ensures part { OnErr result (RanInPart (P.meaning program.now) graph.now
        (T.text text.now graph.now)
        state fuel (K.written journal.old) (K.written journal.new)) }
    ensures fault { IsErrOf result WriteFault →
        HasRisen (K.faults journal.old) (K.faults journal.new) }
    ensures later { K.faults journal.old ≤ K.faults journal.new }
{
    let _ = graph.vertices();
    let mut play = Play::new(alloc, graph, u32::from(cut.workers()), seed)?;
    let mut tally = Tally::new(alloc, graph)?;
    let mut waiting = Vec::with_capacity(alloc, ROOM)?;
    let mut state = state;
    let mut caches = first_cells(alloc, cache);
    let dir = program.gather_edges();
    let mut left = fuel;
    let mut going = goes_on(1, fuel);
    while going {
        let most = stretch_of(left);
        let closed = turn(
            alloc, program, graph, cut, state, caches, &mut play, most, steps,
        )?;
        let entries = closed.journal.as_slice();
        put_entries(journal, &mut waiting, text, graph, entries)?;
        tally.count(graph, dir, entries);
        let made = entries.len();
        left -= made as u32;
        going = goes_on(made, left);
        state = closed.state;
        caches = closed.caches;
    }
    flush(journal, &mut waiting)?;
    let end = ending(graph, &state);
    Ok(AsyncEnd {
        state,
        executions: u64::from(fuel - left),
        gathers: tally.gathers(graph, dir, cache),
        end,
    })
}
