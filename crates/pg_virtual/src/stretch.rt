//! A stretch of a run: the executions over one table.
ghost use Rattle.std.specs.Prelude.{◌≡◌, ◌<◌, ◌≤◌, length, IfOk};
ghost use Rattle.pg_law.specs.Configuration.{IsFit};
ghost use Rattle.pg_cut.specs.Cut.{IsCutOf};
ghost use Rattle.pg_meals.specs.Tables.{AreCaches};
ghost use Rattle.pg_meals.specs.Closing.{AllFree};
ghost use Rattle.pg_virtual.specs.Deeds.{IsFor};
ghost use Rattle.pg_virtual.specs.Stretches.{IsPlayed, IsSeated, IsStretch};

use crate::hand::{Deed, Hand};
use crate::play::Play;
use crate::retire::retire_all;
use pg_cut::Cut;
use pg_delta::CacheCell;
use pg_graph::Graph;
use pg_law::{State, Steps, VertexProgram};
use pg_meals::table::{Closed, MealTable};
use std::alloc::{AllocError, Global};
use std::sync::ledger::Ledger;

/// How many draws for each actor may bring no entry, before a vertex is executed alone.
const DRAWS: u32 = 1024;

/// What a draw brought.
#[derive(Clone, Copy, Debug, PartialEq, Eq)]
enum Drawn {
    Entered,
    Went,
    Nothing,
}

/// The actor does this, if it may.
#[tactic(auto, using(crate::proofs::Same::same_laws))]
fn perform<P: VertexProgram, L: Ledger>(
    alloc: Global,
    table: &mut MealTable<P>,
    actor: u32,
    deed: Deed,
    steps: &mut Steps<L>,
) -> Result<bool, AllocError>
    requires actor { actor < length table.old.board.actors.items }
    requires deed { IsFor table.old.graph deed }
    ensures played { IsPlayed table.old table.new }
    ensures counted { IfOk result (λ _. steps.old ≤ steps.new) }
{
    match deed {
        Deed::Acts { act } => Ok(table.step(actor, act).is_some()),
        Deed::Prepares => table.prepare(alloc, actor, steps),
    }
}

/// After an entry of a vertex, it and those of its neighbours that are signalled are worth an
/// attempt.
fn put_signalled<P: VertexProgram>(
    table: &MealTable<P>,
    graph: &Graph,
    play: &mut Play,
    vertex: u32,
) -> Result<(), AllocError>
    requires graph { table.now.graph ≡ graph.now }
{
    if vertex >= graph.vertices() {
        return Ok(());
    }
    if table.waits_at(vertex) {
        play.put(vertex)?;
    }
    for e in graph.edges_of(vertex) {
        let edge = graph.edges()[*e as usize];
        let other = edge.side(vertex).opposite();
        if table.waits_over(*e, other) {
            play.put(edge.end(other))?;
        }
    }
    Ok(())
}

/// The actor does what its attempt has next. Without an answer it has nothing to do.
#[tactic(auto, using(crate::proofs::Same::same_laws))]
fn go_on<P: VertexProgram, L: Ledger>(
    alloc: Global,
    table: &mut MealTable<P>,
    graph: &Graph,
    play: &mut Play,
    actor: u32,
    steps: &mut Steps<L>,
) -> Result<Option<bool>, AllocError>
    requires actor { actor < length table.old.board.actors.items }
    requires graph { table.old.graph ≡ graph.now }
    ensures played { IsPlayed table.old table.new }
    ensures counted { IfOk result (λ _. steps.old ≤ steps.new) }
{
    let Some(deed) = play.deed(graph, actor) else {
        return Ok(None);
    };
    let made = perform(alloc, table, actor, deed, steps)?;
    let entered = play.note(graph, actor, made)?;
    if entered {
        put_signalled(table, graph, play, play.hand(actor).vertex)?;
    }
    Ok(Some(entered))
}

/// An actor is drawn, and does some deeds, up to an entry.
#[tactic(auto, using(crate::proofs::Same::same_laws))]
fn draw<P: VertexProgram, L: Ledger>(
    alloc: Global,
    table: &mut MealTable<P>,
    graph: &Graph,
    play: &mut Play,
    actors: u32,
    steps: &mut Steps<L>,
) -> Result<Drawn, AllocError>
    requires some { 0 < actors }
    requires seated { IsSeated graph.now actors table.old }
    ensures played { IsPlayed table.old table.new }
    ensures counted { IfOk result (λ _. steps.old ≤ steps.new) }
{
    let actor = play.draw(actors);
    play.refill(actor);
    let mut drawn = Drawn::Nothing;
    for _ in 0..play.go(graph, actor) {
        match go_on(alloc, table, graph, play, actor, steps)? {
            None => return Ok(drawn),
            Some(true) => return Ok(Drawn::Entered),
            Some(false) => drawn = Drawn::Went,
        }
    }
    Ok(drawn)
}

/// The first actor executes a vertex alone, and answers whether it made an entry.
#[tactic(auto, using(crate::proofs::Same::same_laws))]
fn alone<P: VertexProgram, L: Ledger>(
    alloc: Global,
    table: &mut MealTable<P>,
    graph: &Graph,
    play: &mut Play,
    vertex: u32,
    steps: &mut Steps<L>,
) -> Result<bool, AllocError>
    requires actor { 0 < length table.old.board.actors.items }
    requires graph { table.old.graph ≡ graph.now }
    ensures played { IsPlayed table.old table.new }
    ensures counted { IfOk result (λ _. steps.old ≤ steps.new) }
{
    play.set(0, Hand::at(vertex));
    for _ in 0..u32::MAX {
        match go_on(alloc, table, graph, play, 0, steps)? {
            None => return Ok(false),
            Some(true) => return Ok(true),
            Some(false) => {}
        }
    }
    Ok(false)
}

/// The next entry, if there is one.
///
/// Where so many draws bring none, all attempts go back, and the signalled vertex of least rank is
/// executed alone.
#[tactic(auto, using(crate::proofs::Same::same_laws))]
fn next_entry<P: VertexProgram, L: Ledger>(
    alloc: Global,
    table: &mut MealTable<P>,
    graph: &Graph,
    play: &mut Play,
    actors: u32,
    steps: &mut Steps<L>,
) -> Result<bool, AllocError>
    requires some { 0 < actors }
    requires few { actors ≤ 64 }
    requires seated { IsSeated graph.now actors table.old }
    ensures played { IsPlayed table.old table.new }
    ensures counted { IfOk result (λ _. steps.old ≤ steps.new) }
{
    for _ in 0..DRAWS * actors {
        match draw(alloc, table, graph, play, actors, steps)? {
            Drawn::Entered => return Ok(true),
            Drawn::Went => {}
            Drawn::Nothing => {
                if play.is_over() {
                    break;
                }
            }
        }
    }
    retire_all(table, graph, actors);
    play.give_up()?;
    match table.least_signalled() {
        None => Ok(false),
        Some(vertex) => alone(alloc, table, graph, play, vertex, steps),
    }
}

/// Entries are made, so many at most. Then no actor has a vertex in hand.
#[tactic(auto, using(crate::proofs::Same::same_laws))]
fn play_on<P: VertexProgram, L: Ledger>(
    alloc: Global,
    table: &mut MealTable<P>,
    graph: &Graph,
    play: &mut Play,
    actors: u32,
    fuel: u32,
    steps: &mut Steps<L>,
) -> Result<(), AllocError>
    requires some { 0 < actors }
    requires few { actors ≤ 64 }
    requires seated { IsSeated graph.now actors table.old }
    ensures played { IsPlayed table.old table.new }
    ensures free { IfOk result (λ _. AllFree table.new.board.actors.items) }
    ensures counted { IfOk result (λ _. steps.old ≤ steps.new) }
{
    for _ in 0..fuel {
        if !next_entry(alloc, table, graph, play, actors, steps)? {
            break;
        }
    }
    retire_all(table, graph, actors);
    Ok(())
}

/// A table of its own is opened over the state, as many entries are made as come, and it is closed.
pub fn stretch<'g, P: VertexProgram, L: Ledger>(
    alloc: Global,
    program: &'g P,
    graph: &'g Graph,
    cut: &Cut,
    state: State,
    caches: Option<Vec<CacheCell<P::Acc>>>,
    play: &mut Play,
    fuel: u32,
    steps: &mut Steps<L>,
) -> Result<Closed<P::Acc>, AllocError>
    requires cut { IsCutOf graph.now cut.now }
    requires fit { IsFit (P.meaning program.now) graph.now state }
    requires caches { AreCaches (P.meaning program.now) graph.now cut.now state caches }
    ensures made { IfOk result
        (IsStretch (P.meaning program.now) graph.now state fuel) }
    ensures counted { IfOk result (λ _. steps.old ≤ steps.new) }
{
    play.begin(graph, &state)?;
    let actors = u32::from(cut.workers());
    let mut table = MealTable::open(alloc, program, graph, cut, state, caches, actors, fuel)?;
    play_on(alloc, &mut table, graph, play, actors, fuel, steps)?;
    Ok(table.close().unwrap())
}
