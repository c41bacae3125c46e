//! Tables over the edge from 1 to 2, on one worker, with two actors.
ghost use Rattle.std.specs.Prelude.{◌≡◌, ◌<◌, length, IfOk};
ghost use Rattle.pg_meals.specs.Steps.{IsWithin};
ghost use Rattle.pg_meals.specs.Tables.{IsSameTable};

use crate::samples::{cut_by, line};
use pg_delta::CacheCell;
use pg_graph::Graph;
use pg_law::{Datum, JournalEntry, State, Steps};
use pg_meals::act::{Act, Outcome};
use pg_meals::table::{Closed, MealTable};
use pg_paths::Components;
use std::alloc::Global;
use std::marker::Brand;
use std::process::Abort;
use std::test::Fail;

/// A table for two actors and eight entries.
fn open<'g>(
    rt: &impl Abort,
    alloc: Global,
    program: &'g Components,
    graph: &'g Graph,
) -> Result<MealTable<'g, Components>, Fail>
    ensures actors { IfOk result (λ table. length table.board.actors.items ≡ 2) }
    ensures graph { IfOk result (λ table. table.graph ≡ graph.now) }
{
    let cut = cut_by(rt, alloc, graph, 1, &[0])?;
    let state = State::start(alloc, program, graph)?;
    let table = MealTable::open(alloc, program, graph, &cut, state, None, 2, 8)?;
    Ok(table)
}

/// The actor acts, and is told this, or nothing where it may not.
fn acts(
    rt: &impl Abort,
    table: &mut MealTable<Components>,
    actor: u32,
    act: Act,
    told: Option<Outcome>,
)
    requires actor { actor < length table.old.board.actors.items }
    requires act { IsWithin table.old.graph act }
    ensures { IsSameTable table.old table.new }
{
    assert_eq!(rt; table.step(actor, act), told);
}

/// The actor prepares, or may not.
fn prepares(
    rt: &impl Abort,
    alloc: Global,
    table: &mut MealTable<Components>,
    actor: u32,
    made: bool,
) -> Result<(), Fail>
    requires { actor < length table.old.board.actors.items }
    ensures { IsSameTable table.old table.new }
{
    let mut steps = Steps::<Brand>::new();
    let prepared = table.prepare(alloc, actor, &mut steps)?;
    assert_eq!(rt; prepared, made);
    Ok(())
}

/// The actor sees this word of the edge's fork.
fn sees(rt: &impl Abort, table: &mut MealTable<Components>, actor: u32, bits: u64)
    requires actor { actor < length table.old.board.actors.items }
    requires edge { 0 < length table.old.graph.edges }
    ensures { IsSameTable table.old table.new }
{
    let saw = Some(Outcome::Saw { bits });
    acts(rt, table, actor, Act::Look { edge: 0 }, saw);
}

/// The actor, which has prepared, makes its entry and shows it. Before that its fork can't go back.
fn enters(rt: &impl Abort, table: &mut MealTable<Components>, actor: u32, number: u64)
    requires actor { actor < length table.old.board.actors.items }
    requires edge { 0 < length table.old.graph.edges }
    ensures { IsSameTable table.old table.new }
{
    acts(rt, table, actor, Act::Turn, MOVED);
    let entered = Some(Outcome::Entered { number });
    acts(rt, table, actor, Act::Commit, entered);
    acts(rt, table, actor, Act::Back { edge: 0 }, None);
    acts(rt, table, actor, Act::Give, MOVED);
    acts(rt, table, actor, Act::Back { edge: 0 }, None);
    acts(rt, table, actor, Act::WriteMirror { worker: 0 }, MOVED);
    acts(rt, table, actor, Act::Back { edge: 0 }, MOVED);
}

/// Vertex 1 executes first, while vertex 0 asks for its fork.
fn first_entry(
    rt: &impl Abort,
    alloc: Global,
    table: &mut MealTable<Components>,
) -> Result<(), Fail>
    requires actors { length table.old.board.actors.items ≡ 2 }
    requires vertices { length table.old.graph.ids ≡ 2 }
    requires edges { length table.old.graph.edges ≡ 1 }
    ensures { IsSameTable table.old table.new }
{
    acts(rt, table, 0, Act::Claim { vertex: 0 }, MOVED);
    acts(rt, table, 1, Act::Claim { vertex: 1 }, MOVED);
    sees(rt, table, 0, 3);
    acts(rt, table, 1, Act::Pin { edge: 0 }, MOVED);
    sees(rt, table, 0, 11);
    acts(rt, table, 0, Act::Pin { edge: 0 }, None);
    acts(rt, table, 0, Act::Ask { edge: 0 }, MOVED);
    sees(rt, table, 0, 15);
    prepares(rt, alloc, table, 1, false)?;
    acts(rt, table, 1, Act::ReadMirror { edge: 0 }, read());
    prepares(rt, alloc, table, 0, false)?;
    prepares(rt, alloc, table, 1, true)?;
    enters(rt, table, 1, 0);
    sees(rt, table, 0, 0);
    acts(rt, table, 1, Act::Drop, MOVED);
    Ok(())
}

/// Vertex 0 has got the fork, and executes after it.
fn second_entry(
    rt: &impl Abort,
    alloc: Global,
    table: &mut MealTable<Components>,
) -> Result<(), Fail>
    requires actors { length table.old.board.actors.items ≡ 2 }
    requires edges { length table.old.graph.edges ≡ 1 }
    ensures { IsSameTable table.old table.new }
{
    acts(rt, table, 0, Act::Pin { edge: 0 }, MOVED);
    sees(rt, table, 0, 8);
    acts(rt, table, 0, Act::ReadMirror { edge: 0 }, read());
    prepares(rt, alloc, table, 0, true)?;
    enters(rt, table, 0, 1);
    sees(rt, table, 0, 2);
    acts(rt, table, 0, Act::Drop, MOVED);
    Ok(())
}

/// The datum 1 was read.
fn read() -> Option<Outcome> {
    let datum = Datum::one(1);
    Some(Outcome::Read { datum })
}

const MOVED: Option<Outcome> = Some(Outcome::Moved);

#[test]
fn a_pinned_fork_is_asked_for(rt: HostRuntime) -> Result<(), Fail> {
    let graph = line(&rt, rt.alloc())?;
    let program = Components::new();
    let mut table = open(&rt, rt.alloc(), &program, &graph)?;
    acts(&rt, &mut table, 0, Act::Claim { vertex: 0 }, MOVED);
    acts(&rt, &mut table, 1, Act::Claim { vertex: 1 }, MOVED);
    acts(&rt, &mut table, 1, Act::Pin { edge: 0 }, MOVED);
    acts(&rt, &mut table, 0, Act::Pin { edge: 0 }, None);
    acts(&rt, &mut table, 0, Act::Ask { edge: 0 }, MOVED);
    let saw = Some(Outcome::Saw { bits: 15 });
    acts(&rt, &mut table, 1, Act::Look { edge: 0 }, saw);
    Ok(())
}

#[test]
fn two_attempts_make_two_entries(rt: HostRuntime) -> Result<(), Fail> {
    let graph = line(&rt, rt.alloc())?;
    let program = Components::new();
    let mut table = open(&rt, rt.alloc(), &program, &graph)?;
    first_entry(&rt, rt.alloc(), &mut table)?;
    second_entry(&rt, rt.alloc(), &mut table)?;
    assert_eq!(rt; table.least_signalled(), None);
    let closed = table.close();
    let Some(closed) = closed else {
        panic!(&rt; "no vertex is in hand");
    };
    let data = [Datum::one(1), Datum::one(1)];
    assert_eq!(rt; closed.state.values.as_slice(), data.as_slice());
    assert_eq!(rt; closed.state.messages.as_slice(), [None, None].as_slice());
    let order = [1, 0].map(|vertex| JournalEntry {
        vertex,
        datum: Datum::one(1),
    });
    assert_eq!(rt; closed.journal.as_slice(), order.as_slice());
    Ok(())
}

// The other actor looks at the fork: the attempt itself would take a clean fork for evidence.
#[test]
fn a_fork_that_was_taken_for_nothing_stays_dirty(rt: HostRuntime) -> Result<(), Fail> {
    let alloc = rt.alloc();
    let graph = line(&rt, alloc)?;
    let program = Components::new();
    let mut table = open(&rt, alloc, &program, &graph)?;
    first_entry(&rt, alloc, &mut table)?;
    second_entry(&rt, alloc, &mut table)?;
    acts(&rt, &mut table, 0, Act::Claim { vertex: 1 }, MOVED);
    acts(&rt, &mut table, 1, Act::Claim { vertex: 0 }, MOVED);
    acts(&rt, &mut table, 0, Act::Pin { edge: 0 }, MOVED);
    sees(&rt, &mut table, 1, 9);
    prepares(&rt, alloc, &mut table, 0, false)?;
    acts(&rt, &mut table, 0, Act::Back { edge: 0 }, MOVED);
    sees(&rt, &mut table, 1, 2);
    Ok(())
}

#[test]
fn the_first_signalled_vertex_is_the_one_of_least_rank(rt: HostRuntime) -> Result<(), Fail> {
    let graph = line(&rt, rt.alloc())?;
    let program = Components::new();
    let table = open(&rt, rt.alloc(), &program, &graph)?;
    assert_eq!(rt; table.least_signalled(), Some(0));
    Ok(())
}

#[test]
fn a_table_is_closed_over_the_state_at_the_start(rt: HostRuntime) -> Result<(), Fail> {
    let graph = line(&rt, rt.alloc())?;
    let program = Components::new();
    let table = open(&rt, rt.alloc(), &program, &graph)?;
    let closed = table.close();
    let Some(closed) = closed else {
        panic!(&rt; "no vertex is in hand");
    };
    let data = [Datum::one(1), Datum::one(2)];
    assert_eq!(rt; closed.state.values.as_slice(), data.as_slice());
    assert!(rt; closed.state.messages.len() == 2);
    assert!(rt; closed.state.messages[0].is_some());
    assert_eq!(rt; closed.state.edges.len(), 1);
    assert_eq!(rt; closed.journal.len(), 0);
    assert!(rt; closed.caches.is_none());
    Ok(())
}

#[test]
fn no_table_is_closed_while_a_vertex_is_in_hand(rt: HostRuntime) -> Result<(), Fail> {
    let graph = line(&rt, rt.alloc())?;
    let program = Components::new();
    let mut table = open(&rt, rt.alloc(), &program, &graph)?;
    acts(&rt, &mut table, 0, Act::Claim { vertex: 0 }, MOVED);
    assert!(rt; table.close().is_none());
    Ok(())
}

#[test]
fn cells_are_given_back(rt: HostRuntime) -> Result<(), Fail> {
    let alloc = rt.alloc();
    let graph = line(&rt, alloc)?;
    let program = Components::new();
    let cut = cut_by(&rt, alloc, &graph, 1, &[0])?;
    let state = State::start(alloc, &program, &graph)?;
    let caches: Option<Vec<CacheCell<u64>>> = Some(Vec::new(alloc));
    let table = MealTable::open(alloc, &program, &graph, &cut, state, caches, 1, 0)?;
    let closed = table.close();
    let Some(closed) = closed else {
        panic!(&rt; "no vertex is in hand");
    };
    let Closed {
        caches,
        state: _,
        journal: _,
    } = closed;
    let Some(cells) = caches else {
        panic!(&rt; "there were caches");
    };
    assert_eq!(rt; cells.len(), 2);
    Ok(())
}
