//! The edge from 1 to 2 on one worker, with two actors.
ghost use Rattle.std.specs.Prelude.{◌≡◌, length, IfOk};
ghost use Rattle.pg_meals.specs.Boards.{IsBoard};

use crate::samples::{cut_by, line};
use pg_graph::Graph;
use pg_law::{Datum, EdgeWords, State};
use pg_meals::board::Board;
use std::alloc::Global;
use std::process::Abort;
use std::test::Fail;

/// Each vertex has its number plus one, as a datum and as a message.
fn numbered(alloc: Global, graph: &Graph) -> Result<State, Fail> {
    let mut values = Vec::new(alloc);
    let mut messages = Vec::new(alloc);
    for v in 0..graph.vertices() {
        values.push(Datum::one(v as u64 + 1))?;
        messages.push(Some(v as u64 + 1))?;
    }
    let mut edges = EdgeWords::new(alloc);
    edges.push(7)?;
    Ok(State {
        values,
        edges,
        messages,
    })
}

/// The board of the line.
fn laid(rt: &impl Abort, alloc: Global, graph: &Graph) -> Result<Board<u64>, Fail>
    ensures board { IfOk result (λ board. IsBoard graph.now board) }
    ensures actors { IfOk result (λ board. length board.actors.items ≡ 2) }
{
    let cut = cut_by(rt, alloc, graph, 1, &[0])?;
    let state = numbered(alloc, graph)?;
    assert!(rt; state.values.len() == graph.vertices() as usize);
    assert!(rt; state.messages.len() == graph.vertices() as usize);
    assert!(rt; state.edges.len() == graph.edges().len());
    Ok(Board::open(alloc, graph, &cut, &state, None, 2, 8)?)
}

#[test]
fn at_the_start_a_fork_rests_dirty_at_the_larger_number(rt: HostRuntime) -> Result<(), Fail> {
    let graph = line(&rt, rt.alloc())?;
    let mut board = laid(&rt, rt.alloc(), &graph)?;
    assert!(rt; graph.vertices() == 2);
    assert_eq!(rt; board.forks.len(), 1);
    assert_eq!(rt; board.seats.len(), 2);
    let fork = &board.forks[0];
    assert_eq!(rt; (fork.mark.word.bits(), fork.content.word), (3, 7));
    assert_eq!(rt; board.seats[1].datum, Datum::one(2));
    assert_eq!(rt; board.commit(&graph, 0), None, "nothing is in hand");
    Ok(())
}

#[test]
fn a_signalled_vertex_is_claimed_with_evidence(rt: HostRuntime) -> Result<(), Fail> {
    let graph = line(&rt, rt.alloc())?;
    let mut board = laid(&rt, rt.alloc(), &graph)?;
    assert!(rt; graph.vertices() == 2);
    assert!(rt; board.claim(&graph, 1, 0), "the vertex is free");
    assert!(rt; board.actors.len() == 2);
    let actor = board.actors[1];
    assert_eq!(rt; (actor.vertex, actor.evidence), (Some(0), true));
    Ok(())
}
