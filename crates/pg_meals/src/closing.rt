//! What a board leaves.
ghost use Rattle.std.specs.Prelude.{◌≡◌, ◌<◌, ◌≤◌, ℕ, [], length, map, cond, true, MatchBool};
ghost use Rattle.std.specs.List.{range_with_len};
ghost use Rattle.std.specs.Vec.{vec_capacity};
ghost use Rattle.pg_graph.specs.declared.edge.Side.{Side as AtSide};
ghost use Rattle.pg_law.specs.Values.{two};
ghost use Rattle.pg_law.specs.Laws.{IsOptional};
ghost use Rattle.pg_law.specs.Configuration.{message_in};
ghost use Rattle.pg_delta.specs.Cell.{cleared};
ghost use Rattle.pg_meals.specs.Setting.{cell_at};
ghost use Rattle.pg_meals.specs.Entries.{at_side, fork_at, seat_at};
ghost use Rattle.pg_meals.specs.Boards.{IsBoard};
ghost use Rattle.pg_meals.specs.Carrying.{IsKept};
ghost use Rattle.pg_meals.specs.Tables.{state_of_board};
ghost use Rattle.pg_meals.specs.Closing.{AllFree, OneBusy, delivered, waits_below, is_delta};
ghost use Rattle.pg_meals.specs.Closing.{AreLeft};

use crate::board::Board;
use crate::fork::Fork;
use crate::messages::join_messages;
use crate::seat::Seat;
use pg_delta::CacheCell;
use pg_graph::Graph;
use pg_law::{Datum, Delta, EdgeWords, State, VertexProgram, laws_of};
use std::mem::replace;

impl<A: Drop> Board<A> {
    /// Whether no actor has a vertex in hand.
    pub fn is_free(&self) -> bool
        ensures { MatchBool result
            (AllFree self.now.actors.items)
            (OneBusy self.now.actors.items) }
    {
        for actor in self.actors.as_slice() {
            if actor.vertex.is_some() {
                return false;
            }
        }
        true
    }
}

/// Writes the datum of each seat over those of a list that is as long.
fn write_data<A: Drop>(seats: &[Seat<A>], values: &mut Vec<Datum>)
    requires { length values.old.items ≡ length seats.now }
    ensures { values.new.items ≡
        map (λ v. (seat_at (two 0 0) seats.now v).datum) (range_with_len 0 (length seats.now)) }
{
    for v in 0..seats.len() {
        values[v] = seats[v].datum;
    }
}

/// Writes the message in each seat over those of a list that is as long.
fn write_messages<A: Drop>(seats: &[Seat<A>], messages: &mut Vec<Option<u64>>)
    requires { length messages.old.items ≡ length seats.now }
    ensures { messages.new.items ≡
        map (λ v. (seat_at (two 0 0) seats.now v).message) (range_with_len 0 (length seats.now)) }
{
    for v in 0..seats.len() {
        messages[v] = seats[v].message;
    }
}

/// Joins what rides on each fork with what waits at its ends.
fn deliver<P: VertexProgram>(
    program: &P,
    graph: &Graph,
    forks: &[Fork<P::Acc>],
    messages: &mut Vec<Option<u64>>,
)
    requires forks { length forks.now ≡ length graph.now.edges }
    requires len { length messages.old.items ≡ length graph.now.ids }
    requires own { (v : ℕ)
        → IsOptional (P.meaning program.now).IsMessage (message_in messages.old.items v) }
    requires rides { (s : AtSide) (e : ℕ) → IsOptional (P.meaning program.now).IsMessage
        (at_side s (fork_at 0 forks.now e).content).message }
    ensures len { length messages.new.items ≡ length graph.now.ids }
    ensures joined { (v : ℕ) → v < length graph.now.ids
        → message_in messages.new.items v
        ≡ delivered (P.meaning program.now).combine graph.now forks.now v
        (length graph.now.edges) (message_in messages.old.items v) }
{
    laws_of(program);
    for e in 0..forks.len() {
        let ends = graph.edges()[e];
        let content = &forks[e].content;
        let source = messages[ends.src as usize];
        messages[ends.src as usize] = join_messages(program, source, content.source.message);
        let target = messages[ends.dst as usize];
        messages[ends.dst as usize] = join_messages(program, target, content.target.message);
    }
}

/// The word of each edge, in room for it.
fn put_words<A: Drop>(forks: &[Fork<A>], words: &mut Vec<u64>)
    requires none { words.old.items ≡ [] }
    requires room { length forks.now ≤ vec_capacity words.old }
    ensures { words.new.items ≡ map (λ x. x.content.word) forks.now }
{
    for fork in forks {
        words.push_reserved(fork.content.word);
    }
}

/// Whether the delta says anything.
fn says<A: Drop>(delta: &Delta<A>) -> bool
    ensures { result ≡ is_delta delta.now }
{
    match delta {
        Delta::Nothing => false,
        _ => true,
    }
}

/// The cell of each seat, in room for it.
fn put_cells<A: Drop>(seats: &mut Vec<Seat<A>>, cells: &mut Vec<CacheCell<A>>)
    requires none { cells.old.items ≡ [] }
    requires room { length seats.old.items ≤ vec_capacity cells.old }
    ensures { cells.new.items ≡
        map (λ v. (seat_at (two 0 0) seats.old.items v).cell)
        (range_with_len 0 (length seats.old.items)) }
{
    for v in 0..seats.len() {
        cells.push_reserved(replace(&mut seats[v].cell, CacheCell::new()));
    }
}

/// Clears the cell, or leaves it.
fn clear_where<A: Drop>(cell: &mut CacheCell<A>, clears: bool)
    ensures { cell.new ≡ cond clears cleared cell.old }
{
    if clears {
        cell.clear();
    }
}

/// Clears the cell of each vertex for which a delta waits on a fork.
fn clear_waiting<A: Drop>(graph: &Graph, forks: &[Fork<A>], cells: &mut Vec<CacheCell<A>>)
    requires forks { length forks.now ≡ length graph.now.edges }
    requires len { length cells.old.items ≡ length graph.now.ids }
    ensures len { length cells.new.items ≡ length graph.now.ids }
    ensures cleared { (v : ℕ) → v < length graph.now.ids
        → cell_at cells.new.items v
        ≡ cond (waits_below graph.now forks.now v (length graph.now.edges))
        cleared (cell_at cells.old.items v) }
{
    for e in 0..forks.len() {
        let ends = graph.edges()[e];
        let content = &forks[e].content;
        clear_where(&mut cells[ends.src as usize], says(&content.source.delta));
        clear_where(&mut cells[ends.dst as usize], says(&content.target.delta));
    }
}

/// The state for which a board stands of which nobody holds anything, in the lists of that from
/// which it began.
pub fn state_left<P: VertexProgram>(
    program: &P,
    graph: &Graph,
    board: &Board<P::Acc>,
    opening: State,
    mut words: Vec<u64>,
) -> State
    requires kept { IsKept (P.meaning program.now) graph.now opening board.now }
    requires free { AllFree board.now.actors.items }
    requires none { words.items ≡ [] }
    requires room { length graph.now.edges ≤ vec_capacity words }
    ensures { result ≡ state_of_board (P.meaning program.now) graph.now opening board.now }
{
    laws_of(program);
    let State {
        mut values,
        edges: _,
        mut messages,
    } = opening;
    write_data(board.seats.as_slice(), &mut values);
    write_messages(board.seats.as_slice(), &mut messages);
    deliver(program, graph, board.forks.as_slice(), &mut messages);
    put_words(board.forks.as_slice(), &mut words);
    State {
        values,
        edges: EdgeWords::from(words),
        messages,
    }
}

/// The cells of a board, where it has caches, moved out of it.
pub fn cells_left<A: Drop>(
    graph: &Graph,
    board: &mut Board<A>,
    mut cells: Vec<CacheCell<A>>,
) -> Option<Vec<CacheCell<A>>>
    requires board { IsBoard graph.now board.old }
    requires none { cells.items ≡ [] }
    requires room { board.old.caches ≡ true → length graph.now.ids ≤ vec_capacity cells }
    ensures left { AreLeft graph.now board.old result }
    ensures journal { board.new.journal ≡ board.old.journal }
{
    if !board.caches {
        return None;
    }
    put_cells(&mut board.seats, &mut cells);
    clear_waiting(graph, board.forks.as_slice(), &mut cells);
    Some(cells)
}
