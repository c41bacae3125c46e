//! The table at which actors share the forks of a graph.
ghost use Rattle.std.specs.Prelude.{◌≡◌, ◌+◌, ◌<◌, length, is_some, MatchOption, IsNone, IsSome, IfSome, IfOk};
ghost use Rattle.std.specs.Prelude.{MatchBool, IsFalse, OnErr, if◌then◌else◌};
ghost use Rattle.pg_law.specs.Configuration.{IsFit};
ghost use Rattle.pg_law.specs.Journal.{IsLegal};
ghost use Rattle.pg_cut.specs.Cut.{IsCutOf, Division};
ghost use Rattle.pg_meals.specs.Boards.{Frame};
ghost use Rattle.pg_meals.specs.Steps.{IsWithin, MakesOn, RefusesOn};
ghost use Rattle.pg_meals.specs.Prepares.{MayNotPrepare, PreparesOn, cost_by};
ghost use Rattle.pg_meals.specs.Opened.{cells_in, IsOpened};
ghost use Rattle.pg_meals.specs.Tables.{AreCaches, IsSameTable, IsQuietTable, IsFirstOf};
ghost use Rattle.pg_meals.specs.Tables.{state_of};
ghost use Rattle.pg_meals.specs.Closing.{AllFree, OneBusy, AreLeft};
ghost use Rattle.pg_meals.specs.Carrying.{IsKept};
ghost use Rattle.pg_meals.specs.Entries.{actor_at, at_side};
ghost use Rattle.pg_meals.specs.Shown.{carried_on};
ghost use Rattle.pg_meals.specs.Least.{has_own};

use crate::act::{Act, Outcome};
use crate::board::Board;
use crate::closing::{cells_left, state_left};
use crate::preparing::prepare_on;
use crate::room::Room;
use pg_cut::Cut;
use pg_delta::CacheCell;
use pg_graph::{Graph, Side};
use pg_law::{JournalEntry, State, Steps, VertexProgram, laws_of};
use std::alloc::{AllocError, Global};
use std::marker::Model;
use std::sync::ledger::Ledger;

/// A board over a graph for one program, whose core keeps its promise.
///
/// `opening` is the state at the start, of which the journal speaks. In its lists, and in `room`, stands
/// what the table gives back when it is closed.
#[derive(Drop)]
pub struct MealTable<'g, P: VertexProgram> {
    program: &'g P,
    graph: &'g Graph,
    opening: State,
    board: Board<P::Acc>,
    room: Room<P::Acc>,
}

/// What a table leaves: the state after its journal, the journal, and the cells where it had caches.
#[derive(Drop)]
pub struct Closed<A> {
    pub state: State,
    pub journal: Vec<JournalEntry>,
    pub caches: Option<Vec<CacheCell<A>>>,
}

impl<'g, P: VertexProgram> Model for MealTable<'g, P> {
    ghost use Rattle.pg_meals.specs.Tables.{Table};
    ghost use Rattle.pg_meals.specs.Carrying.{IsKept};
    ghost use Rattle.pg_meals.specs.Closing.{HasRoom};

    ghost Value = { Table P P.Acc };

    ghost view = { λ t. record {
      program = t.program.now;
      graph = t.graph.now;
      opening = t.opening;
      board = t.board;
    } };

    ghost invariant = { λ t. IsKept (P.meaning t.program.now) t.graph.now t.opening t.board
        × HasRoom t.graph.now t.board.caches t.room };
}

impl<'g, P: VertexProgram> MealTable<'g, P> {
    /// The table at the start. It takes the room of a journal of `fuel` entries, and of what it gives
    /// back when it is closed.
    pub fn open(
        alloc: Global,
        program: &'g P,
        graph: &'g Graph,
        cut: &Cut,
        state: State,
        caches: Option<Vec<CacheCell<P::Acc>>>,
        actors: u32,
        fuel: u32,
    ) -> Result<MealTable<'g, P>, AllocError>
        requires cut { IsCutOf graph.now cut.now }
        requires fit { IsFit (P.meaning program.now) graph.now state }
        requires caches { AreCaches (P.meaning program.now) graph.now cut.now state caches }
        ensures opened { IfOk result (λ table.
            IsOpened graph.now cut.now state (cells_in caches) table.board) }
        ensures program { IfOk result (λ table. table.program ≡ program.now) }
        ensures graph { IfOk result (λ table. table.graph ≡ graph.now) }
        ensures opening { IfOk result (λ table. table.opening ≡ state) }
        ensures actors { IfOk result (λ table. length table.board.actors.items ≡ actors) }
        ensures fuel { IfOk result (λ table. table.board.fuel ≡ fuel) }
    {
        laws_of(program);
        let _ = graph.vertices();
        let board = Board::open(alloc, graph, cut, &state, caches, actors, fuel)?;
        let room = Room::of(alloc, graph, board.caches)?;
        Ok(MealTable {
            program,
            graph,
            opening: state,
            board,
            room,
        })
    }

    /// The actor acts, where the guard of the act is met. Else nothing changes.
    pub fn step(&mut self, actor: u32, act: Act) -> Option<Outcome>
        requires actor { actor < length self.old.board.actors.items }
        requires act { IsWithin self.old.graph act }
        ensures acts { MatchOption result
            (self.new ≡ self.old)
            (MakesOn self.old.graph self.old.board actor act self.new.board) }
        ensures refused { IsNone result → RefusesOn self.old.graph self.old.board actor act }
        ensures same { IsSameTable self.old self.new }
        ensures frame { Frame self.old.board self.new.board }
        ensures kept { IsKept (P.meaning self.new.program) self.new.graph self.new.opening
            self.new.board }
    {
        laws_of(self.program);
        self.board.step(self.graph, actor, act)
    }

    /// The actor prepares the entry of its vertex: it gathers, applies and scatters over what it noted,
    /// inside its own record.
    ///
    /// It is false where the actor has no vertex in hand or has committed, where it hasn't pinned a fork
    /// of its vertex or hasn't noted what the vertex looks at, and where no message is there. A kept
    /// gather is used where it is known with all that waits for it. `Err` is want of memory; what was
    /// gathered until then is counted.
    pub fn prepare<L: Ledger>(
        &mut self,
        alloc: Global,
        actor: u32,
        steps: &mut Steps<L>,
    ) -> Result<bool, AllocError>
        requires { actor < length self.old.board.actors.items }
        ensures made { let p = P.meaning self.old.program in IfOk result (λ made. MatchBool made
            (PreparesOn p self.old.graph self.old.board actor self.new.board)
            (self.new ≡ self.old)) }
        ensures refused { let p = P.meaning self.old.program in IfOk result (λ made. IsFalse made
            → MayNotPrepare p self.old.graph self.old.board actor) }
        ensures counted { let p = P.meaning self.old.program in IfOk result (λ made. steps.new
            ≡ steps.old + (if made then cost_by p self.old.graph self.old.board actor else 0)) }
        ensures err { OnErr result (self.new ≡ self.old) }
        ensures same { IsSameTable self.old self.new }
        ensures frame { Frame self.old.board self.new.board }
    {
        laws_of(self.program);
        prepare_on(
            alloc,
            self.program,
            self.graph,
            &mut self.board,
            actor,
            steps,
        )
    }

    /// The vertex that an actor has in hand.
    pub fn vertex_of(&self, actor: u32) -> Option<u32>
        requires { actor < length self.now.board.actors.items }
        ensures value { result ≡ (actor_at self.now.board.actors.items actor).vertex }
        ensures kept { IsKept (P.meaning self.now.program) self.now.graph self.now.opening
            self.now.board }
    {
        self.board.actors[actor as usize].vertex
    }

    /// Whether a message waits in the place of a vertex.
    pub fn waits_at(&self, vertex: u32) -> bool
        requires { vertex < length self.now.graph.ids }
        ensures { result ≡ has_own self.now.board vertex }
    {
        self.board.seats[vertex as usize].message.is_some()
    }

    /// Whether a message waits for an end of an edge, on its fork.
    pub fn waits_over(&self, edge: u32, end: Side) -> bool
        requires { edge < length self.now.graph.edges }
        ensures { result ≡ is_some (at_side end (carried_on self.now.board edge)).message }
    {
        self.board.content(self.graph, edge).waits(end)
    }

    /// The signalled vertex of least rank.
    ///
    /// It looks at each vertex and at both ends of each edge.
    pub fn least_signalled(&self) -> Option<u32>
        ensures { MatchOption result
            (IsQuietTable (P.meaning self.now.program) self.now)
            (IsFirstOf (P.meaning self.now.program) self.now) }
    {
        laws_of(self.program);
        match self.board.least_signalled(self.graph) {
            Some(first) => Some(first.vertex),
            None => None,
        }
    }

    /// Ends the table, and gives back what it leaves, where no actor has a vertex in hand.
    ///
    /// Where one has, the table is given up. The cell of a vertex for which a delta waits on a fork is
    /// cleared, and every other cell is as it stood. It takes no memory.
    pub fn close(self) -> Option<Closed<P::Acc>>
        ensures busy { IsNone result → OneBusy self.entry.board.actors.items }
        ensures free { IsSome result → AllFree self.entry.board.actors.items }
        ensures state { IfSome result (λ closed.
            closed.state ≡ state_of (P.meaning self.entry.program) self.entry) }
        ensures fit { IfSome result (λ closed.
            IsFit (P.meaning self.entry.program) self.entry.graph closed.state) }
        ensures journal { IfSome result (λ closed.
            closed.journal.items ≡ self.entry.board.journal.items) }
        ensures legal { IfSome result (λ closed.
            IsLegal (P.meaning self.entry.program) self.entry.graph self.entry.opening
            closed.journal.items) }
        ensures cells { IfSome result (λ closed.
            AreLeft self.entry.graph self.entry.board closed.caches) }
        ensures caches { IfSome result (λ closed. (cut : Division)
            → AreCaches (P.meaning self.entry.program) self.entry.graph cut
            closed.state closed.caches) }
    {
        laws_of(self.program);
        if !self.board.is_free() {
            return None;
        }
        let MealTable {
            program,
            graph,
            opening,
            mut board,
            room,
        } = self;
        let Room { words, cells } = room;
        let state = state_left(program, graph, &board, opening, words);
        let caches = cells_left(graph, &mut board, cells);
        Some(Closed {
            state,
            journal: board.journal,
            caches,
        })
    }
}
