//! When an actor may prepare, and what it then keeps.
ghost use Rattle.std.specs.Prelude.{◌≡◌, ◌<◌, ◌||◌, ℕ, length, map, All, MatchBool};
ghost use Rattle.pg_graph.specs.Multigraph.{edges_at, takes};
ghost use Rattle.pg_meals.specs.declared.fork.Carried.{Carried as CarriedBy};
ghost use Rattle.pg_meals.specs.Once.{Once};
ghost use Rattle.pg_meals.specs.Boards.{IsBoard};
ghost use Rattle.pg_meals.specs.Readied.{is_seen, SeesEach, MissesOne, ArePlanned, IsReadied};

use crate::actor::{Actor, Ready};
use crate::board::Board;
use crate::fork::{Carried, Fork, Mark};
use pg_delta::CacheCell;
use pg_graph::{Dir, Graph, Side};
use std::mem::swap;

/// Whether the actor has pinned a fork, and has noted a datum over it if it looks at one.
fn sees(mark: Mark, actor: u32, looks: bool) -> bool
    ensures { result ≡ is_seen actor looks mark }
{
    match mark.pinner {
        Some(pinner) => pinner == actor && (!looks || mark.noted.is_some()),
        None => false,
    }
}

/// Whether a vertex looks over an edge, at whose end of this side it stands.
fn looks(gathers: Dir, scatters: Dir, side: Side) -> bool
    ensures { result ≡ (takes gathers side || takes scatters side) }
{
    gathers.takes(side) || scatters.takes(side)
}

/// For each of these forks what was planned for it is prepared.
fn put_plans<A: Drop>(forks: &mut Vec<Fork<A>>, edges: &[u32], mut plans: Vec<Carried<A>>)
    requires inside { All (λ e. e < length forks.old.items) edges.now }
    requires once { Once edges.now }
    requires count { length plans.items ≡ length edges.now }
    ensures planned { (plan : ℕ → CarriedBy A) → plans.items ≡ map plan edges.now
        → ArePlanned forks.old.items plan edges.now forks.new.items }
    ensures len { length forks.new.items ≡ length forks.old.items }
{
    for place in 0..edges.len() {
        let fork = &mut forks[edges[place] as usize];
        swap(&mut fork.prepared, &mut plans[place]);
    }
}

impl<A: Drop> Board<A> {
    /// Whether the actor has pinned all forks of a vertex, and has noted all that the vertex looks at
    /// that gathers and scatters over edges of these directions.
    pub fn has_noted(
        &self,
        graph: &Graph,
        gathers: Dir,
        scatters: Dir,
        actor: u32,
        vertex: u32,
    ) -> bool
        requires vertex { vertex < length graph.now.ids }
        requires board { IsBoard graph.now self.now }
        ensures { MatchBool result
            (SeesEach gathers scatters graph.now self.now.forks.items actor vertex
            (edges_at graph.now vertex))
            (MissesOne gathers scatters graph.now self.now.forks.items actor vertex
            (edges_at graph.now vertex)) }
    {
        let edges = graph.edges();
        for edge in graph.edges_of(vertex) {
            let side = edges[*edge as usize].side(vertex);
            let looks = looks(gathers, scatters, side);
            let mark = self.forks[*edge as usize].mark;
            if !sees(mark, actor, looks) {
                return false;
            }
        }
        true
    }

    /// The actor has this ready for a vertex, with this cell and a plan for each of its forks.
    pub fn keep(
        &mut self,
        graph: &Graph,
        actor: u32,
        vertex: u32,
        ready: Ready,
        cell: CacheCell<A>,
        plans: Vec<Carried<A>>,
    )
        requires actor { actor < length self.old.actors.items }
        requires vertex { vertex < length graph.now.ids }
        requires board { IsBoard graph.now self.old }
        requires count { length plans.items ≡ length (edges_at graph.now vertex) }
        ensures { (plan : ℕ → CarriedBy A) → plans.items ≡ map plan (edges_at graph.now vertex)
            → IsReadied graph.now self.old actor vertex ready cell plan self.new }
    {
        put_plans(&mut self.forks, graph.edges_of(vertex), plans);
        self.seats[vertex as usize].prepared = cell;
        let record = self.actors[actor as usize];
        self.actors[actor as usize] = Actor {
            ready: Some(ready),
            ..record
        };
    }
}
