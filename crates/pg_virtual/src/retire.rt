//! Ending what an actor has in hand.
ghost use Rattle.std.specs.Prelude.{◌≡◌, ◌≢◌, ◌<◌, ℕ, length, None};
ghost use Rattle.pg_meals.specs.Entries.{actor_at};
ghost use Rattle.pg_meals.specs.Closing.{AllFree};
ghost use Rattle.pg_virtual.specs.Stretches.{HasFewWorkers, IsPlayed, IsSeated};

use pg_graph::Graph;
use pg_law::VertexProgram;
use pg_meals::act::Act;
use pg_meals::table::MealTable;

/// How many workers a cut has at most.
const WORKERS: u8 = 64;

/// The actor ends its attempt, or goes back: it gives the turn, writes the replicas of an entry,
/// gives back its forks, and drops its vertex.
///
/// An act of these that is refused had nothing to do, so that in the end it has no vertex in hand.
#[tactic(auto, using(crate::proofs::Same::same_laws))]
pub fn retire<P: VertexProgram>(table: &mut MealTable<P>, graph: &Graph, actor: u32)
    requires actor { actor < length table.old.board.actors.items }
    requires graph { table.old.graph ≡ graph.now }
    requires workers { HasFewWorkers table.old.board }
    ensures played { IsPlayed table.old table.new }
    ensures free { (actor_at table.new.board.actors.items actor).vertex ≡ None }
    ensures others { (x : ℕ) → x ≢ actor → (actor_at table.new.board.actors.items x).vertex
        ≡ (actor_at table.old.board.actors.items x).vertex }
{
    let Some(vertex) = table.vertex_of(actor) else {
        return;
    };
    let _ = table.step(actor, Act::Give);
    for worker in 0..WORKERS {
        let _ = table.step(actor, Act::WriteMirror { worker });
    }
    for edge in graph.edges_of(vertex) {
        let _ = table.step(actor, Act::Back { edge: *edge });
    }
    let _ = table.step(actor, Act::Drop);
}

/// So do all actors.
#[tactic(auto, using(crate::proofs::Same::same_laws))]
pub fn retire_all<P: VertexProgram>(table: &mut MealTable<P>, graph: &Graph, actors: u32)
    requires seated { IsSeated graph.now actors table.old }
    ensures played { IsPlayed table.old table.new }
    ensures free { AllFree table.new.board.actors.items }
{
    for actor in 0..actors {
        retire(table, graph, actor);
    }
}
