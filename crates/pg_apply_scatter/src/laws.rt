//! Laws of a round in parts.
ghost use Rattle.pg_apply_scatter.specs.Halves.{MastersBecome, PushesShare, WorkersScatter};
ghost use Rattle.pg_apply_scatter.specs.Halves.{PartsAreARound};
ghost use Rattle.pg_apply_scatter.specs.Delivering.{SignalsAreEnough};
ghost use Rattle.pg_apply_scatter.specs.Delivering.{EqualSignalsDeliverEqually};
ghost use Rattle.pg_apply_scatter.specs.Caches.{CellsFollow};

use pg_delta::cells_stay_true;
use pg_law::{VertexProgram, laws_of};

/// Masters that apply to the fresh gathers of all signalled vertices become what a round makes them.
pub fn masters_become<P: VertexProgram>(program: &P)
    ensures { MastersBecome (P.meaning program.now) }
{}

/// Once the masters are pushed, the replicas of each worker have the data after apply.
pub fn pushes_share<P: VertexProgram>(program: &P)
    ensures { PushesShare (P.meaning program.now) }
{}

/// The scatters of all workers, and the messages that come of what they send, are those of the
/// scatter of all edges.
pub fn workers_scatter<P: VertexProgram>(program: &P)
    ensures { WorkersScatter (P.meaning program.now) }
{
    laws_of(program);
}

/// The messages that come of what the workers send come of its signals alone.
pub fn signals_are_enough<P: VertexProgram>(program: &P)
    ensures { SignalsAreEnough (P.meaning program.now) }
{}

/// Lists that deliver the same worker by worker give the same messages, so a worker may combine its
/// signals before it hands them over.
pub fn equal_signals_deliver_equally<P: VertexProgram>(program: &P)
    ensures { EqualSignalsDeliverEqually (P.meaning program.now) }
{
    laws_of(program);
}

/// From the shares of a state: apply at the masters, push, scatter by all workers and deliver give
/// the shares and the messages of the state after a round.
pub fn parts_are_a_round<P: VertexProgram>(program: &P)
    ensures { PartsAreARound (P.meaning program.now) }
{
    laws_of(program);
}

/// Cells that are true of a state are true of the state after a round, once the deltas that all
/// workers send are posted.
pub fn cells_follow<P: VertexProgram>(program: &P)
    ensures { CellsFollow (P.meaning program.now) }
{
    laws_of(program);
    cells_stay_true(program);
}
