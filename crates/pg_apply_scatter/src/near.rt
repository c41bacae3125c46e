//! An edge as a worker reads it: with a word, and from its own replicas.
ghost use Rattle.std.specs.Prelude.{◌≡◌};
ghost use Rattle.pg_law.specs.Laws.{IsNear};
ghost use Rattle.pg_gather.specs.Partials.{IsReadableAt};
ghost use Rattle.pg_apply_scatter.specs.Sending.{AreReplicas, IsBetweenReplicas};
ghost use Rattle.pg_apply_scatter.specs.Sending.{near_with as near_from_here};

use pg_graph::{Edge, Graph, Side};
use pg_law::{Near, VertexProgram};
use pg_mirrors::MirrorTable;

/// An edge with this word, as its end at this side sees it.
///
/// `local` is the edge between replicas.
pub fn near_with<P: VertexProgram>(
    _program: &P,
    graph: &Graph,
    mirrors: &MirrorTable,
    side: Side,
    e: u32,
    local: Edge,
    word: u64,
) -> Near
    requires replicas { AreReplicas (P.meaning _program.now) mirrors.now }
    requires edge { IsReadableAt graph.now mirrors.now e }
    requires local { IsBetweenReplicas graph.now mirrors.now e local }
    requires word { (P.meaning _program.now).IsWord word }
    ensures value { result ≡ near_from_here graph.now mirrors.now side e word }
    ensures near { IsNear (P.meaning _program.now) result }
{
    Near {
        side,
        edge: graph.edge_info(e),
        word,
        centre: mirrors.datum(local.end(side)),
        other: mirrors.datum(local.end(side.opposite())),
    }
}
