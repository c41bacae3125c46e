//! An edge as a worker reads it: from its own store and its own replicas.
ghost use Rattle.std.specs.Prelude.{◌≡◌, ◌<◌, length};
ghost use Rattle.pg_graph.specs.Multigraph.{end_of};
ghost use Rattle.pg_law.specs.Laws.{IsNear};
ghost use Rattle.pg_edge_store.specs.Store.{local_at};
ghost use Rattle.pg_mirrors.specs.Mirrors.{datum_at};
ghost use Rattle.pg_gather.specs.Partials.{IsReadable};
ghost use Rattle.pg_gather.specs.Partials.{near_at as near_from_here};

use pg_edge_store::EdgeStore;
use pg_graph::{Edge, Graph, Side};
use pg_law::{Datum, Near, VertexProgram};
use pg_mirrors::MirrorTable;

/// The edge at a place of the store, as its end at this side sees it, whose datum is `centre`.
///
/// `local` is that edge between replicas.
pub fn near_at<P: VertexProgram>(
    _program: &P,
    graph: &Graph,
    store: &EdgeStore,
    mirrors: &MirrorTable,
    side: Side,
    centre: Datum,
    place: u32,
    local: Edge,
) -> Near
    requires readable { IsReadable (P.meaning _program.now) graph.now store.now mirrors.now }
    requires place { place < length store.now.numbers }
    requires local { local ≡ local_at store.now place }
    requires centre { centre ≡ datum_at mirrors.now.values (end_of side local) }
    ensures value { result ≡ near_from_here graph.now store.now mirrors.now side place }
    ensures near { IsNear (P.meaning _program.now) result }
{
    Near {
        side,
        edge: graph.edge_info(store.edge(place)),
        word: store.word(place),
        centre,
        other: mirrors.datum(local.end(side.opposite())),
    }
}
