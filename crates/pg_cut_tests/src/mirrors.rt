//! Replicas of a path whose edges lie on three workers.
use crate::samples::{cut_by, path};
use pg_law::Datum;
use pg_mirrors::MirrorTable;
use std::alloc::Global;
use std::process::Abort;
use std::test::Fail;

/// The table of the middle worker.
fn middle(rt: &impl Abort, alloc: Global) -> Result<MirrorTable, Fail> {
    let graph = path(alloc)?;
    let cut = cut_by(rt, alloc, &graph, 3, &[0, 1, 2])?;
    let values = [Datum::one(1), Datum::one(2), Datum::one(3), Datum::one(4)];
    assert!(rt; values.len() == graph.vertices() as usize);
    assert!(rt; 1 < cut.workers());
    Ok(MirrorTable::of(alloc, &graph, &cut, 1, values.as_slice())?)
}

#[test]
fn a_vertex_has_a_replica_where_its_span_has_the_worker(rt: HostRuntime) -> Result<(), Fail> {
    let table = middle(&rt, rt.alloc())?;
    assert_eq!(rt; table.len(), 2);
    assert!(rt; !table.is_empty());
    assert_eq!(rt; (table.replica(0), table.replica(1)), (None, Some(0)));
    assert_eq!(rt; (table.replica(2), table.replica(3)), (Some(1), None));
    assert_eq!(rt;
        (table.datum(0), table.datum(1)),
        (Datum::one(2), Datum::one(3))
    );
    Ok(())
}

#[test]
fn a_push_reaches_the_listed_replicas_alone(rt: HostRuntime) -> Result<(), Fail> {
    let mut table = middle(&rt, rt.alloc())?;
    table.push(&[(3, Datum::one(8)), (2, Datum::two(7, 6))]);
    assert_eq!(rt; table.len(), 2);
    assert_eq!(rt;
        (table.datum(0), table.datum(1)),
        (Datum::one(2), Datum::two(7, 6))
    );
    table.push(&[]);
    assert_eq!(rt; table.len(), 2);
    assert_eq!(rt; table.datum(1), Datum::two(7, 6));
    Ok(())
}
