//! Whole runs of each program, with reports that were worked out apart from the engine.

use crate::sessions::sessions;
use std::test::Fail;

/// Cycles, parallel edges, an edge of weight 0, two ways of one length, and walks that are heavier than 32 bits hold.
const SHORTEST_PATHS: &str = "\
$ sync sssp --format tsv --source 1
1 2 5
3 1 1
> 0
# pgreport 1 sync sssp 1
# vertices 3 edges 2 loops 0
1\t0
2\t5
3\t18446744073709551615
# quiescent rounds 2 executions 2 gathers 2
$ sync sssp --source 1 --format tsv
1 2 4294967295
2 3 4294967295
> 0
# pgreport 1 sync sssp 1
# vertices 3 edges 2 loops 0
1\t0
2\t4294967295
3\t8589934590
# quiescent rounds 3 executions 3 gathers 2
$ sync sssp --format tsv --source 1
9 9
1 2 7
2 3 1
1 3 9
1 3 8
3 4 0
4 2 2
6 5 4
5 6 1
> 0
# pgreport 1 sync sssp 1
# vertices 7 edges 8 loops 1
1\t0
2\t7
3\t8
4\t8
5\t18446744073709551615
6\t18446744073709551615
9\t18446744073709551615
# quiescent rounds 3 executions 4 gathers 6
$ sync sssp --format tsv --source 7
9 9
7 3 1
7 4 1
4 2 1
3 2 1
2 7 3
2 8 4294967295
8 1 4294967295
9 7 1
> 0
# pgreport 1 sync sssp 7
# vertices 7 edges 8 loops 1
1\t8589934592
2\t2
3\t1
4\t1
7\t0
8\t4294967297
9\t18446744073709551615
# quiescent rounds 5 executions 6 gathers 8
";

#[test]
fn shortest_paths_have_their_reports(rt: HostRuntime) -> Result<(), Fail> {
    sessions(&rt, rt.alloc(), SHORTEST_PATHS)
}

const COLOURINGS: &str = "\
$ sync colour --rounds 3
1 2
> 3
# pgreport 1 sync colour
# vertices 2 edges 1 loops 0
1\t1
2\t1
?1\t0
?2\t0
# spent rounds 3 executions 6 gathers 6
$ sync colour
7 7
> 0
# pgreport 1 sync colour
# vertices 1 edges 0 loops 1
7\t0
# quiescent rounds 1 executions 1 gathers 0
";

#[test]
fn colourings_have_their_reports(rt: HostRuntime) -> Result<(), Fail> {
    sessions(&rt, rt.alloc(), COLOURINGS)
}

/// The last text has a cycle that leaks, and two ways that meet.
const RANKS: &str = "\
$ sync rank --tolerance 0
1 2
1 3
2 3
> 0
# pgreport 1 sync rank 0
# vertices 3 edges 3 loops 0
1\t150000000
2\t213750000
3\t395437500
# quiescent rounds 3 executions 6 gathers 8
$ sync rank --tolerance 1000000000000
1 2
1 3
2 3
> 0
# pgreport 1 sync rank 1000000000000
# vertices 3 edges 3 loops 0
1\t150000000
2\t575000000
3\t1425000000
# quiescent rounds 1 executions 3 gathers 3
$ sync rank --format snap
9 9
1 2
2 1
2 3
3 4
3 5
4 6
5 6
9 2
> 0
# pgreport 1 sync rank 0
# vertices 7 edges 8 loops 1
1\t419471624
2\t634050880
3\t419471624
4\t328275440
5\t328275440
6\t708068248
9\t150000000
# quiescent rounds 43 executions 254 gathers 336
";

#[test]
fn ranks_have_their_reports(rt: HostRuntime) -> Result<(), Fail> {
    sessions(&rt, rt.alloc(), RANKS)
}

/// Where two ways have one length, the vertex before is the one of least id.
const TREES: &str = "\
$ sync tree --format tsv --source 1
1 2 1
1 3 1
2 4 1
3 4 1
> 0
# pgreport 1 sync tree 1
# vertices 4 edges 4 loops 0
1\t0\t1
2\t1\t1
3\t1\t1
4\t2\t2
# quiescent rounds 3 executions 4 gathers 4
$ sync tree --format tsv --source 1
1 2 5
3 1 1
> 0
# pgreport 1 sync tree 1
# vertices 3 edges 2 loops 0
1\t0\t1
2\t5\t1
3\t18446744073709551615\t18446744073709551615
# quiescent rounds 2 executions 2 gathers 2
$ sync tree --format tsv --source 1
9 9
1 2 7
2 3 1
1 3 9
1 3 8
3 4 0
4 2 2
6 5 4
5 6 1
> 0
# pgreport 1 sync tree 1
# vertices 7 edges 8 loops 1
1\t0\t1
2\t7\t1
3\t8\t1
4\t8\t3
5\t18446744073709551615\t18446744073709551615
6\t18446744073709551615\t18446744073709551615
9\t18446744073709551615\t18446744073709551615
...
$ sync tree --format tsv --source 9
9 9
7 3 1
7 4 1
4 2 1
3 2 1
2 7 3
2 8 4294967295
8 1 4294967295
9 7 1
> 0
# pgreport 1 sync tree 9
# vertices 7 edges 8 loops 1
1\t8589934593\t8
2\t3\t3
3\t2\t7
4\t2\t7
7\t1\t9
8\t4294967298\t2
9\t0\t9
...
";

#[test]
fn trees_have_their_reports(rt: HostRuntime) -> Result<(), Fail> {
    sessions(&rt, rt.alloc(), TREES)
}

const COMPONENTS: &str = "\
$ sync components --format tsv
9 9
1 2 7
2 3 1
1 3 9
1 3 8
3 4 0
4 2 2
6 5 4
5 6 1
> 0
# pgreport 1 sync components
# vertices 7 edges 8 loops 1
1\t1
2\t1
3\t1
4\t1
5\t5
6\t5
9\t9
# quiescent rounds 2 executions 8 gathers 18
";

#[test]
fn components_have_their_reports(rt: HostRuntime) -> Result<(), Fail> {
    sessions(&rt, rt.alloc(), COMPONENTS)
}

const LACKING: &str = "\
$ sync sssp --source 99 --format tsv
1 2 5
3 1 1
> 6 no vertex 99
$ sync sssp --source 0 --format tsv
1 2 5
3 1 1
> 6 no vertex 0
$ sync tree --source 99 --format tsv
1 2 5
3 1 1
> 6 no vertex 99
$ sync tree --source 0 --format tsv
1 2 5
3 1 1
> 6 no vertex 0
";

#[test]
fn a_source_that_the_graph_lacks_is_refused(rt: HostRuntime) -> Result<(), Fail> {
    sessions(&rt, rt.alloc(), LACKING)
}

/// A gather that is kept is counted once.
const KEPT: &str = "\
$ sync components --workers 3 --cut coordinated --cache
1\t2
2\t3
3\t4
> 0
# pgreport 1 sync components
# vertices 4 edges 3 loops 0
1\t1
2\t1
3\t1
4\t1
# quiescent rounds 3 executions 7 gathers 6
$ sync components --cache
1\t2
2\t3
3\t4
> 0
# pgreport 1 sync components
# vertices 4 edges 3 loops 0
1\t1
2\t1
3\t1
4\t1
# quiescent rounds 3 executions 7 gathers 6
$ sync rank --cache
1 2
1 3
2 3
> 0
# pgreport 1 sync rank 0
# vertices 3 edges 3 loops 0
1\t150000000
2\t213750000
3\t395437500
# quiescent rounds 3 executions 6 gathers 3
$ sync rank --tolerance 1000000000000 --cache --workers 2
1 2
1 3
2 3
> 0
# pgreport 1 sync rank 1000000000000
# vertices 3 edges 3 loops 0
1\t150000000
2\t575000000
3\t1425000000
# quiescent rounds 1 executions 3 gathers 3
";

#[test]
fn kept_gathers_are_counted_once(rt: HostRuntime) -> Result<(), Fail> {
    sessions(&rt, rt.alloc(), KEPT)
}
