//! Whole checks of reports whose gathers were kept: the last line counts each executed vertex once.

use crate::check_tests::{LISTS, WEIGHTED, confirms};
use crate::sessions::{PATH, sessions};
use std::test::Fail;

/// Over the path of four vertices rounds execute seven times, and gather over ten edges; this journal executes
/// six times, over nine edges. Each vertex once that is six.
const COUNTED: &str = "\
$ check sync components --cache
1\t2
2\t3
3\t4
# pgreport 1 sync components
# vertices 4 edges 3 loops 0
1\t1
2\t1
3\t1
4\t1
# quiescent rounds 3 executions 7 gathers 6
> 0
confirmed
$ check sync components --cache
1\t2
2\t3
3\t4
# pgreport 1 sync components
# vertices 4 edges 3 loops 0
1\t1
2\t1
3\t1
4\t1
# quiescent rounds 3 executions 7 gathers 10
> 10 rejected at line 7
$ check sync components
1\t2
2\t3
3\t4
# pgreport 1 sync components
# vertices 4 edges 3 loops 0
1\t1
2\t1
3\t1
4\t1
# quiescent rounds 3 executions 7 gathers 6
> 10 rejected at line 7
$ check async components --cache
1\t2
2\t3
3\t4
# pgreport 1 async components
# vertices 4 edges 3 loops 0
@1\t1
@3\t2
@2\t1
@4\t2
@3\t1
@4\t1
1\t1
2\t1
3\t1
4\t1
# quiescent executions 6 gathers 6
> 0
confirmed
$ check async components --cache
1\t2
2\t3
3\t4
# pgreport 1 async components
# vertices 4 edges 3 loops 0
@1\t1
@3\t2
@2\t1
@4\t2
@3\t1
@4\t1
1\t1
2\t1
3\t1
4\t1
# quiescent executions 6 gathers 9
> 10 rejected at line 13
$ check async components
1\t2
2\t3
3\t4
# pgreport 1 async components
# vertices 4 edges 3 loops 0
@1\t1
@3\t2
@2\t1
@4\t2
@3\t1
@4\t1
1\t1
2\t1
3\t1
4\t1
# quiescent executions 6 gathers 6
> 10 rejected at line 13
";

#[test]
fn a_report_with_kept_gathers_tells_each_vertex_once(rt: HostRuntime) -> Result<(), Fail> {
    sessions(&rt, rt.alloc(), COUNTED)
}

#[test]
fn reports_of_rounds_with_kept_gathers_are_confirmed(rt: HostRuntime) -> Result<(), Fail> {
    let alloc = rt.alloc();
    let stopped = "sync components --cache --rounds 1 --workers 2";
    let paths = "sync sssp --source 1 --format tsv --cache";
    let tree = "sync tree --source 1 --format tsv --cache --workers 2";
    confirms(&rt, alloc, "sync components --cache", PATH)?;
    confirms(&rt, alloc, stopped, PATH)?;
    confirms(&rt, alloc, "sync rank --format adj --cache", LISTS)?;
    confirms(&rt, alloc, paths, WEIGHTED)?;
    confirms(&rt, alloc, tree, WEIGHTED)
}

#[test]
fn reports_of_actors_with_kept_gathers_are_confirmed(rt: HostRuntime) -> Result<(), Fail> {
    let alloc = rt.alloc();
    let components = "async components --virtual 7 --workers 3 --cache";
    let rank = "async rank --virtual 7 --workers 3 --format adj --cache";
    let stopped = "async rank --virtual 7 --format adj --fuel 2 --cache";
    let paths = "async sssp --source 1 --virtual 7 --workers 3 --format tsv --cache";
    let tree = "async tree --source 1 --virtual 7 --workers 3 --format tsv --cache";
    confirms(&rt, alloc, components, PATH)?;
    confirms(&rt, alloc, rank, LISTS)?;
    confirms(&rt, alloc, stopped, LISTS)?;
    confirms(&rt, alloc, paths, WEIGHTED)?;
    confirms(&rt, alloc, tree, WEIGHTED)
}
