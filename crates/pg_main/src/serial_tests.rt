//! Whole serial runs, with journals that were worked out apart from the engine.

use crate::sessions::sessions;
use std::test::Fail;

const SERIAL_COMPONENTS: &str = "\
$ async components --serial
1\t2
2\t3
3\t4
> 0
# pgreport 1 async components
# vertices 4 edges 3 loops 0
@1\t1
@2\t1
@3\t1
@4\t1
1\t1
2\t1
3\t1
4\t1
# quiescent executions 4 gathers 6
$ async components --fuel 0 --serial
1\t2
2\t3
3\t4
> 3
# pgreport 1 async components
# vertices 4 edges 3 loops 0
1\t1
2\t2
3\t3
4\t4
?1\t1
?2\t2
?3\t3
?4\t4
# spent executions 0 gathers 0
$ async components --serial --fuel 3
1\t2
2\t3
3\t4
> 3
# pgreport 1 async components
# vertices 4 edges 3 loops 0
@1\t1
@2\t1
@3\t1
1\t1
2\t1
3\t1
4\t4
?4\t1
# spent executions 3 gathers 5
$ async components --serial --fuel 4
1\t2
2\t3
3\t4
> 0
# pgreport 1 async components
# vertices 4 edges 3 loops 0
@1\t1
@2\t1
@3\t1
@4\t1
1\t1
2\t1
3\t1
4\t1
# quiescent executions 4 gathers 6
";

#[test]
fn serial_components_have_their_reports(rt: HostRuntime) -> Result<(), Fail> {
    sessions(&rt, rt.alloc(), SERIAL_COMPONENTS)
}

const SERIAL_COLOURS_AND_TREES: &str = "\
$ async colour --serial
1 2
> 0
# pgreport 1 async colour
# vertices 2 edges 1 loops 0
@1\t1
@2\t0
1\t1
2\t0
# quiescent executions 2 gathers 2
$ async tree --format tsv --source 1 --serial
1 2 1
1 3 1
2 4 1
3 4 1
> 0
# pgreport 1 async tree 1
# vertices 4 edges 4 loops 0
@1\t0\t1
@2\t1\t1
@3\t1\t1
@4\t2\t2
1\t0\t1
2\t1\t1
3\t1\t1
4\t2\t2
# quiescent executions 4 gathers 4
";

#[test]
fn serial_colours_and_trees_have_their_reports(rt: HostRuntime) -> Result<(), Fail> {
    sessions(&rt, rt.alloc(), SERIAL_COLOURS_AND_TREES)
}
