//! Whole runs of `cut`, with texts that were worked out apart from the engine.

use crate::sessions::{ends, sessions};
use std::alloc::{AllocError, Global};
use std::test::Fail;

const CUTS: &str = "\
$ cut
> 0
# pgcut 1 random workers 1
# vertices 0 edges 0 loops 0
worker 0 edges 0 replicas 0
replicas 0
$ cut --workers 2 --cut coordinated
5 5
5 6
5 6
> 0
# pgcut 1 coordinated workers 2
# vertices 2 edges 2 loops 1
worker 0 edges 1 replicas 2
worker 1 edges 1 replicas 2
cases 0 0 0 2
replicas 4
$ cut --workers 3 --seed 4294967298
1 2
> 0
# pgcut 1 random workers 3
# vertices 2 edges 1 loops 0
worker 0 edges 1 replicas 2
worker 1 edges 0 replicas 0
worker 2 edges 0 replicas 0
replicas 2
$ cut --cut oblivious --workers 2
0 1
0 2
0 3
0 4
> 0
# pgcut 1 oblivious workers 2
# vertices 5 edges 4 loops 0
worker 0 edges 2 replicas 3
worker 1 edges 2 replicas 3
cases 0 0 2 2
replicas 6
$ cut --format adj --workers 2
9 0
8 0
> 0
# pgcut 1 random workers 2
# vertices 2 edges 0 loops 0
worker 0 edges 0 replicas 1
worker 1 edges 0 replicas 1
replicas 2
";

#[test]
fn cuts_have_their_texts(rt: HostRuntime) -> Result<(), Fail> {
    sessions(&rt, rt.alloc(), CUTS)
}

/// A line so many times.
fn repeated(alloc: Global, line: &str, times: usize) -> Result<String, AllocError> {
    let mut text = String::new(alloc);
    for _ in 0..times {
        text.push_str(line)?;
    }
    Ok(text)
}

const STAR: &str = "\
# pgcut 1 coordinated workers 4
# vertices 101 edges 100 loops 0
worker 0 edges 25 replicas 26
worker 1 edges 25 replicas 26
worker 2 edges 25 replicas 26
worker 3 edges 25 replicas 26
cases 0 0 96 4
replicas 104
";

#[test]
fn a_star_is_shared_out_evenly(rt: HostRuntime) -> Result<(), Fail> {
    let mut text = String::new(rt.alloc());
    for leaf in 1..101 {
        text.push_str(format!(in rt.alloc(); "0 {leaf}\n")?.as_str())?;
    }
    ends(
        &rt,
        rt.alloc(),
        "cut --workers 4 --cut coordinated",
        text.as_str(),
        "0",
        STAR,
    )
}

const ALONE: &str = "\
# pgcut 1 oblivious workers 2
# vertices 5 edges 2049 loops 0
worker 0 edges 1025 replicas 4
worker 1 edges 1024 replicas 4
cases 2045 0 0 4
replicas 8
";

const MERGED: &str = "\
# pgcut 1 coordinated workers 2
# vertices 5 edges 2049 loops 0
worker 0 edges 1026 replicas 5
worker 1 edges 1023 replicas 2
cases 2045 0 1 3
replicas 7
";

#[test]
fn loaders_that_merge_know_of_earlier_batches(rt: HostRuntime) -> Result<(), Fail> {
    let mut text = repeated(rt.alloc(), "1 2\n", 2047)?;
    text.push_str("3 4\n3 5\n")?;
    ends(
        &rt,
        rt.alloc(),
        "cut --workers 2 --cut oblivious",
        text.as_str(),
        "0",
        ALONE,
    )?;
    ends(
        &rt,
        rt.alloc(),
        "cut --workers 2 --cut coordinated",
        text.as_str(),
        "0",
        MERGED,
    )
}
