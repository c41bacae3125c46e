//! Whole runs by actors. Which journal a seed gives, no definition says: what is told here holds of every legal one.

use crate::sessions::{PATH, ran};
use crate::status::Status;
use std::alloc::Global;
use std::process::Abort;
use std::str;
use std::test::Fail;
use std::thread::Threads;

/// A job on a text by actors: behind the first bar the text with spaces for line feeds, behind the second the
/// values that are written, likewise, which every order of executions gives.
const VALUES: &str = "\
async components --virtual 7 --workers 3|1\t2 2\t3 3\t4|1\t1 2\t1 3\t1 4\t1
async components --virtual 7|1\t2 2\t3 3\t4|1\t1 2\t1 3\t1 4\t1
async components --virtual 0 --workers 64 --cut oblivious|1\t2 2\t3 3\t4|1\t1 2\t1 3\t1 4\t1
async components --virtual 18446744073709551615 --workers 2 --cut coordinated|5\t5|5\t5
async components --virtual 3 --workers 3||
async sssp --source 1 --format tsv --virtual 7 --workers 3|1\t2\t5 1\t3\t1 3\t2\t1|1\t0 2\t2 3\t1
async tree --source 1 --format tsv --virtual 7 --workers 3|1\t2\t5 1\t3\t1 3\t2\t1|1\t0\t1 2\t2\t3 3\t1\t1";

/// Lines of which each stands in a word between spaces.
fn lines_of(alloc: Global, words: &str) -> Result<String, std::alloc::AllocError> {
    let mut lines = String::new(alloc);
    for word in words.split(' ') {
        if !word.is_empty() {
            lines.push_str(word)?;
            lines.push('\n')?;
        }
    }
    Ok(lines)
}

/// A run by actors ends quiescent with these values, and a second run writes the same bytes.
fn leaves<R: Threads + Sync + Abort>(
    rt: &R,
    alloc: Global,
    words: &str,
    text: &str,
    values: &str,
) -> Result<(), Fail> {
    let run = ran(rt, alloc, words, text)?;
    assert_eq!(rt; run.status, Status::Quiescent, "{words}");
    let again = ran(rt, alloc, words, text)?;
    assert_eq!(rt; again.out.bytes(), run.out.bytes(), "{words}");
    let wanted = format!(in alloc; "\n{values}# quiescent executions ")?;
    let report = str::from_utf8(run.out.bytes()).unwrap_or("");
    assert!(rt; report.contains(wanted.as_str()), "{words}");
    Ok(())
}

#[test]
fn actors_leave_the_values_of_every_order(rt: HostRuntime) -> Result<(), Fail> {
    let alloc = rt.alloc();
    for line in VALUES.split('\n') {
        match line.split_once('|') {
            Some((words, rest)) => {
                let (text, values) = rest.split_once('|').unwrap_or(("", ""));
                let text = lines_of(alloc, text)?;
                let values = lines_of(alloc, values)?;
                leaves(&rt, alloc, words, text.as_str(), values.as_str())?;
            }
            None => assert!(&rt; false, "{line}"),
        }
    }
    Ok(())
}

/// With kept gathers the last line counts each executed vertex once: all four are signalled at the start.
#[test]
fn kept_gathers_of_actors_count_each_vertex_once(rt: HostRuntime) -> Result<(), Fail> {
    let alloc = rt.alloc();
    let words = "async components --virtual 7 --workers 3 --cache";
    let run = ran(&rt, alloc, words, PATH)?;
    assert_eq!(rt; run.status, Status::Quiescent);
    assert!(rt; run.out.bytes().ends_with(b" gathers 6\n"));
    Ok(())
}

/// Without fuel nothing is executed.
#[test]
fn actors_without_fuel_leave_the_start(rt: HostRuntime) -> Result<(), Fail> {
    let alloc = rt.alloc();
    let run = ran(
        &rt,
        alloc,
        "async components --virtual 7 --fuel 0",
        "1\t2\n",
    )?;
    let report =
        "# pgreport 1 async components\n# vertices 2 edges 1 loops 0\n1\t1\n2\t2\n?1\t1\n?2\t2\n# spent executions 0 gathers 0\n";
    assert_eq!(rt; run.status, Status::Spent);
    assert_eq!(rt; run.out.bytes(), report.as_bytes());
    Ok(())
}

/// Over the seeds 0 to 63 two journals at least differ, and each report is confirmed.
#[test]
fn seeds_give_more_than_one_journal(rt: HostRuntime) -> Result<(), Fail> {
    let alloc = rt.alloc();
    let first = ran(&rt, alloc, "async components --virtual 0 --workers 3", PATH)?;
    let mut differs = false;
    for seed in 0..64 {
        let words = format!(in alloc; "async components --virtual {seed} --workers 3")?;
        let run = ran(&rt, alloc, words.as_str(), PATH)?;
        if run.out.bytes() != first.out.bytes() {
            differs = true;
        }
        let report = str::from_utf8(run.out.bytes()).unwrap_or("");
        let text = format!(in alloc; "{PATH}{report}")?;
        let checked = ran(&rt, alloc, "check async components", text.as_str())?;
        assert_eq!(rt; checked.status, Status::Confirmed, "{words}");
    }
    assert!(rt; differs);
    Ok(())
}
