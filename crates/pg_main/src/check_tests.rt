//! Whole checks of reports behind their texts.

use crate::sessions::{Given, Outcome, PATH, calm, outcome_of, ran, refuses, sessions};
use crate::status::Status;
use pg_input::Which;
use pg_readers::BadLine;
use std::alloc::{AllocError, Global};
use std::process::Abort;
use std::test::Fail;
use std::thread::Threads;

const ASYNC: [&str; 3] = ["check", "async", "components"];

/// The report of `async components --serial` on the path of four vertices.
const REPORT: &str =
    "# pgreport 1 async components\n# vertices 4 edges 3 loops 0\n@1\t1\n@2\t1\n@3\t1\n@4\t1\n1\t1\n2\t1\n3\t1\n4\t1\n# quiescent executions 4 gathers 6\n";

/// Texts one after another.
fn joined(alloc: Global, parts: &[&[u8]]) -> Result<Vec<u8>, AllocError> {
    let mut bytes = Vec::new(alloc);
    for part in parts {
        bytes.extend_from_slice(part)?;
    }
    Ok(bytes)
}

/// The path of four vertices, and this behind it.
fn behind_the_path(alloc: Global, report: &str) -> Result<Vec<u8>, AllocError> {
    joined(alloc, &[PATH.as_bytes(), report.as_bytes()])
}

/// Words and bytes, at the standard limits, where nothing fails.
fn check_of<'a>(words: &'a [&'a str], bytes: &'a [u8]) -> Given<'a> {
    Given {
        text: bytes,
        ..calm(words, "")
    }
}

/// A check where nothing fails.
fn checked<R: Threads + Sync>(
    rt: &R,
    alloc: Global,
    words: &[&str],
    bytes: &[u8],
) -> Result<Outcome, AllocError> {
    outcome_of(rt, alloc, check_of(words, bytes))
}

#[test]
fn the_report_that_was_written_is_confirmed(rt: HostRuntime) -> Result<(), Fail> {
    let bytes = behind_the_path(rt.alloc(), REPORT)?;
    let outcome = checked(&rt, rt.alloc(), &ASYNC, bytes.as_slice())?;
    assert_eq!(rt; outcome.status, Status::Confirmed);
    assert_eq!(rt; outcome.status.code(), 0);
    assert_eq!(rt; outcome.out.bytes(), b"confirmed\n".as_slice());
    assert!(rt; outcome.out.is_finished());
    assert!(rt; outcome.err.bytes().is_empty());
    Ok(())
}

const REJECTED: &str = "\
$ check async components
1\t2
2\t3
3\t4
> 10 rejected at line 1
$ check async components
1\t2
2\t3
3\t4
# pgreport 1 sync components
> 10 rejected at line 1
$ check async components
1\t2
2\t3
3\t4
# pgreport 1 async components
# vertices 4 edges 3 loops 0
@1\t1
@3\t1
@2\t1
@4\t1
1\t1
2\t1
3\t1
4\t1
# quiescent executions 4 gathers 6
> 10 rejected at line 4
$ check async components
1\t2
2\t3
3\t4
# pgreport 1 async components
# vertices 4 edges 3 loops 0
@1\t1
@2\t1
@3\t1
1\t1
2\t1
3\t1
4\t4
?4\t1
# spent executions 3 gathers 5
> 10 rejected at line 6
$ check async components
1\t2
2\t3
3\t4
# pgreport 1 async components
# vertices 4 edges 3 loops 0
@1\t1
@2\t1
@3\t1
@4\t1
1\t1
2\t1
3\t1
4\t1
> 10 rejected at line 11
$ check async components
1\t2
2\t3
3\t4
# pgreport 1 async components
# vertices 4 edges 3 loops 0
@1\t1
@2\t1
@3\t1
@4\t1
1\t1
2\t1
3\t1
4\t1
# quiescent executions 4 gathers 6%
> 10 rejected at line 11
$ check async components
1\t2
2\t3
3\t4
# pgreport 1 async components
# vertices 4 edges 3 loops 0
@1\t1
@2\t1
@3\t1
@4\t1
1\t1
2\t1
3\t1
4\t1
# quiescent executions 4 gathers 6

> 10 rejected at line 12
";

#[test]
fn another_report_is_rejected_at_its_first_wrong_line(rt: HostRuntime) -> Result<(), Fail> {
    sessions(&rt, rt.alloc(), REJECTED)
}

const COMMENTS: &str =
    "# Directed graph: comments.txt\n# FromNodeId\tToNodeId\n30\t10\r\n10\t20\r\n10\t20\r\n40\t40\r\n";

pub const WEIGHTED: &str = "1 2 5\n3\t1\t1\n2 3\n";

pub const LISTS: &str = "1 2 2 3\n2 0\n3 1 1\n";

/// Runs a job on a text, and checks what it wrote there. The words are those of the run.
pub fn confirms<R: Threads + Sync + Abort>(
    rt: &R,
    alloc: Global,
    words: &str,
    text: &str,
) -> Result<(), Fail> {
    let run = ran(rt, alloc, words, text)?;
    let bytes = joined(alloc, &[text.as_bytes(), run.out.bytes()])?;
    let mut again = Vec::new(alloc);
    again.push("check")?;
    for word in words.split(' ') {
        again.push(word)?;
    }
    let outcome = checked(rt, alloc, again.as_slice(), bytes.as_slice())?;
    assert_eq!(rt; outcome.status, Status::Confirmed, "{words}");
    assert_eq!(rt; outcome.out.bytes(), b"confirmed\n".as_slice(), "{words}");
    Ok(())
}

/// The same of a program by an engine, with these options.
fn confirms_by<R: Threads + Sync + Abort>(
    rt: &R,
    alloc: Global,
    engine: &str,
    program: &str,
    options: &str,
    text: &str,
) -> Result<(), Fail> {
    let words = format!(in alloc; "{engine} {program} {options}")?;
    confirms(rt, alloc, words.as_str(), text)
}

/// The reports of rounds on a text in a format, with paths from this id.
fn rounds_are_confirmed<R: Threads + Sync + Abort>(
    rt: &R,
    alloc: Global,
    format: &str,
    source: &str,
    text: &str,
) -> Result<(), Fail> {
    let plain = format!(in alloc; "--format {format}")?;
    let paths = format!(in alloc; "--format {format} --source {source}")?;
    let three = format!(in alloc; "--format {format} --rounds 3")?;
    confirms_by(rt, alloc, "sync", "components", plain.as_str(), text)?;
    confirms_by(rt, alloc, "sync", "rank", plain.as_str(), text)?;
    confirms_by(rt, alloc, "sync", "sssp", paths.as_str(), text)?;
    confirms_by(rt, alloc, "sync", "tree", paths.as_str(), text)?;
    confirms_by(rt, alloc, "sync", "colour", three.as_str(), text)
}

/// The reports of executions, likewise.
fn executions_are_confirmed<R: Threads + Sync + Abort>(
    rt: &R,
    alloc: Global,
    format: &str,
    source: &str,
    text: &str,
) -> Result<(), Fail> {
    let plain = format!(in alloc; "--serial --format {format}")?;
    let paths = format!(in alloc; "--serial --format {format} --source {source}")?;
    let two = format!(in alloc; "--serial --format {format} --fuel 2")?;
    confirms_by(rt, alloc, "async", "components", plain.as_str(), text)?;
    confirms_by(rt, alloc, "async", "colour", plain.as_str(), text)?;
    confirms_by(rt, alloc, "async", "rank", plain.as_str(), text)?;
    confirms_by(rt, alloc, "async", "rank", two.as_str(), text)?;
    confirms_by(rt, alloc, "async", "sssp", paths.as_str(), text)?;
    confirms_by(rt, alloc, "async", "tree", paths.as_str(), text)
}

/// The reports of actors, likewise.
fn actors_are_confirmed<R: Threads + Sync + Abort>(
    rt: &R,
    alloc: Global,
    format: &str,
    source: &str,
    text: &str,
) -> Result<(), Fail> {
    let plain = format!(in alloc; "--virtual 7 --workers 3 --format {format}")?;
    let paths = format!(in alloc; "--virtual 7 --workers 3 --format {format} --source {source}")?;
    let two = format!(in alloc; "--virtual 7 --workers 3 --format {format} --fuel 2")?;
    confirms_by(rt, alloc, "async", "components", plain.as_str(), text)?;
    confirms_by(rt, alloc, "async", "colour", two.as_str(), text)?;
    confirms_by(rt, alloc, "async", "rank", plain.as_str(), text)?;
    confirms_by(rt, alloc, "async", "rank", two.as_str(), text)?;
    confirms_by(rt, alloc, "async", "sssp", paths.as_str(), text)?;
    confirms_by(rt, alloc, "async", "tree", paths.as_str(), text)
}

#[test]
fn reports_of_rounds_are_confirmed(rt: HostRuntime) -> Result<(), Fail> {
    let alloc = rt.alloc();
    rounds_are_confirmed(&rt, alloc, "snap", "1", PATH)?;
    rounds_are_confirmed(&rt, alloc, "snap", "10", COMMENTS)?;
    rounds_are_confirmed(&rt, alloc, "tsv", "1", WEIGHTED)?;
    rounds_are_confirmed(&rt, alloc, "adj", "1", LISTS)
}

#[test]
fn reports_of_executions_are_confirmed(rt: HostRuntime) -> Result<(), Fail> {
    let alloc = rt.alloc();
    executions_are_confirmed(&rt, alloc, "snap", "1", PATH)?;
    executions_are_confirmed(&rt, alloc, "snap", "10", COMMENTS)?;
    executions_are_confirmed(&rt, alloc, "tsv", "1", WEIGHTED)?;
    executions_are_confirmed(&rt, alloc, "adj", "1", LISTS)
}

#[test]
fn reports_of_actors_are_confirmed(rt: HostRuntime) -> Result<(), Fail> {
    let alloc = rt.alloc();
    actors_are_confirmed(&rt, alloc, "snap", "1", PATH)?;
    actors_are_confirmed(&rt, alloc, "snap", "10", COMMENTS)?;
    actors_are_confirmed(&rt, alloc, "tsv", "1", WEIGHTED)?;
    actors_are_confirmed(&rt, alloc, "adj", "1", LISTS)
}

const ABSENT: [&str; 5] = ["check", "async", "sssp", "--source", "9"];

/// What is read first is told first: a text before a source, and a source before the report.
#[test]
fn what_comes_first_is_told(rt: HostRuntime) -> Result<(), Fail> {
    let alloc = rt.alloc();
    let bytes = behind_the_path(alloc, REPORT)?;
    let bytes = bytes.as_slice();
    let few = Status::Text {
        line: 2,
        kind: BadLine::TooFew,
    };
    let early = check_of(&ASYNC, b"1 2\n7\n# pgreport 1\n");
    refuses(&rt, alloc, early, few, "line 2: too few\n")?;
    let text = Given {
        bytes: 20,
        ..check_of(&ABSENT, bytes)
    };
    refuses(&rt, alloc, text, past(20), "limit: bytes 20\n")?;
    let source = Given {
        bytes: 50,
        ..check_of(&ABSENT, bytes)
    };
    refuses(
        &rt,
        alloc,
        source,
        Status::NoVertex { id: 9 },
        "no vertex 9\n",
    )?;
    let report = Given {
        bytes: 50,
        ..check_of(&ASYNC, bytes)
    };
    refuses(&rt, alloc, report, past(50), "limit: bytes 50\n")?;
    let header = Given {
        bytes: 50,
        ..check_of(&["check", "sync", "components"], bytes)
    };
    let first = Status::Rejected { line: 1 };
    refuses(&rt, alloc, header, first, "rejected at line 1\n")
}

/// The limit of bytes is passed.
fn past(limit: u64) -> Status {
    Status::Limit {
        which: Which::Bytes,
        limit,
    }
}

/// A check of the report behind the path, whose read of this number fails.
fn with_failed_read<'a>(words: &'a [&'a str], bytes: &'a [u8], reads: &'a [u64]) -> Given<'a> {
    Given {
        failed_reads: reads,
        ..check_of(words, bytes)
    }
}

#[test]
fn a_failed_read_is_told_where_it_is_made(rt: HostRuntime) -> Result<(), Fail> {
    let alloc = rt.alloc();
    let bytes = behind_the_path(alloc, REPORT)?;
    let bytes = bytes.as_slice();
    let fault = Status::ReadFault;
    let second = with_failed_read(&ASYNC, bytes, &[2]);
    refuses(&rt, alloc, second, fault, "read fault\n")?;
    let twelfth = with_failed_read(&ASYNC, bytes, &[12]);
    refuses(&rt, alloc, twelfth, fault, "read fault\n")?;
    let sixth = with_failed_read(&ABSENT, bytes, &[6]);
    refuses(&rt, alloc, sixth, fault, "read fault\n")?;
    let unread = with_failed_read(&ABSENT, bytes, &[12]);
    refuses(
        &rt,
        alloc,
        unread,
        Status::NoVertex { id: 9 },
        "no vertex 9\n",
    )
}

#[test]
fn a_failed_write_leaves_a_front_of_confirmed(rt: HostRuntime) -> Result<(), Fail> {
    let bytes = behind_the_path(rt.alloc(), REPORT)?;
    let given = Given {
        written_piece: 4,
        failed_writes: &[2],
        ..check_of(&ASYNC, bytes.as_slice())
    };
    let outcome = outcome_of(&rt, rt.alloc(), given)?;
    assert_eq!(rt; outcome.status, Status::WriteFault);
    assert_eq!(rt; outcome.out.bytes(), b"conf".as_slice());
    assert_eq!(rt; outcome.err.bytes(), b"write fault\n".as_slice());
    Ok(())
}
