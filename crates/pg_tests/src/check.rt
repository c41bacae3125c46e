//! Reports that are right, and reports that are wrong in one line.
ghost use Rattle.std.specs.Prelude.{◌≡◌, ◌<◌};

use crate::reports::{ASYNC, SPENT, SYNC, TREE, executions, find, job, rounds, text_of, text_with};
use pg_check::Verdict;
use pg_input::{InputError, Which};
use pg_law::VertexProgram;
use pg_paths::{Components, Tree};
use pg_words::{Engine, ProgramName, RunJob};
use std::alloc::{AllocError, Global};
use std::process::Abort;
use std::test::Fail;

/// A report that is cut off anywhere is wrong in the line that was cut, or in the one behind it.
fn check_cuts<P: VertexProgram>(
    rt: &impl Abort,
    alloc: Global,
    program: &P,
    job: RunJob,
    lines: &[&str],
) -> Result<(), AllocError> {
    let text = text_of(alloc, lines)?;
    let mut line = 1;
    for end in 0..text.len() {
        let found = find(alloc, program, job, &text[..end], 999, &[])?;
        assert_eq!(rt; found, Ok(Verdict::Rejected { line }), "{end}");
        if text[end] == b'\n' {
            line = line.saturating_add(1);
        }
    }
    let found = find(alloc, program, job, text.as_slice(), 999, &[])?;
    assert_eq!(rt; found, Ok(Verdict::Confirmed));
    Ok(())
}

#[test]
fn a_report_that_is_cut_off_is_wrong_there(rt: HostRuntime) -> Result<(), Fail> {
    let source = 1;
    let tree = ProgramName::Tree { source };
    let fuel = 9;
    let components = Components::new();
    check_cuts(&rt, rt.alloc(), &components, rounds(), SYNC.as_slice())?;
    check_cuts(
        &rt,
        rt.alloc(),
        &components,
        executions(9),
        ASYNC.as_slice(),
    )?;
    check_cuts(
        &rt,
        rt.alloc(),
        &components,
        executions(3),
        SPENT.as_slice(),
    )?;
    check_cuts(
        &rt,
        rt.alloc(),
        &Tree::new(source),
        job(Engine::Serial { fuel }, tree),
        TREE.as_slice(),
    )?;
    Ok(())
}

/// What is wrong; the fuel of the job, or that it makes rounds; the report; the place of the line that is replaced, or the number of all;
/// the lines in its place, each with a `/` for its line feed; and the first wrong line.
const WRONG: &str = "\
no header | rounds | sync | 0 |  | 1
another engine | 9 | sync | 7 |  | 1
another program | rounds | sync | 0 | # pgreport 1 sync colour/ | 1
another format | rounds | sync | 0 | # pgreport 2 sync components/ | 1
another count | rounds | sync | 1 | # vertices 4 edges 3 loops 1/ | 2
no counts | rounds | sync | 1 |  | 2
another value | rounds | sync | 3 | 2\t2/ | 4
a leading zero | rounds | sync | 3 | 2\t01/ | 4
a carriage return | rounds | sync | 3 | 2\t1\r/ | 4
a value twice | rounds | sync | 3 | 2\t1/2\t1/ | 5
an entry of rounds | rounds | sync | 2 | @1\t1/1\t1/ | 3
a line behind the last | rounds | sync | 7 | / | 8
an entry left out | 9 | async | 5 |  | 6
an entry twice | 9 | async | 3 | @2\t1/@2\t1/ | 5
another datum | 9 | async | 4 | @3\t2/ | 5
an entry with a zero | 9 | async | 4 | @03\t1/ | 5
an absent vertex | 9 | async | 4 | @5\t1/ | 5
a mark alone | 9 | async | 4 | @/ | 5
a second value | 9 | async | 4 | @3\t1\t1/ | 5
an entry past the fuel | 3 | async | 11 |  | 6
an entry behind the last | 4 | async | 6 | @1\t1/1\t1/ | 7
a line behind the end | 4 | async | 11 | x | 12";

/// The check of one row of the table ends at its line.
fn is_wrong_there(rt: &impl Abort, alloc: Global, row: &str) -> Result<(), Fail> {
    let mut columns = row.split(" | ").skip(1);
    if let Some(fuel) = columns.next()
        && let Some(report) = columns.next()
        && let Some(at) = columns.next()
        && let Some(instead) = columns.next()
        && let Some(line) = columns.next()
    {
        let lines = if report == "sync" {
            SYNC.as_slice()
        } else {
            ASYNC.as_slice()
        };
        let instead = instead.replace(alloc, '/', "\n")?;
        let text = text_with(alloc, lines, number(rt, at) as usize, instead.as_str())?;
        let job = match fuel.parse::<u32>() {
            Ok(fuel) => executions(fuel),
            Err(_) => rounds(),
        };
        let found = find(alloc, &Components::new(), job, text.as_slice(), 999, &[])?;
        let line = number(rt, line) as u64;
        assert_eq!(rt; found, Ok(Verdict::Rejected { line }), "{row}");
    } else {
        assert!(rt; false, "{row}");
    }
    Ok(())
}

/// A number of a table.
fn number(rt: &impl Abort, digits: &str) -> u32 {
    match digits.parse::<u32>() {
        Ok(number) => number,
        Err(_) => panic!(rt; "{digits}"),
    }
}

#[test]
fn the_first_wrong_line_is_told(rt: HostRuntime) -> Result<(), Fail> {
    for row in WRONG.split('\n') {
        is_wrong_there(&rt, rt.alloc(), row)?;
    }
    Ok(())
}

/// The fuel of the job; entries, with an `=` between vertex and label; executions and gathers of the last line; the first wrong line, or 0.
const JOURNALS: &str = "\
9 | 2=1 1=1 3=1 4=1 | executions 4 gathers 6 | 0
4 | 1=1 2=1 3=1 4=1 | executions 4 gathers 6 | 0
9 | 1=1 3=2 2=1 4=2 3=1 4=1 | executions 6 gathers 9 | 0
9 | 1=1 3=2 2=1 4=2 3=1 4=1 | executions 4 gathers 6 | 13
9 | 1=1 3=2 2=1 4=2 3=1 4=1 | executions 6 gathers 6 | 13
9 | 1=1 3=1 2=1 4=1 | executions 4 gathers 6 | 4
9 | 1=1 3=2 2=1 4=1 | executions 4 gathers 6 | 6";

/// The same where gathers are kept, so that the last line tells those of the distinct vertices.
const KEPT_JOURNALS: &str = "\
9 | 2=1 1=1 3=1 4=1 | executions 4 gathers 6 | 0
9 | 1=1 3=2 2=1 4=2 3=1 4=1 | executions 6 gathers 6 | 0
6 | 1=1 3=2 2=1 4=2 3=1 4=1 | executions 6 gathers 6 | 0
9 | 1=1 3=2 2=1 4=2 3=1 4=1 | executions 6 gathers 9 | 13
9 | 1=1 3=2 2=1 4=2 3=1 4=1 | executions 6 gathers 5 | 13
9 | 1=1 3=2 2=1 4=1 | executions 4 gathers 6 | 6";

/// A report with these entries, and this behind `quiescent` in its last line.
fn report_of(alloc: Global, entries: &str, took: &str) -> Result<Vec<u8>, AllocError> {
    let mut text = text_of(alloc, &ASYNC[..2])?;
    for entry in entries.split(' ') {
        let entry = entry.replace(alloc, '=', "\t")?;
        text.extend_from_slice(format!(in alloc; "@{entry}\n")?.as_bytes())?;
    }
    for line in &ASYNC[6..10] {
        text.extend_from_slice(line.as_bytes())?;
    }
    text.extend_from_slice(format!(in alloc; "# quiescent {took}\n")?.as_bytes())?;
    Ok(text)
}

/// The journal of one row of the table gets its verdict.
fn has_its_verdict(rt: &impl Abort, alloc: Global, cache: bool, row: &str) -> Result<(), Fail> {
    let mut columns = row.split(" | ");
    if let Some(fuel) = columns.next()
        && let Some(entries) = columns.next()
        && let Some(took) = columns.next()
        && let Some(line) = columns.next()
    {
        let text = report_of(alloc, entries, took)?;
        let job = RunJob {
            cache,
            ..executions(number(rt, fuel))
        };
        let found = find(alloc, &Components::new(), job, text.as_slice(), 999, &[])?;
        let line = number(rt, line) as u64;
        let verdict = if line == 0 {
            Verdict::Confirmed
        } else {
            Verdict::Rejected { line }
        };
        assert_eq!(rt; found, Ok(verdict), "{row}");
    } else {
        assert!(rt; false, "{row}");
    }
    Ok(())
}

#[test]
fn any_legal_journal_is_right(rt: HostRuntime) -> Result<(), Fail> {
    for row in JOURNALS.split('\n') {
        has_its_verdict(&rt, rt.alloc(), false, row)?;
    }
    Ok(())
}

#[test]
fn a_journal_with_kept_gathers_tells_each_vertex_once(rt: HostRuntime) -> Result<(), Fail> {
    for row in KEPT_JOURNALS.split('\n') {
        has_its_verdict(&rt, rt.alloc(), true, row)?;
    }
    Ok(())
}

/// The check of a report of rounds that tells so many gathers finds so.
fn finds_told(
    rt: &impl Abort,
    alloc: Global,
    cache: bool,
    gathers: u64,
    verdict: Verdict,
) -> Result<(), Fail> {
    let last = format!(in alloc; "# quiescent rounds 3 executions 7 gathers {gathers}\n")?;
    let text = text_with(alloc, SYNC.as_slice(), 6, last.as_str())?;
    let job = RunJob { cache, ..rounds() };
    let found = find(alloc, &Components::new(), job, text.as_slice(), 999, &[])?;
    assert_eq!(rt; found, Ok(verdict), "{gathers}");
    Ok(())
}

/// All four vertices execute, over six edges together; the seven executions gather over ten.
#[test]
fn rounds_with_kept_gathers_tell_each_vertex_once(rt: HostRuntime) -> Result<(), Fail> {
    let alloc = rt.alloc();
    let last = Verdict::Rejected { line: 7 };
    finds_told(&rt, alloc, true, 6, Verdict::Confirmed)?;
    finds_told(&rt, alloc, true, 10, last)?;
    finds_told(&rt, alloc, false, 10, Verdict::Confirmed)?;
    finds_told(&rt, alloc, false, 6, last)
}

/// A check of the report of rounds within so many bytes, whose third line is this, finds so.
fn finds_within(
    rt: &impl Abort,
    alloc: Global,
    bytes: u64,
    third: &str,
    found: Result<Verdict, InputError>,
) -> Result<(), Fail> {
    assert!(rt; bytes < 1000);
    let text = text_with(alloc, SYNC.as_slice(), 2, third)?;
    let answer = find(
        alloc,
        &Components::new(),
        rounds(),
        text.as_slice(),
        bytes,
        &[],
    )?;
    assert_eq!(rt; answer, found, "{bytes}");
    Ok(())
}

/// The limit of bytes is passed.
fn past(limit: u64) -> Result<Verdict, InputError> {
    let which = Which::Bytes;
    Err(InputError::Limit { which, limit })
}

// The path takes 12 bytes, and the lines of the report 29, 29, 4, 4, 4, 4 and 45.
#[test]
fn the_limit_comes_before_the_comparison(rt: HostRuntime) -> Result<(), Fail> {
    let alloc = rt.alloc();
    let right = "1\t1\n";
    for limit in [11, 40, 69, 130] {
        finds_within(&rt, alloc, limit, right, past(limit))?;
    }
    finds_within(&rt, alloc, 131, right, Ok(Verdict::Confirmed))?;
    let wrong = "1\t7\n";
    finds_within(&rt, alloc, 73, wrong, past(73))?;
    let third = Verdict::Rejected { line: 3 };
    finds_within(&rt, alloc, 74, wrong, Ok(third))
}

#[test]
fn a_fault_of_the_source_is_told(rt: HostRuntime) -> Result<(), Fail> {
    let text = text_of(rt.alloc(), SYNC.as_slice())?;
    for call in 1..10 {
        let answer = find(
            rt.alloc(),
            &Components::new(),
            rounds(),
            text.as_slice(),
            999,
            &[call],
        )?;
        assert_eq!(rt; answer, Err(InputError::ReadFault), "{call}");
    }
    Ok(())
}
