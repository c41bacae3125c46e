//! What is handed in and what comes of it, and tables of runs as a shell shows them.

use crate::counters::counters;
use crate::run::{WORKERS, run};
use crate::status::Status;
use pg_base::{Limits, MemSink, MemSource, NoGate};
use std::alloc::{AllocError, Global};
use std::marker::Brand;
use std::process::Abort;
use std::test::Fail;
use std::thread::Threads;

pub const PATH: &str = "1\t2\n2\t3\n3\t4\n";

/// What is handed in. The calls of these numbers fail, counted from 1.
#[derive(Clone, Copy)]
pub struct Given<'a> {
    pub words: &'a [&'a str],
    pub text: &'a [u8],
    pub vertices: u32,
    pub edges: u32,
    pub bytes: u64,
    pub failed_reads: &'a [u64],
    pub written_piece: usize,
    pub failed_writes: &'a [u64],
}

/// What comes of it.
#[derive(Drop)]
pub struct Outcome {
    pub status: Status,
    pub out: MemSink,
    pub err: MemSink,
}

pub fn outcome_of<R: Threads + Sync>(
    rt: &R,
    alloc: Global,
    given: Given<'_>,
) -> Result<Outcome, AllocError> {
    let mut words = Vec::new(alloc);
    for word in given.words {
        words.push(String::from_str(alloc, word)?)?;
    }
    let text = Vec::from_slice(alloc, given.text)?;
    let mut input = MemSource::new(text, 5, Vec::from_slice(alloc, given.failed_reads)?);
    let failed_writes = Vec::from_slice(alloc, given.failed_writes)?;
    let mut out = MemSink::new(alloc, 4096, given.written_piece.max(1), failed_writes)?;
    let mut err = MemSink::new(alloc, 4096, 64, Vec::new(alloc))?;
    let mut steps = counters::<Brand>(alloc, WORKERS)?;
    let standard = Limits::standard();
    let limits = Limits {
        vertices: given.vertices.min(standard.vertices),
        edges: given.edges.min(standard.edges),
        bytes: given.bytes.min(standard.bytes),
    };
    let status = run(
        rt,
        alloc,
        words.as_slice(),
        limits,
        &mut input,
        &mut out,
        &mut err,
        &NoGate,
        steps.as_mut_slice(),
    );
    Ok(Outcome { status, out, err })
}

/// A job on a text at the standard limits, where nothing fails.
pub fn calm<'a>(words: &'a [&'a str], text: &'a str) -> Given<'a> {
    Given {
        words,
        text: text.as_bytes(),
        vertices: u32::MAX,
        edges: u32::MAX,
        bytes: u64::MAX,
        failed_reads: &[],
        written_piece: 64,
        failed_writes: &[],
    }
}

/// A job whose words stand in a line, on a text, at the standard limits, where nothing fails.
pub fn ran<R: Threads + Sync>(
    rt: &R,
    alloc: Global,
    line: &str,
    text: &str,
) -> Result<Outcome, AllocError> {
    let mut words = Vec::new(alloc);
    for word in line.split(' ') {
        words.push(word)?;
    }
    outcome_of(rt, alloc, calm(words.as_slice(), text))
}

/// Such a job ends so: `told` is the number with which the program ends, and behind a blank what is told of a refusal.
/// A report that ends in dots goes on in some way.
pub fn ends<R: Threads + Sync + Abort>(
    rt: &R,
    alloc: Global,
    line: &str,
    text: &str,
    told: &str,
    report: &str,
) -> Result<(), Fail> {
    let outcome = ran(rt, alloc, line, text)?;
    let code = outcome.status.code();
    let number = format!(in alloc; "{code}")?;
    match told.split_once(' ') {
        Some((wanted, refusal)) => {
            let refused = format!(in alloc; "{refusal}\n")?;
            assert_eq!(rt; number.as_str(), wanted, "{line}");
            assert_eq!(rt; outcome.err.bytes(), refused.as_bytes(), "{line}");
        }
        None => {
            assert_eq!(rt; number.as_str(), told, "{line}");
            assert!(rt; outcome.err.bytes().is_empty(), "{line}");
            assert!(rt; outcome.out.is_finished(), "{line}");
        }
    }
    match report.strip_suffix("...\n") {
        Some(front) => {
            let begins = outcome.out.bytes().starts_with(front.as_bytes());
            assert!(rt; begins, "{line}");
        }
        None => assert_eq!(rt; outcome.out.bytes(), report.as_bytes(), "{line}"),
    }
    Ok(())
}

/// A table of runs: behind `$ ` the words, below them the text that is handed in, behind `> ` how the run ends, and below
/// that what it writes. A text without a last line feed has a `%` in its place, as some shells show it.
pub fn sessions<R: Threads + Sync + Abort>(rt: &R, alloc: Global, table: &str) -> Result<(), Fail> {
    for session in table.split('$').skip(1) {
        session_ends(rt, alloc, session)?;
    }
    Ok(())
}

/// One of them, behind its first sign.
fn session_ends<R: Threads + Sync + Abort>(
    rt: &R,
    alloc: Global,
    session: &str,
) -> Result<(), Fail> {
    if let Some((line, rest)) = session.split_once('\n')
        && let Some((text, answer)) = rest.split_once("> ")
        && let Some((told, report)) = answer.split_once('\n')
    {
        let given = text.strip_suffix("%\n").unwrap_or(text);
        ends(rt, alloc, line.trim(), given, told, report)
    } else {
        assert!(rt; false, "{session}");
        Ok(())
    }
}

/// What is handed in is refused so, with this line, and nothing is written.
pub fn refuses<R: Threads + Sync + Abort>(
    rt: &R,
    alloc: Global,
    given: Given<'_>,
    status: Status,
    line: &str,
) -> Result<(), Fail> {
    let outcome = outcome_of(rt, alloc, given)?;
    assert_eq!(rt; outcome.status, status, "{line}");
    assert!(rt; outcome.out.bytes().is_empty(), "{line}");
    assert_eq!(rt; outcome.err.bytes(), line.as_bytes(), "{line}");
    Ok(())
}
