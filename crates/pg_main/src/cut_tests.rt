//! Rounds over cuts: the bytes of one worker's, and workers that run side by side.

use crate::counters::counters;
use crate::run::{WORKERS, run};
use crate::sessions::{Outcome, PATH, ran};
use crate::status::Status;
use pg_base::{Gate, Limits, MemSink, MemSource};
use std::alloc::Global;
use std::marker::Brand;
use std::process::Abort;
use std::sync::atomic::{AtomicU64, Ordering};
use std::test::Fail;
use std::thread::Threads;

const COMMENTS: &str =
    "# Directed graph: comments.txt\n# FromNodeId\tToNodeId\n30\t10\r\n10\t20\r\n10\t20\r\n40\t40\r\n";

const LISTS: &str = "1 2 2 3\n2 0\n3 1 1\n";

const WEIGHTED: &str = "1 2 5\n3\t1\t1\n2 3\n";

/// A job by one worker, and the same over a cut by these words, end alike and write the same bytes.
fn is_same_over<R: Threads + Sync + Abort>(
    rt: &R,
    alloc: Global,
    plain: &Outcome,
    words: &str,
    cut: &str,
    text: &str,
) -> Result<(), Fail> {
    let line = format!(in alloc; "{words} {cut}")?;
    let over = ran(rt, alloc, line.as_str(), text)?;
    assert_eq!(rt; over.status, plain.status, "{line}");
    assert_eq!(rt; over.out.bytes(), plain.out.bytes(), "{line}");
    Ok(())
}

/// So it is for each of these cuts; the job ends so.
fn is_same_over_cuts<R: Threads + Sync + Abort>(
    rt: &R,
    alloc: Global,
    words: &str,
    text: &str,
    status: Status,
) -> Result<(), Fail> {
    let plain = ran(rt, alloc, words, text)?;
    assert_eq!(rt; plain.status, status, "{words}");
    is_same_over(rt, alloc, &plain, words, "--workers 1 --seed 3", text)?;
    is_same_over(rt, alloc, &plain, words, "--workers 2", text)?;
    is_same_over(
        rt,
        alloc,
        &plain,
        words,
        "--cut random --workers 3 --seed 7",
        text,
    )?;
    is_same_over(rt, alloc, &plain, words, "--workers 5 --seed 9", text)?;
    is_same_over(
        rt,
        alloc,
        &plain,
        words,
        "--cut oblivious --workers 4",
        text,
    )?;
    is_same_over(
        rt,
        alloc,
        &plain,
        words,
        "--workers 3 --cut coordinated",
        text,
    )?;
    let most = "--workers 64 --seed 18446744073709551615";
    is_same_over(rt, alloc, &plain, words, most, text)
}

#[test]
fn components_are_the_same_over_every_cut(rt: HostRuntime) -> Result<(), Fail> {
    let alloc = rt.alloc();
    is_same_over_cuts(&rt, alloc, "sync components", "", Status::Quiescent)?;
    is_same_over_cuts(&rt, alloc, "sync components", PATH, Status::Quiescent)?;
    is_same_over_cuts(&rt, alloc, "sync components", COMMENTS, Status::Quiescent)?;
    is_same_over_cuts(
        &rt,
        alloc,
        "sync components --rounds 1",
        PATH,
        Status::Spent,
    )
}

#[test]
fn programs_are_the_same_over_every_cut(rt: HostRuntime) -> Result<(), Fail> {
    let alloc = rt.alloc();
    let colour = "sync colour --rounds 3 --format adj";
    is_same_over_cuts(&rt, alloc, colour, LISTS, Status::Spent)?;
    let rank = "sync rank --format adj";
    is_same_over_cuts(&rt, alloc, rank, LISTS, Status::Quiescent)?;
    let paths = "sync sssp --source 1 --format tsv";
    is_same_over_cuts(&rt, alloc, paths, WEIGHTED, Status::Quiescent)?;
    let tree = "sync tree --source 3 --format tsv";
    is_same_over_cuts(&rt, alloc, tree, WEIGHTED, Status::Quiescent)
}

#[test]
fn kept_gathers_are_the_same_over_every_cut(rt: HostRuntime) -> Result<(), Fail> {
    let alloc = rt.alloc();
    let components = "sync components --cache";
    is_same_over_cuts(&rt, alloc, components, COMMENTS, Status::Quiescent)?;
    let stopped = "sync components --cache --rounds 1";
    is_same_over_cuts(&rt, alloc, stopped, PATH, Status::Spent)?;
    let rank = "sync rank --format adj --cache";
    is_same_over_cuts(&rt, alloc, rank, LISTS, Status::Quiescent)?;
    let paths = "sync sssp --source 1 --format tsv --cache";
    is_same_over_cuts(&rt, alloc, paths, WEIGHTED, Status::Quiescent)?;
    let tree = "sync tree --source 3 --format tsv --cache";
    is_same_over_cuts(&rt, alloc, tree, WEIGHTED, Status::Quiescent)
}

/// Two workers, each of which tells that it came, and whether it saw the other come.
#[derive(Drop)]
struct Meeting {
    came: [AtomicU64; 2],
    met: [AtomicU64; 2],
}

impl Gate for Meeting {
    fn pass(&self, who: u32) {
        if who < 2 {
            let own = who as usize;
            self.came[own].store(1, Ordering::SeqCst);
            for _ in 0..1_000_000_000 {
                if self.came[1 - own].load(Ordering::SeqCst) == 1 {
                    self.met[own].store(1, Ordering::SeqCst);
                    return;
                }
            }
        }
    }
}

#[test]
fn workers_gather_side_by_side(rt: HostRuntime) -> Result<(), Fail> {
    let alloc = rt.alloc();
    let mut words = Vec::new(alloc);
    for word in "sync components --format adj --workers 2".split(' ') {
        words.push(String::from_str(alloc, word)?)?;
    }
    let mut input = MemSource::new(Vec::from_slice(alloc, b"1 0\n2 0\n")?, 64, Vec::new(alloc));
    let mut out = MemSink::new(alloc, 4096, 64, Vec::new(alloc))?;
    let mut err = MemSink::new(alloc, 64, 64, Vec::new(alloc))?;
    let mut steps = counters::<Brand>(alloc, WORKERS)?;
    let gate = Meeting {
        came: [AtomicU64::new(0), AtomicU64::new(0)],
        met: [AtomicU64::new(0), AtomicU64::new(0)],
    };
    let status = run(
        &rt,
        alloc,
        words.as_slice(),
        Limits::standard(),
        &mut input,
        &mut out,
        &mut err,
        &gate,
        steps.as_mut_slice(),
    );
    assert_eq!(rt; status, Status::Quiescent);
    assert_eq!(rt; gate.met[0].load(Ordering::SeqCst), 1);
    assert_eq!(rt; gate.met[1].load(Ordering::SeqCst), 1);
    Ok(())
}
