//! Tables of words: behind each arrow the job that the words name, or the word at which they go wrong.
//!
//! A run is told as its engine with its limit and seed, its program and number, its format, its workers and its cut; a cut as
//! the last three.

use crate::{CutJob, CutKind, Engine, Job, ProgramName, RunJob, read_words};
use pg_readers::Format;
use std::alloc::{AllocError, Global};
use std::process::Abort;
use std::test::Fail;

/// The words between spaces, of which two side by side have an empty word between them.
fn words_of(alloc: Global, text: &str) -> Result<Vec<String>, AllocError> {
    let mut words = Vec::new(alloc);
    for word in text.split(' ') {
        words.push(String::from_str(alloc, word)?)?;
    }
    Ok(words)
}

fn engine_told(alloc: Global, engine: Engine) -> Result<String, AllocError> {
    match engine {
        Engine::Sync { rounds } => format!(in alloc; "sync {rounds}"),
        Engine::Serial { fuel } => format!(in alloc; "serial {fuel}"),
        Engine::Virtual { fuel, seed } => format!(in alloc; "virtual {fuel} {seed}"),
    }
}

fn program_told(alloc: Global, program: ProgramName) -> Result<String, AllocError> {
    match program {
        ProgramName::Components => String::from_str(alloc, "components"),
        ProgramName::Colour => String::from_str(alloc, "colour"),
        ProgramName::Sssp { source } => format!(in alloc; "sssp {source}"),
        ProgramName::Rank { tolerance } => format!(in alloc; "rank {tolerance}"),
        ProgramName::Tree { source } => format!(in alloc; "tree {source}"),
    }
}

fn format_told(format: Format) -> &'static str {
    match format {
        Format::Snap => "snap",
        Format::Tsv => "tsv",
        Format::Adj => "adj",
    }
}

fn kind_told(alloc: Global, kind: CutKind) -> Result<String, AllocError> {
    match kind {
        CutKind::Random { seed } => format!(in alloc; "random {seed}"),
        CutKind::Oblivious => String::from_str(alloc, "oblivious"),
        CutKind::Coordinated => String::from_str(alloc, "coordinated"),
    }
}

fn run_told(alloc: Global, run: RunJob) -> Result<String, AllocError> {
    let engine = engine_told(alloc, run.engine)?;
    let program = program_told(alloc, run.program)?;
    let format = format_told(run.format);
    let kind = kind_told(alloc, run.kind)?;
    let workers = run.workers;
    let cache = if run.cache { " cache" } else { "" };
    format!(in alloc; "{engine} {program} {format} {workers} {kind}{cache}")
}

fn cut_told(alloc: Global, cut: CutJob) -> Result<String, AllocError> {
    let format = format_told(cut.format);
    let kind = kind_told(alloc, cut.kind)?;
    let workers = cut.workers;
    format!(in alloc; "{format} {workers} {kind}")
}

/// What the words of a line are read to.
fn answer(alloc: Global, line: &str) -> Result<String, AllocError> {
    let words = words_of(alloc, line)?;
    match read_words(&words) {
        Ok(Job::Run(run)) => {
            let told = run_told(alloc, run)?;
            format!(in alloc; "run {told}")
        }
        Ok(Job::Check(run)) => {
            let told = run_told(alloc, run)?;
            format!(in alloc; "check {told}")
        }
        Ok(Job::Cut(cut)) => {
            let told = cut_told(alloc, cut)?;
            format!(in alloc; "cut {told}")
        }
        Err(usage) => {
            let place = usage.place;
            format!(in alloc; "word {place}")
        }
    }
}

/// The words of each line of a table are read to what stands behind the arrow.
pub fn agrees(rt: &impl Abort, alloc: Global, table: &str) -> Result<(), Fail> {
    for line in table.split('\n') {
        match line.split_once(" => ") {
            Some((words, want)) => {
                let read = answer(alloc, words)?;
                assert_eq!(rt; read.as_str(), want, "{line}");
            }
            None => assert!(rt; false, "{line}"),
        }
    }
    Ok(())
}

const RUNS: &str = "\
sync components => run sync 1000000 components snap 1 random 0
sync colour => run sync 1000000 colour snap 1 random 0
sync sssp --source 0 => run sync 1000000 sssp 0 snap 1 random 0
sync rank => run sync 1000000 rank 0 snap 1 random 0
sync tree --source 7 => run sync 1000000 tree 7 snap 1 random 0
async components --serial => run serial 1000000000 components snap 1 random 0
async colour --serial => run serial 1000000000 colour snap 1 random 0
async sssp --serial --source 0 => run serial 1000000000 sssp 0 snap 1 random 0
async rank --serial => run serial 1000000000 rank 0 snap 1 random 0
async tree --source 7 --serial => run serial 1000000000 tree 7 snap 1 random 0
async components --virtual 0 => run virtual 1000000000 0 components snap 1 random 0
async colour --virtual 18446744073709551615 => run virtual 1000000000 18446744073709551615 colour snap 1 random 0
async sssp --virtual 7 --source 0 => run virtual 1000000000 7 sssp 0 snap 1 random 0
async rank --virtual 7 => run virtual 1000000000 7 rank 0 snap 1 random 0
async tree --source 7 --virtual 8 => run virtual 1000000000 8 tree 7 snap 1 random 0";

#[test]
fn words_name_their_run(rt: HostRuntime) -> Result<(), Fail> {
    agrees(&rt, rt.alloc(), RUNS)
}

const OPTIONS: &str = "\
sync colour --format snap => run sync 1000000 colour snap 1 random 0
sync colour --format tsv => run sync 1000000 colour tsv 1 random 0
sync colour --format adj => run sync 1000000 colour adj 1 random 0
sync colour --rounds 0 => run sync 0 colour snap 1 random 0
sync colour --rounds 4294967295 => run sync 4294967295 colour snap 1 random 0
sync colour --rounds 000000000000000000000000000042 => run sync 42 colour snap 1 random 0
async components --fuel 0 --serial => run serial 0 components snap 1 random 0
async components --serial --fuel 4294967295 => run serial 4294967295 components snap 1 random 0
async components --virtual 007 --fuel 5 => run virtual 5 7 components snap 1 random 0
async components --fuel 5 --virtual 7 => run virtual 5 7 components snap 1 random 0
sync sssp --source 4294967295 --rounds 3 --format adj => run sync 3 sssp 4294967295 adj 1 random 0
sync sssp --format adj --rounds 3 --source 4294967295 => run sync 3 sssp 4294967295 adj 1 random 0
sync rank --tolerance 18446744073709551615 => run sync 1000000 rank 18446744073709551615 snap 1 random 0
sync rank --tolerance 007 => run sync 1000000 rank 7 snap 1 random 0";

#[test]
fn options_set_what_they_say_in_any_order(rt: HostRuntime) -> Result<(), Fail> {
    agrees(&rt, rt.alloc(), OPTIONS)
}

const CUT_OPTIONS: &str = "\
sync components --workers 1 => run sync 1000000 components snap 1 random 0
sync components --cut random => run sync 1000000 components snap 1 random 0
sync components --seed 0 => run sync 1000000 components snap 1 random 0
sync components --workers 3 => run sync 1000000 components snap 3 random 0
sync components --workers 064 => run sync 1000000 components snap 64 random 0
sync sssp --seed 18446744073709551615 --source 4 --workers 3 => run sync 1000000 sssp 4 snap 3 random 18446744073709551615
async components --serial --workers 3 --cut random --seed 7 => run serial 1000000000 components snap 3 random 7
sync components --cut oblivious => run sync 1000000 components snap 1 oblivious
async components --cut coordinated --seed 7 --serial => run serial 1000000000 components snap 1 coordinated
async components --virtual 3 --workers 3 --seed 7 => run virtual 1000000000 3 components snap 3 random 7
check sync components --workers 3 => check sync 1000000 components snap 3 random 0
check async components --seed 007 --workers 3 => check serial 1000000000 components snap 3 random 7";

#[test]
fn options_of_the_cut_stand_behind_every_run(rt: HostRuntime) -> Result<(), Fail> {
    agrees(&rt, rt.alloc(), CUT_OPTIONS)
}

const CACHES: &str = "\
sync components --cache => run sync 1000000 components snap 1 random 0 cache
sync sssp --cache --source 4 => run sync 1000000 sssp 4 snap 1 random 0 cache
sync rank --tolerance 7 --cache => run sync 1000000 rank 7 snap 1 random 0 cache
sync tree --source 7 --cache --workers 2 => run sync 1000000 tree 7 snap 2 random 0 cache
async components --virtual 3 --cache => run virtual 1000000000 3 components snap 1 random 0 cache
async sssp --cache --source 4 --virtual 3 => run virtual 1000000000 3 sssp 4 snap 1 random 0 cache
async rank --cache --virtual 3 => run virtual 1000000000 3 rank 0 snap 1 random 0 cache
async tree --source 7 --virtual 3 --cache => run virtual 1000000000 3 tree 7 snap 1 random 0 cache
sync colour --cache => word 3
async colour --cache => word 3
async colour --virtual 3 --cache => word 5
async components --cache => word 4
async components --serial --cache => word 4
async components --cache --serial => word 4
async components --cache --virtual 3 --serial => word 6
cut --cache => word 2
sync components --cache --cache => word 4
sync components --cache 1 => word 4
sync sssp --cache => word 4";

#[test]
fn gathers_are_kept_in_runs_of_all_programs_but_colour(rt: HostRuntime) -> Result<(), Fail> {
    agrees(&rt, rt.alloc(), CACHES)
}

const CUTS: &str = "\
cut => cut snap 1 random 0
cut --workers 4 --cut coordinated => cut snap 4 coordinated
cut --seed 7 --cut oblivious --format adj => cut adj 1 oblivious
cut --format tsv --seed 7 --workers 64 => cut tsv 64 random 7";

#[test]
fn a_cut_stands_by_itself(rt: HostRuntime) -> Result<(), Fail> {
    agrees(&rt, rt.alloc(), CUTS)
}

const WRONG_CUTS: &str = "\
Cut => word 1
cut components => word 2
cut cut => word 2
cut sync components => word 2
cut --rounds 3 => word 2
cut --fuel 3 => word 2
cut --serial => word 2
cut --virtual 1 => word 2
cut --source 1 => word 2
cut --tolerance 1 => word 2
sync cut => word 2
check cut => word 2
cut --workers => word 3
cut --workers 0 => word 3
cut --cut greedy => word 3
cut --cut random --cut random => word 4
cut --seed 1 --format snap --workers 1 --cut random x => word 10";

#[test]
fn words_of_a_cut_have_their_place(rt: HostRuntime) -> Result<(), Fail> {
    agrees(&rt, rt.alloc(), WRONG_CUTS)
}

// The first line has one word, which is empty; the words of some end with an empty one.
const NO_JOBS: &str = concat!(
    " => word 1\n",
    "components => word 1\n",
    "syn => word 1\n",
    "demo 0 7 => word 1\n",
    "Sync components => word 1\n",
    "sync => word 2\n",
    "async => word 2\n",
    "sync  components => word 2\n",
    "sync flow => word 2\n",
    "sync async => word 2\n",
    "sync --format snap components => word 2\n",
    "sync components rank => word 3\n",
    "sync components  => word 3\n",
    "sync components --colours 2 => word 3\n",
    "sync components --format=tsv => word 3\n",
    "sync sssp => word 3\n",
    "sync tree => word 3\n",
    "sync tree --rounds 5 --format tsv => word 7\n",
    "async components => word 3\n",
    "async sssp => word 3\n",
    "async sssp --serial => word 4\n",
    "async sssp --source 1 => word 5\n",
    "async components --fuel 1 => word 5",
);

#[test]
fn words_that_name_no_job_have_their_place(rt: HostRuntime) -> Result<(), Fail> {
    agrees(&rt, rt.alloc(), NO_JOBS)
}

const WRONG_VALUES: &str = concat!(
    "sync components --format => word 4\n",
    "sync components --format csv => word 4\n",
    "sync components --format  => word 4\n",
    "sync components --format --rounds 1 => word 4\n",
    "sync components --rounds 4294967296 => word 4\n",
    "sync components --rounds -1 => word 4\n",
    "sync components --rounds +1 => word 4\n",
    "sync components --rounds 1.0 => word 4\n",
    "sync components --rounds  => word 4\n",
    "async components --fuel 4294967296 --serial => word 4\n",
    "async components --fuel --serial => word 4\n",
    "async components --virtual => word 4\n",
    "async components --virtual --serial => word 4\n",
    "async components --virtual 18446744073709551616 => word 4\n",
    "sync rank --tolerance 18446744073709551616 => word 4\n",
    "sync sssp --source => word 4\n",
    "sync sssp --source 4294967296 => word 4\n",
    "sync sssp --source x --rounds 1 => word 4\n",
    "sync components --workers => word 4\n",
    "sync components --workers 0 => word 4\n",
    "sync components --workers 65 => word 4\n",
    "sync components --workers 256 => word 4\n",
    "sync components --workers 00 => word 4\n",
    "sync components --cut x => word 4\n",
    "sync components --cut Random => word 4\n",
    "check async rank --cut --seed 1 => word 5\n",
    "async components --serial --seed 18446744073709551616 => word 5",
);

#[test]
fn a_value_has_to_be_one_of_its_option(rt: HostRuntime) -> Result<(), Fail> {
    agrees(&rt, rt.alloc(), WRONG_VALUES)
}

const TWICE_OR_MISPLACED: &str = "\
sync components --source 1 => word 3
sync colour --source 1 => word 3
sync rank --source 1 => word 3
sync components --tolerance 1 => word 3
sync components --serial => word 3
sync components --fuel 1 => word 3
async components --rounds 1 --serial => word 3
async components --serial 1 => word 4
async components --serial --serial => word 4
sync components --virtual 1 => word 3
async components --serial --virtual 1 => word 4
async components --virtual 1 --serial => word 5
async components --virtual 1 --virtual 1 => word 5
async components --fuel 1 --serial --fuel 1 => word 6
sync sssp --source 1 --tolerance 1 => word 5
sync sssp --source 1 --source 1 => word 5
sync components --rounds 1 --format adj --rounds 2 => word 7
sync rank --tolerance 0 --rounds 0 --format snap extra => word 9
sync components --workers 1 --workers 1 => word 5
sync components --cut random --seed 1 --cut random => word 7
check sync components --seed 1 --seed 1 => word 6";

#[test]
fn an_option_stands_once_where_it_may(rt: HostRuntime) -> Result<(), Fail> {
    agrees(&rt, rt.alloc(), TWICE_OR_MISPLACED)
}

#[test]
fn no_words_go_wrong_at_the_first(rt: HostRuntime) -> Result<(), Fail> {
    assert!(rt; read_words(&[]).err().map(|usage| usage.place) == Some(1));
    Ok(())
}

#[test]
fn thirty_words_go_wrong_at_the_first_word_too_many(rt: HostRuntime) -> Result<(), Fail> {
    let mut words = words_of(rt.alloc(), "sync sssp --source 1 --format snap --rounds 1")?;
    for _ in 0..22 {
        words.push(String::from_str(rt.alloc(), "--format")?)?;
    }
    assert!(rt; read_words(&words).err().map(|usage| usage.place) == Some(9));
    Ok(())
}
