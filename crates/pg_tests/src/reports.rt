//! Reports behind a path of four vertices, and what a check finds of them.
ghost use Rattle.std.specs.Prelude.{◌≡◌, ◌<◌};
ghost use Rattle.pg_base.specs.Limits.{IsWithinStandard};

use pg_base::{Limits, LineCutter, MemSource, RawLine};
use pg_check::{Verdict, check};
use pg_input::{InputError, read_part};
use pg_law::{Steps, VertexProgram};
use pg_readers::Format;
use pg_words::{CutKind, Engine, ProgramName, RunJob};
use std::alloc::{AllocError, Global};
use std::marker::Brand;

const PATH: &str = "1\t2\n2\t3\n3\t4\n";

/// Components in rounds, by the lines of the report.
pub const SYNC: [&str; 7] = [
    "# pgreport 1 sync components\n",
    "# vertices 4 edges 3 loops 0\n",
    "1\t1\n",
    "2\t1\n",
    "3\t1\n",
    "4\t1\n",
    "# quiescent rounds 3 executions 7 gathers 10\n",
];

/// And by executions, each of the least signalled vertex.
pub const ASYNC: [&str; 11] = [
    "# pgreport 1 async components\n",
    "# vertices 4 edges 3 loops 0\n",
    "@1\t1\n",
    "@2\t1\n",
    "@3\t1\n",
    "@4\t1\n",
    "1\t1\n",
    "2\t1\n",
    "3\t1\n",
    "4\t1\n",
    "# quiescent executions 4 gathers 6\n",
];

/// A tree from the vertex 1, whose values are two numbers.
pub const TREE: [&str; 11] = [
    "# pgreport 1 async tree 1\n",
    "# vertices 4 edges 3 loops 0\n",
    "@1\t0\t1\n",
    "@2\t1\t1\n",
    "@3\t2\t2\n",
    "@4\t3\t3\n",
    "1\t0\t1\n",
    "2\t1\t1\n",
    "3\t2\t2\n",
    "4\t3\t3\n",
    "# quiescent executions 4 gathers 3\n",
];

/// Components until their fuel is spent.
pub const SPENT: [&str; 11] = [
    "# pgreport 1 async components\n",
    "# vertices 4 edges 3 loops 0\n",
    "@1\t1\n",
    "@2\t1\n",
    "@3\t1\n",
    "1\t1\n",
    "2\t1\n",
    "3\t1\n",
    "4\t4\n",
    "?4\t1\n",
    "# spent executions 3 gathers 5\n",
];

pub fn job(engine: Engine, program: ProgramName) -> RunJob {
    let format = Format::Snap;
    RunJob {
        engine,
        program,
        format,
        workers: 1,
        kind: CutKind::Random { seed: 0 },
        cache: false,
    }
}

pub fn rounds() -> RunJob {
    let rounds = 1_000_000;
    job(Engine::Sync { rounds }, ProgramName::Components)
}

pub fn executions(fuel: u32) -> RunJob {
    job(Engine::Serial { fuel }, ProgramName::Components)
}

/// What a check finds of the path's text with a report behind it, within so many bytes. The calls of
/// the source with these numbers fail.
pub fn find<P: VertexProgram>(
    alloc: Global,
    program: &P,
    job: RunJob,
    report: &[u8],
    bytes: u64,
    fails: &[u64],
) -> Result<Result<Verdict, InputError>, AllocError>
    requires { bytes < 1000 }
{
    let limits = Limits {
        vertices: 9,
        edges: 9,
        bytes,
    };
    let mut text = Vec::from_slice(alloc, PATH.as_bytes())?;
    text.extend_from_slice(report)?;
    let mut source = MemSource::new(text, 16, Vec::from_slice(alloc, fails)?);
    let mut cutter = LineCutter::new(alloc)?;
    let stop = b"# pgreport ";
    let part = match read_part(alloc, job.format, limits, &mut cutter, &mut source, stop) {
        Ok(part) => part,
        Err(error) => return Ok(Err(error)),
    };
    let mut steps = Steps::<Brand>::new();
    let ended = part.stop_ended;
    let first = match &part.stop {
        Some(bytes) => Some(RawLine {
            bytes: bytes.as_slice(),
            ended,
        }),
        None => None,
    };
    Ok(check(
        alloc,
        program,
        &part.graph,
        &job,
        first,
        &mut cutter,
        &mut source,
        limits,
        &mut steps,
    ))
}

/// The lines of a report, one behind another.
pub fn text_of(alloc: Global, lines: &[&str]) -> Result<Vec<u8>, AllocError> {
    let mut text = Vec::new(alloc);
    for line in lines {
        text.extend_from_slice(line.as_bytes())?;
    }
    Ok(text)
}

/// The same with other lines in place of one, or behind all.
pub fn text_with(
    alloc: Global,
    lines: &[&str],
    at: usize,
    instead: &str,
) -> Result<Vec<u8>, AllocError> {
    let mut text = Vec::new(alloc);
    for (number, line) in lines.iter().enumerate() {
        let line = if number == at { instead } else { *line };
        text.extend_from_slice(line.as_bytes())?;
    }
    if at >= lines.len() {
        text.extend_from_slice(instead.as_bytes())?;
    }
    Ok(text)
}
