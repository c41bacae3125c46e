//! Reports as texts, and their lines.

use crate::samples::graph_of;
use pg_base::{Failed, MemSink};
use pg_law::{Datum, EdgeWords, End, State};
use pg_report::{LastLine, read_report_line, write_head, write_tail};
use pg_words::{EngineName, ProgramName};
use std::alloc::{AllocError, Global};
use std::process::Abort;
use std::test::Fail;

/// The report of this job begins so.
fn begins(
    rt: &impl Abort,
    alloc: Global,
    engine: EngineName,
    program: ProgramName,
    line: &str,
) -> Result<(), Fail> {
    let graph = graph_of(rt, alloc, EDGES.as_slice())?;
    let mut sink = sink(alloc, 1000)?;
    let written = write_head(&mut sink, engine, program, &graph);
    let text = format!(in alloc; "{line}\n# vertices 4 edges 3 loops 1\n")?;
    assert_eq!(rt; written, Ok(()), "{line}");
    assert_eq!(rt; sink.bytes(), text.as_bytes(), "{line}");
    Ok(())
}

#[test]
fn a_report_begins_with_its_job_and_the_counts_of_the_graph(rt: HostRuntime) -> Result<(), Fail> {
    let alloc = rt.alloc();
    let (rounds, executions) = (EngineName::Sync, EngineName::Async);
    let components = ProgramName::Components;
    begins(
        &rt,
        alloc,
        rounds,
        components,
        "# pgreport 1 sync components",
    )?;
    let colour = ProgramName::Colour;
    begins(&rt, alloc, executions, colour, "# pgreport 1 async colour")?;
    let paths = ProgramName::Sssp { source: u32::MAX };
    begins(
        &rt,
        alloc,
        rounds,
        paths,
        "# pgreport 1 sync sssp 4294967295",
    )?;
    let rank = ProgramName::Rank {
        tolerance: u64::MAX,
    };
    let most = "# pgreport 1 async rank 18446744073709551615";
    begins(&rt, alloc, executions, rank, most)?;
    let tree = ProgramName::Tree { source: 0 };
    begins(&rt, alloc, executions, tree, "# pgreport 1 async tree 0")
}

/// The report of a run of this program that left four vertices ends so.
fn ends(
    rt: &impl Abort,
    alloc: Global,
    program: ProgramName,
    last: LastLine,
    text: &str,
) -> Result<(), Fail> {
    let graph = graph_of(rt, alloc, EDGES.as_slice())?;
    let state = state_left(alloc)?;
    assert_eq!(rt; state.values.len(), graph.vertices() as usize);
    assert_eq!(rt; state.messages.len(), graph.vertices() as usize);
    let mut sink = sink(alloc, 1000)?;
    let written = write_tail(&mut sink, program, &graph, &state, last);
    assert_eq!(rt; written, Ok(()), "{text}");
    assert_eq!(rt; sink.bytes(), text.as_bytes(), "{text}");
    Ok(())
}

const AFTER_ROUNDS: &str = "\
1\t1
2\t1
3\t1
4\t4
?3\t7
?4\t1
# spent rounds 3 executions 6 gathers 18446744073709551615
";

const AFTER_EXECUTIONS: &str = "\
1\t1
2\t1
3\t1
4\t4
?3\t7
?4\t1
# quiescent executions 4 gathers 6
";

const TREE: &str = "\
1\t1\t0
2\t1\t1
3\t1\t2
4\t4\t3
?3\t7
?4\t1
# quiescent executions 4 gathers 6
";

#[test]
fn a_report_ends_with_values_and_signals_and_what_the_run_took(
    rt: HostRuntime,
) -> Result<(), Fail> {
    let alloc = rt.alloc();
    let rounds = LastLine {
        end: End::Spent,
        rounds: Some(3),
        executions: 6,
        gathers: u64::MAX,
    };
    let journal = LastLine {
        end: End::Quiescent,
        rounds: None,
        executions: 4,
        gathers: 6,
    };
    let components = ProgramName::Components;
    ends(&rt, alloc, components, rounds, AFTER_ROUNDS)?;
    ends(&rt, alloc, components, journal, AFTER_EXECUTIONS)?;
    ends(&rt, alloc, ProgramName::Tree { source: 1 }, journal, TREE)
}

#[test]
fn a_sink_without_room_fails_and_has_a_front(rt: HostRuntime) -> Result<(), Fail> {
    let graph = graph_of(&rt, rt.alloc(), EDGES.as_slice())?;
    let mut sink = sink(rt.alloc(), 30)?;
    let written = write_head(&mut sink, EngineName::Sync, ProgramName::Components, &graph);
    assert_eq!(rt; written, Err(Failed));
    assert_eq!(rt; sink.bytes(), b"# pgreport 1 sync components\n".as_slice());
    Ok(())
}

/// Lines, and what they say.
const LINES: &str = "\
# pgreport 1 async tree 7 => Head { engine: Async, program: Tree { source: 7 } }
# pgreport 1 sync colour => Head { engine: Sync, program: Colour }
# vertices 4294967295 edges 0 loops 18446744073709551615 => Counts { vertices: 4294967295, edges: 0, loops: 18446744073709551615 }
@4\t1 => Entry { id: 4, value: 1, second: None }
@4\t2\t18446744073709551615 => Entry { id: 4, value: 2, second: Some(18446744073709551615) }
4294967295\t0 => Value { id: 4294967295, value: 0, second: None }
0\t18446744073709551615\t10 => Value { id: 0, value: 18446744073709551615, second: Some(10) }
?2\t0 => Signal { id: 2, message: 0 }
# quiescent executions 4 gathers 6 => Last { last: LastLine { end: Quiescent, rounds: None, executions: 4, gathers: 6 } }
# spent executions 0 gathers 0 => Last { last: LastLine { end: Spent, rounds: None, executions: 0, gathers: 0 } }
# quiescent rounds 0 executions 0 gathers 0 => Last { last: LastLine { end: Quiescent, rounds: Some(0), executions: 0, gathers: 0 } }
# spent rounds 4294967295 executions 6 gathers 7 => Last { last: LastLine { end: Spent, rounds: Some(4294967295), executions: 6, gathers: 7 } }";

const NO_LINES: &str = "\
1 => none
 => none
1\t => none
1 2 => none
\t1 => none
01\t1 => none
1\t01 => none
1\t1\t01 => none
1\t1\t => none
1\t1\t1\t1 => none
1\t1  => none
-1\t1 => none
4294967296\t1 => none
1\t18446744073709551616 => none
1\t1\t18446744073709551616 => none
@ => none
@1 => none
@@1\t1 => none
@01\t1 => none
?1\t1\t1 => none
? 1\t1 => none
# => none
#  => none
# pgreport 1 => none
# pgreport 2 sync components => none
# pgreport 1 sync => none
# pgreport 1 serial components => none
# pgreport 1 sync components  => none
# pgreport 1 sync sssp => none
# pgreport 1 sync sssp 07 => none
# pgreport 1 sync sssp 4294967296 => none
# pgreport 1 sync rank 18446744073709551616 => none
# pgreport 1 sync colour 1 => none
# vertices 1 edges 1 => none
# vertices 1 edges 4294967296 loops 0 => none
# vertices 1 edges 1 loops 0  => none
# quiescent => none
# quiescent rounds 1 => none
# quiescent rounds 1 executions 1 => none
# quiescent  executions 1 gathers 1 => none
# quiescent rounds 4294967296 executions 1 gathers 1 => none
# stopped executions 1 gathers 1 => none
# Spent executions 1 gathers 1 => none";

/// What a line says.
fn said(alloc: Global, text: &str) -> Result<String, AllocError> {
    match read_report_line(text.as_bytes()) {
        Some(line) => format!(in alloc; "{line:?}"),
        None => String::from_str(alloc, "none"),
    }
}

/// Each line of a table says what stands behind its arrow.
fn say_so(rt: &impl Abort, alloc: Global, table: &str) -> Result<(), Fail> {
    for row in table.split('\n') {
        if let Some((line, want)) = row.split_once(" => ") {
            let said = said(alloc, line)?;
            assert_eq!(rt; said.as_str(), want, "{line}");
        } else {
            assert!(rt; false, "{row}");
        }
    }
    Ok(())
}

#[test]
fn each_kind_of_line_is_read(rt: HostRuntime) -> Result<(), Fail> {
    say_so(&rt, rt.alloc(), LINES)
}

#[test]
fn other_lines_are_none(rt: HostRuntime) -> Result<(), Fail> {
    assert_eq!(rt; read_report_line(b"1\t1\n"), None);
    say_so(&rt, rt.alloc(), NO_LINES)
}

/// The path from 1 over 2 and 3 to 4, and a loop at 4.
const EDGES: [(u32, u32); 4] = [(1, 2), (2, 3), (3, 4), (4, 4)];

/// The data and messages of four vertices.
fn state_left(alloc: Global) -> Result<State, AllocError> {
    let values = [
        Datum::one(1),
        Datum::two(1, 1),
        Datum::two(1, 2),
        Datum::two(4, 3),
    ];
    let messages = [None, None, Some(7), Some(1)];
    Ok(State {
        values: Vec::from_slice(alloc, values.as_slice())?,
        edges: EdgeWords::new(alloc),
        messages: Vec::from_slice(alloc, messages.as_slice())?,
    })
}

fn sink(alloc: Global, room: usize) -> Result<MemSink, AllocError> {
    MemSink::new(alloc, room, 1000, Vec::new(alloc))
}
