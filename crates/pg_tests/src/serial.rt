//! Serial executions of each program, with journals that were worked out apart from the engine.
ghost use Rattle.std.specs.Prelude.{◌≡◌};

use crate::samples::graph_of;
use pg_base::{MemSink, NullSink};
use pg_colour::Colour;
use pg_graph::Graph;
use pg_journal::JournalText;
use pg_law::{AsyncEnd, AsyncError, Datum, End, JournalEntry, State, Steps, VertexProgram};
use pg_paths::{Components, Tree};
use pg_serial::{Replayed, execute, replay, run_serial};
use std::alloc::{AllocError, Global};
use std::marker::Brand;
use std::process::Abort;
use std::test::Fail;

const PATH: [(u32, u32); 3] = [(1, 2), (2, 3), (3, 4)];

/// Two ways of one length from 1 to 4.
const DIAMOND: [(u32, u32); 4] = [(1, 2), (1, 3), (2, 4), (3, 4)];

/// A run from the start, and what the sink got.
#[derive(Drop)]
struct Ran {
    end: Result<AsyncEnd, AsyncError>,
    sink: MemSink,
}

/// A serial run into a sink that takes `piece` bytes at once, and whose calls of these numbers fail.
fn run_of<P: VertexProgram>(
    alloc: Global,
    program: &P,
    graph: &Graph,
    fuel: u32,
    piece: usize,
    fails: &[u64],
) -> Result<Ran, AllocError> {
    let state = State::start(alloc, program, graph)?;
    let fails = Vec::from_slice(alloc, fails)?;
    let mut sink = MemSink::new(alloc, 65_536, piece.max(1), fails)?;
    let text = JournalText {
        wide: program.wide(),
    };
    let mut steps = Steps::<Brand>::new();
    let end = run_serial(
        alloc, program, graph, state, fuel, &mut sink, &text, &mut steps,
    );
    Ok(Ran { end, sink })
}

/// A run on the path with this fuel has this journal, these labels and these messages.
fn runs_to(
    rt: &impl Abort,
    alloc: Global,
    graph: &Graph,
    fuel: u32,
    journal: &str,
    labels: [u64; 4],
    messages: [Option<u64>; 4],
) -> Result<AsyncEnd, Fail> {
    let run = run_of(alloc, &Components::new(), graph, fuel, 7, &[])?;
    let ended = run.end?;
    assert_eq!(rt; run.sink.bytes(), journal.as_bytes(), "fuel {fuel}");
    assert_eq!(rt;
        ended.state.values.as_slice(),
        labels.map(|label| Datum::one(label)).as_slice(),
        "fuel {fuel}"
    );
    assert_eq!(rt;
        ended.state.messages.as_slice(),
        messages.as_slice(),
        "fuel {fuel}"
    );
    Ok(ended)
}

#[test]
fn a_serial_run_executes_the_least_vertex(rt: HostRuntime) -> Result<(), Fail> {
    let alloc = rt.alloc();
    let graph = graph_of(&rt, alloc, PATH.as_slice())?;
    let journal = "@1\t1\n@2\t1\n@3\t1\n@4\t1\n";
    for fuel in [4, u32::MAX] {
        let ended = runs_to(&rt, alloc, &graph, fuel, journal, [1, 1, 1, 1], [None; 4])?;
        assert_eq!(rt;
            (ended.executions, ended.gathers, ended.end),
            (4, 6, End::Quiescent)
        );
    }
    Ok(())
}

#[test]
fn a_serial_run_stops_where_its_fuel_ends(rt: HostRuntime) -> Result<(), Fail> {
    let alloc = rt.alloc();
    let graph = graph_of(&rt, alloc, PATH.as_slice())?;
    let first = [Some(1), Some(2), Some(3), Some(4)];
    let ended = runs_to(&rt, alloc, &graph, 0, "", [1, 2, 3, 4], first)?;
    assert_eq!(rt;
        (ended.executions, ended.gathers, ended.end),
        (0, 0, End::Spent)
    );
    let journal = "@1\t1\n@2\t1\n@3\t1\n";
    let last = [None, None, None, Some(1)];
    let ended = runs_to(&rt, alloc, &graph, 3, journal, [1, 1, 1, 4], last)?;
    assert_eq!(rt;
        (ended.executions, ended.gathers, ended.end),
        (3, 5, End::Spent)
    );
    Ok(())
}

#[test]
fn neighbours_take_different_colours(rt: HostRuntime) -> Result<(), Fail> {
    let graph = graph_of(&rt, rt.alloc(), &[(1, 2)])?;
    let run = run_of(rt.alloc(), &Colour::new(), &graph, 1_000, 64, &[])?;
    let ended = run.end?;
    assert_eq!(rt; run.sink.bytes(), b"@1\t1\n@2\t0\n".as_slice());
    assert_eq!(rt;
        ended.state.values.as_slice(),
        [Datum::one(1), Datum::one(0)].as_slice()
    );
    assert_eq!(rt;
        (ended.executions, ended.gathers, ended.end),
        (2, 2, End::Quiescent)
    );
    Ok(())
}

#[test]
fn a_tree_has_both_words_in_its_journal(rt: HostRuntime) -> Result<(), Fail> {
    let graph = graph_of(&rt, rt.alloc(), DIAMOND.as_slice())?;
    let run = run_of(rt.alloc(), &Tree::new(1), &graph, 1_000, 64, &[])?;
    let ended = run.end?;
    assert_eq!(rt;
        run.sink.bytes(),
        b"@1\t0\t1\n@2\t1\t1\n@3\t1\t1\n@4\t2\t2\n".as_slice()
    );
    assert_eq!(rt;
        (ended.executions, ended.gathers, ended.end),
        (4, 4, End::Quiescent)
    );
    Ok(())
}

#[test]
fn a_failing_sink_has_a_front_of_the_journal(rt: HostRuntime) -> Result<(), Fail> {
    let graph = graph_of(&rt, rt.alloc(), PATH.as_slice())?;
    for (call, front) in [(1, ""), (2, "@1\t1\n@2"), (3, "@1\t1\n@2\t1\n@3\t1")] {
        let run = run_of(rt.alloc(), &Components::new(), &graph, 9, 7, &[call])?;
        assert!(rt;
            matches!(run.end, Err(AsyncError::WriteFault)),
            "call {call}"
        );
        assert_eq!(rt; run.sink.bytes(), front.as_bytes(), "call {call}");
    }
    Ok(())
}

/// The path from 1 to 3,000.
fn long_path(rt: &impl Abort, alloc: Global) -> Result<Graph, Fail> {
    let mut edges = Vec::new(alloc);
    for id in 2..3_001u32 {
        edges.push((id - 1, id))?;
    }
    graph_of(rt, alloc, edges.as_slice())
}

/// The journal of its components.
fn long_journal(alloc: Global) -> Result<String, AllocError> {
    let mut journal = String::new(alloc);
    for id in 1..3_001u32 {
        journal.push_str(format!(in alloc; "@{id}\t1\n")?.as_str())?;
    }
    Ok(journal)
}

#[test]
fn a_journal_that_is_longer_than_the_buffer_is_whole(rt: HostRuntime) -> Result<(), Fail> {
    let graph = long_path(&rt, rt.alloc())?;
    let journal = long_journal(rt.alloc())?;
    let run = run_of(rt.alloc(), &Components::new(), &graph, 9_000, 1_000, &[])?;
    let ended = run.end?;
    assert!(rt; run.sink.bytes() == journal.as_bytes());
    assert_eq!(rt; (ended.executions, ended.gathers), (3_000, 5_998));
    let run = run_of(rt.alloc(), &Components::new(), &graph, 9_000, 1_000, &[10])?;
    assert!(rt; run.end.is_err());
    assert!(rt; journal.as_bytes().starts_with(run.sink.bytes()));
    assert!(rt; run.sink.bytes().len() > 8_000);
    assert!(rt; run.sink.bytes().len() <= 8_192);
    Ok(())
}

#[test]
fn a_run_may_write_nowhere(rt: HostRuntime) -> Result<(), Fail> {
    let alloc = rt.alloc();
    let graph = long_path(&rt, alloc)?;
    let state = State::start(alloc, &Components::new(), &graph)?;
    let text = JournalText { wide: false };
    let mut steps = Steps::<Brand>::new();
    let ended = run_serial(
        alloc,
        &Components::new(),
        &graph,
        state,
        2_999,
        &mut NullSink::new(),
        &text,
        &mut steps,
    )?;
    assert_eq!(rt; (ended.executions, ended.gathers), (2_999, 5_997));
    assert_eq!(rt; ended.end, End::Spent);
    Ok(())
}

/// What a replay finds, in words.
fn found(alloc: Global, graph: &Graph, journal: &[(u32, u64)]) -> Result<String, Fail> {
    let mut entries = Vec::new(alloc);
    for (vertex, value) in journal {
        entries.push(JournalEntry {
            vertex: *vertex,
            datum: Datum::one(*value),
        })?;
    }
    let state = State::start(alloc, &Components::new(), graph)?;
    let mut steps = Steps::<Brand>::new();
    let replayed = replay(
        alloc,
        &Components::new(),
        graph,
        state,
        entries.as_slice(),
        &mut steps,
    )?;
    Ok(match replayed {
        Replayed::Legal { state } => {
            let mut sum = 0u64;
            for datum in &state.values {
                sum = sum.wrapping_add(datum.first());
            }
            format!(in alloc; "legal {sum}")?
        }
        Replayed::NotSignalled { at } => format!(in alloc; "not signalled {at}")?,
        Replayed::WrongValue { at, datum } => {
            format!(in alloc; "wrong value {at} {}", datum.first())?
        }
    })
}

/// A replay of a journal on a graph finds this.
fn finds(
    rt: &impl Abort,
    alloc: Global,
    graph: &Graph,
    journal: &[(u32, u64)],
    want: &str,
) -> Result<(), Fail> {
    let found = found(alloc, graph, journal)?;
    assert_eq!(rt; found.as_str(), want);
    Ok(())
}

#[test]
fn a_replay_finds_the_first_entry_that_is_not_legal(rt: HostRuntime) -> Result<(), Fail> {
    let alloc = rt.alloc();
    let graph = graph_of(&rt, alloc, PATH.as_slice())?;
    finds(&rt, alloc, &graph, &[], "legal 10")?;
    let all = [(0, 1), (1, 1), (2, 1), (3, 1)];
    finds(&rt, alloc, &graph, &all, "legal 4")?;
    finds(&rt, alloc, &graph, &[(3, 3), (2, 2), (1, 1)], "legal 7")?;
    let stale = [(0, 1), (2, 1), (1, 1)];
    finds(&rt, alloc, &graph, &stale, "wrong value 1 2")?;
    finds(&rt, alloc, &graph, &[(0, 2)], "wrong value 0 1")?;
    finds(&rt, alloc, &graph, &[(0, 1), (0, 1)], "not signalled 1")?;
    finds(&rt, alloc, &graph, &[(4, 4)], "not signalled 0")?;
    let beyond = [(0, 1), (u32::MAX, 1), (1, 2)];
    finds(&rt, alloc, &graph, &beyond, "not signalled 1")
}

/// Executes vertices in turn, and compares what they leave.
fn check_executions(rt: &impl Abort, alloc: Global, graph: &Graph) -> Result<(), Fail> {
    let mut state = State::start(alloc, &Components::new(), graph)?;
    let mut steps = Steps::<Brand>::new();
    let rows = [
        (2, true, [1, 2, 2, 4], [Some(1), Some(2), None, Some(2)]),
        (2, false, [1, 2, 2, 4], [Some(1), Some(2), None, Some(2)]),
        (1, true, [1, 1, 2, 4], [Some(1), None, Some(1), Some(2)]),
    ];
    for (vertex, executes, labels, messages) in rows {
        assert!(rt; vertex < graph.vertices());
        let executed = execute(
            alloc,
            &Components::new(),
            graph,
            &mut state,
            vertex,
            &mut steps,
        )?;
        assert_eq!(rt; executed, executes);
        assert_eq!(rt;
            state.values.as_slice(),
            labels.map(|label| Datum::one(label)).as_slice()
        );
        assert_eq!(rt; state.messages.as_slice(), messages.as_slice());
    }
    Ok(())
}

#[test]
fn an_execution_takes_the_message(rt: HostRuntime) -> Result<(), Fail> {
    let graph = graph_of(&rt, rt.alloc(), PATH.as_slice())?;
    check_executions(&rt, rt.alloc(), &graph)
}
