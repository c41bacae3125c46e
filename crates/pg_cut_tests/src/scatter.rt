//! The path of four vertices, each of whose edges lies on a worker of its own.
ghost use Rattle.std.specs.Prelude.{◌≡◌, ◌<◌, length, All, IfOk};
ghost use Rattle.pg_law.specs.Configuration.{AreMessages, IsFit};
ghost use Rattle.pg_cut.specs.Cut.{IsCutOf};
ghost use Rattle.pg_cut.specs.ByWorker.{lists_in};
ghost use Rattle.pg_gather.specs.Partials.{IsReadable};
ghost use Rattle.pg_paths.specs.Components.{components};
ghost use Rattle.pg_apply_scatter.specs.Applying.{IsMastered};
ghost use Rattle.pg_apply_scatter.specs.Sending.{IsSentIn};

use crate::samples::{cut_by, graph_of, path};
use pg_apply_scatter::{
    Sent, apply_masters, deliver, push_mirrors, scatter_signals, scatter_worker,
};
use pg_cut::Cut;
use pg_delta::CacheCell;
use pg_edge_store::EdgeStore;
use pg_gather::shares_are_readable;
use pg_graph::Graph;
use pg_law::{Datum, Delta, State};
use pg_mirrors::MirrorTable;
use pg_paths::Components;
use std::alloc::{AllocError, Global};
use std::process::Abort;
use std::test::Fail;

/// The state with these labels.
fn labelled(rt: &impl Abort, alloc: Global, graph: &Graph, labels: &[u64]) -> Result<State, Fail>
    ensures { IfOk result (λ state. IsFit components graph.now state) }
{
    assert!(rt; labels.len() == graph.vertices() as usize);
    let mut state = State::start(alloc, &Components, graph)?;
    let mut values = Vec::with_capacity(alloc, labels.len())?;
    for label in labels {
        values.push(Datum::one(*label))?;
    }
    state.values = values;
    Ok(state)
}

/// Tests that all of these vertices are signalled.
fn assert_signalled(rt: &impl Abort, graph: &Graph, messages: &[Option<u64>], sums: &[(u32, u64)])
    requires { AreMessages components graph.now messages.now }
    ensures { All (IsMastered components graph.now messages.now) sums.now }
{
    let count = graph.vertices();
    for i in 0..sums.len() {
        let (v, _sum) = sums[i];
        assert!(rt; v < count);
        assert!(rt; messages[v as usize].is_some());
    }
}

/// A graph by its edges, with the worker of each, and the label and the carry of each vertex.
#[derive(Clone, Copy)]
struct Case<'a> {
    edges: &'a [(u32, u32)],
    workers: u8,
    places: &'a [u8],
    labels: &'a [u64],
    carries: &'a [Option<bool>],
}

/// The path of four vertices after a round: the labels are 1, 1, 2 and 3.
fn path_with<'a>(carries: &'a [Option<bool>]) -> Case<'a>
    ensures { result.carries.now ≡ carries.now }
{
    Case {
        edges: &[(1, 2), (2, 3), (3, 4)],
        workers: 3,
        places: &[0, 1, 2],
        labels: &[1, 1, 2, 3],
        carries,
    }
}

/// What all workers of a case send, with their deltas, or signals alone.
fn sent_in(
    rt: &impl Abort,
    alloc: Global,
    case: Case<'_>,
    with_deltas: bool,
) -> Result<Vec<Vec<Sent<u64>>>, Fail>
    ensures { IfOk result (λ sent.
        All (All (IsSentIn components (length case.entry.carries.now))) (lists_in sent.items)) }
{
    let graph = graph_of(rt, alloc, case.edges)?;
    let cut = cut_by(rt, alloc, &graph, case.workers, case.places)?;
    let state = labelled(rt, alloc, &graph, case.labels)?;
    sent_by_all(rt, alloc, &graph, &cut, &state, case.carries, with_deltas)
}

/// What all workers send over the data of a state.
fn sent_by_all(
    rt: &impl Abort,
    alloc: Global,
    graph: &Graph,
    cut: &Cut,
    state: &State,
    carries: &[Option<bool>],
    with_deltas: bool,
) -> Result<Vec<Vec<Sent<u64>>>, Fail>
    requires cut { IsCutOf graph.now cut.now }
    requires fit { IsFit components graph.now state.now }
    ensures { IfOk result (λ sent.
        All (All (IsSentIn components (length carries.now))) (lists_in sent.items)) }
{
    assert!(rt; carries.len() == graph.vertices() as usize);
    let mut sent = Vec::new(alloc);
    for worker in 0..cut.workers() {
        sent.push(sent_by(alloc, graph, cut, worker, state, carries, with_deltas)?)?;
    }
    Ok(sent)
}

/// The edges and the replicas of one worker.
fn parts_of(
    alloc: Global,
    graph: &Graph,
    cut: &Cut,
    worker: u8,
    state: &State,
) -> Result<(EdgeStore, MirrorTable), AllocError>
    requires cut { IsCutOf graph.now cut.now }
    requires worker { worker < cut.now.workers }
    requires fit { IsFit components graph.now state.now }
    ensures { IfOk result (λ parts. IsReadable components graph.now parts.0 parts.1) }
{
    shares_are_readable(&Components);
    let _ = graph.vertices();
    let words = state.edges.to_vec(alloc)?;
    let store = EdgeStore::of(alloc, graph, cut, worker, words.as_slice())?;
    let mirrors = MirrorTable::of(alloc, graph, cut, worker, state.values.as_slice())?;
    Ok((store, mirrors))
}

/// What one worker sends, with its deltas, or signals alone.
fn sent_by(
    alloc: Global,
    graph: &Graph,
    cut: &Cut,
    worker: u8,
    state: &State,
    carries: &[Option<bool>],
    with_deltas: bool,
) -> Result<Vec<Sent<u64>>, AllocError>
    requires cut { IsCutOf graph.now cut.now }
    requires worker { worker < cut.now.workers }
    requires fit { IsFit components graph.now state.now }
    requires carries { length carries.now ≡ length graph.now.ids }
    ensures { IfOk result (λ sent.
        All (IsSentIn components (length graph.now.ids)) sent.items) }
{
    let program = &Components;
    let (mut store, mirrors) = parts_of(alloc, graph, cut, worker, state)?;
    if with_deltas {
        scatter_worker(alloc, program, graph, &mut store, &mirrors, carries)
    } else {
        scatter_signals(alloc, program, graph, &mut store, &mirrors, carries)
    }
}

/// The accumulator of an Add.
fn added(delta: &Delta<u64>) -> Option<u64> {
    match delta {
        Delta::Add(acc) => Some(*acc),
        Delta::Nothing => None,
        Delta::Clear => Some(u64::MAX),
    }
}

/// What is sent, with the accumulator of an Add.
fn told(sent: &Sent<u64>) -> (u32, Option<u64>, Option<u64>) {
    (sent.to, sent.signal, added(&sent.delta))
}

/// Tests what is sent, in order.
fn assert_told(rt: &impl Abort, sent: &[Sent<u64>], rows: &[(u32, Option<u64>, Option<u64>)]) {
    assert_eq!(rt; sent.len(), rows.len());
    for i in 0..rows.len() {
        assert_eq!(rt; told(&sent[i]), rows[i]);
    }
}

/// Tests the data of two replicas.
fn assert_data(rt: &impl Abort, table: &MirrorTable, first: u64, second: u64) {
    assert_eq!(rt; table.len(), 2);
    assert_eq!(rt; table.datum(0), Datum::one(first));
    assert_eq!(rt; table.datum(1), Datum::one(second));
}

/// The replicas of the path's workers, with its ids for data.
fn path_tables(rt: &impl Abort, alloc: Global) -> Result<Vec<MirrorTable>, Fail> {
    let graph = path(alloc)?;
    let cut = cut_by(rt, alloc, &graph, 3, &[0, 1, 2])?;
    let state = State::start(alloc, &Components, &graph)?;
    let mut tables = Vec::with_capacity(alloc, 3)?;
    for worker in 0..cut.workers() {
        let values = state.values.as_slice();
        tables.push(MirrorTable::of(alloc, &graph, &cut, worker, values)?)?;
    }
    Ok(tables)
}

// Vertex 2 comes before 0, and 0 keeps its label.
#[test]
fn masters_apply_in_order(rt: HostRuntime) -> Result<(), Fail> {
    let alloc = rt.alloc();
    let graph = path(alloc)?;
    let state = State::start(alloc, &Components, &graph)?;
    let messages = state.messages.as_slice();
    let listed = [(2, 2), (0, 2)];
    let sums = listed.as_slice();
    assert_signalled(&rt, &graph, messages, sums);
    let values = state.values.as_slice();
    let applied = apply_masters(alloc, &Components, &graph, values, messages, sums)?;
    let rows = [(2, 2, true), (0, 1, false)];
    assert_eq!(rt; applied.len(), rows.len());
    for i in 0..applied.len() {
        let (v, became) = applied[i];
        let row = (v, became.datum.first(), became.carry);
        assert_eq!(rt; row, rows[i]);
        assert_eq!(rt; became.again, None);
    }
    Ok(())
}

#[test]
fn every_worker_is_pushed(rt: HostRuntime) -> Result<(), Fail> {
    let mut tables = path_tables(&rt, rt.alloc())?;
    push_mirrors(
        &[(1, Datum::one(7)), (2, Datum::one(8))],
        tables.as_mut_slice(),
    );
    assert_eq!(rt; tables.len(), 3);
    assert_data(&rt, &tables[0], 1, 7);
    assert_data(&rt, &tables[1], 7, 8);
    assert_data(&rt, &tables[2], 8, 4);
    Ok(())
}

// The first vertex alone is as it was.
#[test]
fn workers_send_over_their_own_edges(rt: HostRuntime) -> Result<(), Fail> {
    let case = path_with(&[Some(false), Some(true), Some(true), None]);
    let sent = sent_in(&rt, rt.alloc(), case, true)?;
    assert_eq!(rt; sent.len(), 3);
    let first = [(1, None, None), (0, None, Some(1))];
    assert_told(&rt, sent[0].as_slice(), &first);
    let second = [(2, Some(1), Some(1)), (1, None, Some(2))];
    assert_told(&rt, sent[1].as_slice(), &second);
    assert_told(&rt, sent[2].as_slice(), &[(3, Some(2), Some(2))]);
    Ok(())
}

// Of thirteen vertices the first two alone have carries; the edge between them is visited once.
#[test]
fn few_vertices_send_in_order(rt: HostRuntime) -> Result<(), Fail> {
    let mut carries = [None; 13];
    carries[0] = Some(true);
    carries[1] = Some(false);
    let case = Case {
        edges: &[
            (1, 2),
            (2, 3),
            (3, 4),
            (4, 5),
            (5, 6),
            (6, 7),
            (7, 8),
            (8, 9),
            (9, 10),
            (10, 11),
            (11, 12),
            (12, 13),
        ],
        workers: 1,
        places: &[0; 12],
        labels: &[1, 2, 3, 4, 5, 6, 7, 8, 9, 10, 11, 12, 13],
        carries: &carries,
    };
    let sent = sent_in(&rt, rt.alloc(), case, true)?;
    assert_eq!(rt; sent.len(), 1);
    let rows = [(1, Some(1), Some(1)), (0, None, None), (2, Some(2), None)];
    assert_told(&rt, sent[0].as_slice(), &rows);
    Ok(())
}

// Vertices 0 and 1 tell their labels to 2, each over an edge, and 2 is told of the smaller one alone.
#[test]
fn a_worker_combines_its_signals(rt: HostRuntime) -> Result<(), Fail> {
    let alloc = rt.alloc();
    let case = Case {
        edges: &[(1, 3), (2, 3)],
        workers: 1,
        places: &[0, 0],
        labels: &[4, 2, 9],
        carries: &[Some(true), Some(true), None],
    };
    let apart = sent_in(&rt, alloc, case, true)?;
    assert_eq!(rt; apart.len(), 1);
    assert_eq!(rt; apart[0].len(), 2);
    let combined = sent_in(&rt, alloc, case, false)?;
    assert_eq!(rt; combined.len(), 1);
    assert_told(&rt, combined[0].as_slice(), &[(2, Some(2), None)]);
    Ok(())
}

// The kept gathers are those of the labels 1 to 4, and with what is pending those of 1, 1, 2 and 3.
#[test]
fn a_round_is_delivered(rt: HostRuntime) -> Result<(), Fail> {
    let alloc = rt.alloc();
    let case = path_with(&[Some(false), Some(true), Some(true), Some(true)]);
    let sent = sent_in(&rt, alloc, case, true)?;
    let mut messages = [None, None, None, None];
    let mut cells = [kept(2), kept(1), kept(2), kept(3)];
    deliver(alloc, &Components, sent, &mut messages, &mut cells)?;
    assert_eq!(rt; messages, [None, None, Some(1), Some(2)]);
    assert_cell(&rt, &cells[0], 2, 1);
    assert_cell(&rt, &cells[1], 1, 2);
    assert_cell(&rt, &cells[2], 2, 1);
    assert_cell(&rt, &cells[3], 3, 2);
    Ok(())
}

/// Tests the gather that is kept, and the delta that waits.
fn assert_cell(rt: &impl Abort, cell: &CacheCell<u64>, acc: u64, pending: u64) {
    assert_eq!(rt; cell.acc, Some(acc));
    assert_eq!(rt; added(&cell.pending), Some(pending));
}

fn kept(acc: u64) -> CacheCell<u64> {
    let mut cell = CacheCell::new();
    cell.fill(acc);
    cell
}

// A vertex combines its own message with those of two workers, and no cell is kept.
#[test]
fn messages_are_combined(rt: HostRuntime) -> Result<(), Fail> {
    let alloc = rt.alloc();
    let mut first = Vec::new(alloc);
    first.push(signal(1, Some(5)))?;
    first.push(signal(0, None))?;
    let mut second = Vec::new(alloc);
    second.push(signal(1, Some(3)))?;
    second.push(signal(2, Some(9)))?;
    let mut sent = Vec::new(alloc);
    sent.push(first)?;
    sent.push(second)?;
    let mut messages = [Some(8), Some(4), None];
    deliver(alloc, &Components, sent, &mut messages, &mut [])?;
    assert_eq!(rt; messages, [Some(8), Some(3), Some(9)]);
    Ok(())
}

fn signal(to: u32, signal: Option<u64>) -> Sent<u64>
    ensures to { result.to ≡ to }
{
    Sent {
        to,
        signal,
        delta: Delta::Nothing,
    }
}
