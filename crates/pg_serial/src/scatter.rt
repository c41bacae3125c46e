//! What an execution sends over the edges of its vertex.
ghost use Rattle.std.specs.Prelude.{◌≡◌, ◌<◌, ◌++◌, [], ◌∷◌, true, length, slice_index, IfOk};
ghost use Rattle.std.specs.Prelude.{OnOk, All, if◌then◌else◌};
ghost use Rattle.pg_serial.specs.Neighbours.{AreNeighbours};
ghost use Rattle.pg_law.specs.Laws.{IsApplied, IsNear, IsOptional};
ghost use Rattle.pg_law.specs.Configuration.{AreData, AreWords, message_in};
ghost use Rattle.pg_law.specs.Round.{join as joined};
ghost use Rattle.pg_serial.specs.Sending.{near_after, sent_over, sents_around, is_news};
ghost use Rattle.pg_graph.specs.Multigraph.{edges_at};
ghost use Rattle.pg_serial.specs.Sending.{IsAddressed};
ghost use Rattle.pg_serial.specs.Sending.{message_with};

use crate::gather::near_at;
use crate::neighbours::Neighbours;
use pg_graph::Graph;
use pg_law::{Applied, Datum, EdgeWords, Near, VertexProgram, laws_of};
use std::alloc::{AllocError, Global};

/// What an execution leaves at one edge: its new word, and a signal for the vertex at the
/// other end.
#[derive(Clone, Copy, Debug)]
pub struct Sent {
    pub edge: u32,
    pub word: u64,
    pub to: u32,
    pub signal: Option<u64>,
}

/// An edge as its end `u` sees it, once that has this datum.
fn near_with<P: VertexProgram>(
    program: &P,
    graph: &Graph,
    neighbours: &Neighbours,
    values: &[Datum],
    u: u32,
    at: usize,
    e: u32,
    word: u64,
    datum: Datum,
) -> Near
    requires values { AreData (P.meaning program.now) graph.now values.now }
    requires neighbours { AreNeighbours graph.now neighbours.now }
    requires e { e < length graph.now.edges }
    requires at { at < length (edges_at graph.now u) }
    requires edge { e ≡ slice_index (edges_at graph.now u) at }
    requires word { (P.meaning program.now).IsWord word }
    requires datum { (P.meaning program.now).IsDatum datum }
    ensures value { result ≡ near_after graph.now values.now u e word datum }
    ensures near { IsNear (P.meaning program.now) result }
{
    let near = near_at(program, graph, neighbours, values, u, at, e, word);
    Near {
        side: near.side,
        edge: near.edge,
        word: near.word,
        centre: datum,
        other: near.other,
    }
}

/// What an edge sends for `u`, which has applied.
fn scatter_over<P: VertexProgram>(
    alloc: Global,
    program: &P,
    graph: &Graph,
    neighbours: &Neighbours,
    values: &[Datum],
    words: &EdgeWords,
    u: u32,
    at: usize,
    applied: Applied<P::Carry>,
    e: u32,
) -> Result<Sent, AllocError>
    requires values { AreData (P.meaning program.now) graph.now values.now }
    requires words { AreWords (P.meaning program.now) graph.now words.now }
    requires neighbours { AreNeighbours graph.now neighbours.now }
    requires applied { IsApplied (P.meaning program.now) applied }
    requires e { e < length graph.now.edges }
    requires at { at < length (edges_at graph.now u) }
    requires edge { e ≡ slice_index (edges_at graph.now u) at }
    ensures value { IfOk result (λ sent.
        sent ≡ sent_over (P.meaning program.now) graph.now values.now words.now u applied e) }
    ensures own { IfOk result
        (IsAddressed (P.meaning program.now) (length graph.now.edges) (length graph.now.ids)) }
{
    laws_of(program);
    let side = graph.edges()[e as usize].side(u);
    let word = words.word(e);
    let to = neighbours.other(graph, u, at, e);
    if !program.scatter_edges().takes(side) {
        return Ok(Sent {
            edge: e,
            word,
            to,
            signal: None,
        });
    }
    let near = near_with(
        program,
        graph,
        neighbours,
        values,
        u,
        at,
        e,
        word,
        applied.datum,
    );
    let scattered = program.scatter(alloc, near, applied.carry)?;
    Ok(Sent {
        edge: e,
        word: scattered.edge,
        to,
        signal: scattered.signal,
    })
}

/// Notes what is sent over an edge with this word, if it says something.
fn note(sents: &mut Vec<Sent>, word: u64, sent: Sent) -> Result<(), AllocError>
    ensures { OnOk result (sents.new.items ≡ (if is_news word sent
        then sents.old.items ++ sent ∷ [] else sents.old.items)) }
{
    if sent.word != word || sent.signal.is_some() {
        sents.push(sent)?;
    }
    Ok(())
}

/// Puts what the edges at `u` send into `sents`, once `u` has applied.
pub fn scatter_around<P: VertexProgram>(
    alloc: Global,
    program: &P,
    graph: &Graph,
    neighbours: &Neighbours,
    values: &[Datum],
    words: &EdgeWords,
    u: u32,
    applied: Applied<P::Carry>,
    sents: &mut Vec<Sent>,
) -> Result<(), AllocError>
    requires values { AreData (P.meaning program.now) graph.now values.now }
    requires words { AreWords (P.meaning program.now) graph.now words.now }
    requires neighbours { AreNeighbours graph.now neighbours.now }
    requires u { u < length graph.now.ids }
    requires applied { IsApplied (P.meaning program.now) applied }
    ensures value { OnOk result (sents.new.items ≡
        sents_around (P.meaning program.now) graph.now values.now words.now u applied) }
    ensures own { OnOk result (All (IsAddressed (P.meaning program.now)
        (length graph.now.edges) (length graph.now.ids)) sents.new.items) }
{
    sents.clear();
    let mut at = 0;
    for e in graph.edges_of(u) {
        let sent = scatter_over(
            alloc, program, graph, neighbours, values, words, u, at, applied, *e,
        )?;
        note(sents, words.word(*e), sent)?;
        at += 1;
    }
    Ok(())
}

/// Two messages for one vertex.
fn join<P: VertexProgram>(program: &P, message: Option<u64>, signal: Option<u64>) -> Option<u64>
    requires message { IsOptional (P.meaning program.now).IsMessage message }
    requires signal { IsOptional (P.meaning program.now).IsMessage signal }
    ensures { result ≡ joined (P.meaning program.now).combine message signal }
{
    match (message, signal) {
        (None, signal) => signal,
        (Some(message), None) => Some(message),
        (Some(message), Some(signal)) => Some(program.combine(message, signal)),
    }
}

/// Gives the vertices the signals that were sent. It takes no memory.
pub fn deliver<P: VertexProgram>(program: &P, sents: &[Sent], messages: &mut [Option<u64>])
    requires to { All (λ sent. sent.to < length messages.old) sents.now }
    requires signals { All (λ sent.
        IsOptional (P.meaning program.now).IsMessage sent.signal) sents.now }
    requires messages { (v : _) → v < length messages.old →
        IsOptional (P.meaning program.now).IsMessage (message_in messages.old v) }
    ensures { (v : _) → v < length messages.old → message_in messages.new v ≡
        message_with (P.meaning program.now) v (message_in messages.old v) sents.now }
{
    laws_of(program);
    for sent in sents {
        let to = sent.to as usize;
        messages[to] = join(program, messages[to], sent.signal);
    }
}
