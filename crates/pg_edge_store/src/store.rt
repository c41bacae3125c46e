//! The edges of one worker.
ghost use Rattle.std.specs.Prelude.{◌≡◌, ◌<◌, length, map, slice_index, slice_index_or};
ghost use Rattle.std.specs.Prelude.{slice_set, ◌↔◌, [], All, IfOk, IsTrue};
ghost use Rattle.pg_graph.specs.Multigraph.{Multigraph};
ghost use Rattle.pg_cut.specs.Cut.{IsCutOf};
ghost use Rattle.pg_edge_store.specs.Store.{IsStoreOf, IsOver, HasWeights, local_at};
ghost use Rattle.pg_edge_store.specs.Store.{places_around};

use crate::around::Around;
use crate::between::{edges_between, rows_of};
use crate::own_words::OwnWords;
use pg_cut::{Cut, Keys};
use pg_graph::{Dir, Edge, Graph, Rows};
use pg_law::EdgeWords;
use std::alloc::{AllocError, Global};
use std::marker::Model;

/// The edges that a cut places on one worker, in ascending order, as a graph of their own.
///
/// `numbers[i]` is the number of the i-th of them in the graph, and `words[i]` is its edge word,
/// whose meaning is the program's. `vertices` are those that have a replica on the worker,
/// ascending, and `edges[i]` stands between the places in it of the ends of the i-th edge. The row
/// of a replica has the places `i` of the edges at it.
#[derive(Drop)]
pub struct EdgeStore {
    numbers: Vec<u32>,
    words: OwnWords,
    vertices: Keys,
    edges: Vec<Edge>,
    rows: Rows,
}

impl Model for EdgeStore {
    ghost use Rattle.pg_edge_store.specs.Store.{Store, store, IsKept};

    ghost Value = { Store };

    ghost view = { λ s. store s.numbers.items s.words s.vertices s.edges.items s.rows };

    ghost invariant = { λ s.
        IsKept (store s.numbers.items s.words s.vertices s.edges.items s.rows) };
}

impl EdgeStore {
    /// The edges on a worker, with their words.
    pub fn of(
        alloc: Global,
        graph: &Graph,
        cut: &Cut,
        worker: u8,
        words: &[u64],
    ) -> Result<EdgeStore, AllocError>
        requires cut { IsCutOf graph.now cut.now }
        requires worker { worker < cut.now.workers }
        requires words { length words.now ≡ length graph.now.edges }
        ensures store { IfOk result (IsStoreOf graph.now cut.now worker) }
        ensures words { IfOk result (λ s. s.words ≡ map (slice_index words.now) s.numbers) }
        ensures weights { IfOk result (HasWeights graph.now) }
    {
        let words = EdgeWords::from(Vec::from_slice(alloc, words)?);
        EdgeStore::with_words(alloc, graph, cut, worker, &words)
    }

    /// The same, with the words that rounds begin with.
    pub fn with_words(
        alloc: Global,
        graph: &Graph,
        cut: &Cut,
        worker: u8,
        words: &EdgeWords,
    ) -> Result<EdgeStore, AllocError>
        requires cut { IsCutOf graph.now cut.now }
        requires worker { worker < cut.now.workers }
        requires words { length words.now ≡ length graph.now.edges }
        ensures store { IfOk result (IsStoreOf graph.now cut.now worker) }
        ensures words { IfOk result (λ s. s.words ≡ map (slice_index words.now) s.numbers) }
        ensures weights { IfOk result (HasWeights graph.now) }
    {
        let _ = graph.vertices();
        let numbers = Vec::from_slice(alloc, cut.edges_on(worker))?;
        let vertices = cut.vertices_on(worker);
        let own = OwnWords::of(alloc, numbers.as_slice(), words)?;
        let edges = edges_between(alloc, graph, numbers.as_slice(), vertices)?;
        let rows = rows_of(alloc, vertices, edges.as_slice())?;
        let vertices = Keys::of(alloc, Vec::from_slice(alloc, vertices)?)?;
        Ok(EdgeStore {
            numbers,
            words: own,
            vertices,
            edges,
            rows,
        })
    }

    /// How many edges there are. Each has a word.
    pub fn len(&self) -> u32
        ensures value { result ≡ length self.now.numbers }
        ensures words { length self.now.words ≡ length self.now.numbers }
    {
        self.numbers.len() as u32
    }

    /// Whether there is none.
    pub fn is_empty(&self) -> bool
        ensures { IsTrue result ↔ (self.now.numbers ≡ []) }
    {
        self.numbers.is_empty()
    }

    /// The number in the graph of the edge at a place.
    pub fn edge(&self, i: u32) -> u32
        requires { i < length self.now.numbers }
        ensures { result ≡ slice_index self.now.numbers i }
    {
        self.numbers[i as usize]
    }

    /// The word of the edge at a place.
    pub fn word(&self, i: u32) -> u64
        requires { i < length self.now.numbers }
        ensures { result ≡ slice_index self.now.words i }
    {
        self.words.word(i)
    }

    /// Gives the edge at a place another word.
    pub fn set_word(&mut self, i: u32, word: u64)
        requires { i < length self.old.numbers }
        ensures { self.new ≡ record self.old { words = slice_set self.old.words i word } }
    {
        self.words.set(i, word);
    }

    /// How many vertices have a replica on the worker.
    pub fn replicas(&self) -> u32
        ensures { result ≡ length self.now.vertices }
    {
        self.vertices.len()
    }

    /// The edge at a place, between the replicas of its ends, with its weight in the graph.
    pub fn local(&self, i: u32) -> Edge
        requires { i < length self.now.numbers }
        ensures { result ≡ local_at self.now i }
    {
        self.edges[i as usize]
    }

    /// The places of the edges at a replica, ascending.
    pub fn row(&self, replica: u32) -> &[u32]
        requires { replica < length self.now.vertices }
        ensures value { result.now ≡ slice_index_or self.now.rows replica [] }
        ensures within { All (λ i. i < length self.now.numbers) result.now }
    {
        self.rows.row(replica)
    }

    /// The places of the edges at a vertex in a direction, ascending.
    pub fn around(&self, v: u32, dir: Dir) -> Around<'_>
        ensures { (g : Multigraph) → IsOver g self.now →
            result ≡ places_around g self.now.numbers v dir }
    {
        let edges = self.edges.as_slice();
        match self.vertices.place(v) {
            Some(replica) => Around {
                places: self.rows.row(replica),
                edges,
                replica,
                dir,
            },
            None => Around {
                places: &[],
                edges,
                replica: 0,
                dir,
            },
        }
    }
}
