//! The replicas of one worker.
ghost use Rattle.std.specs.Prelude.{◌≡◌, ◌≢◌, ◌↔◌, ◌<◌, [], ◌∷◌, length, map, slice_index};
ghost use Rattle.std.specs.Prelude.{All, AllPairs, Contains, IfOk, IfSome, IsSome, IsTrue};
ghost use Rattle.pg_cut.specs.Cut.{IsCutOf};
ghost use Rattle.pg_mirrors.specs.Mirrors.{Mirrors, mirrors_of, datum_at, Pushes};

use pg_cut::{Cut, Keys};
use pg_graph::Graph;
use pg_law::Datum;
use std::alloc::{AllocError, Global};
use std::marker::Model;

/// A replica for each vertex whose span has one worker, in ascending order.
///
/// `values[i]` is the datum of the vertex that stands at the place `i` of `vertices`.
#[derive(Drop)]
pub struct MirrorTable {
    vertices: Keys,
    values: Vec<Datum>,
}

impl Model for MirrorTable {
    ghost use Rattle.std.specs.Prelude.{◌≡◌, length};
    ghost use Rattle.pg_mirrors.specs.Mirrors.{Mirrors, mirrors};

    ghost Value = { Mirrors };

    ghost view = { λ t. mirrors t.vertices t.values.items };

    ghost invariant = { λ t. length t.values.items ≡ length t.vertices };
}

/// The data of these vertices.
fn values_at(alloc: Global, vertices: &[u32], values: &[Datum]) -> Result<Vec<Datum>, AllocError>
    requires { All (λ v. v < length values.now) vertices.now }
    ensures { IfOk result (λ own. own.items ≡ map (datum_at values.now) vertices.now) }
{
    let mut own = Vec::with_capacity(alloc, vertices.len())?;
    for v in vertices {
        own.push(values[*v as usize])?;
    }
    Ok(own)
}

impl MirrorTable {
    /// The replicas on a worker, with the data of their vertices.
    pub fn of(
        alloc: Global,
        graph: &Graph,
        cut: &Cut,
        worker: u8,
        values: &[Datum],
    ) -> Result<MirrorTable, AllocError>
        requires cut { IsCutOf graph.now cut.now }
        requires worker { worker < cut.now.workers }
        requires values { length values.now ≡ length graph.now.ids }
        ensures { IfOk result (λ table. table ≡ mirrors_of cut.now worker values.now) }
    {
        let _ = graph.vertices();
        let vertices = cut.vertices_on(worker);
        let own = values_at(alloc, vertices, values)?;
        let keys = Keys::of(alloc, Vec::from_slice(alloc, vertices)?)?;
        Ok(MirrorTable {
            vertices: keys,
            values: own,
        })
    }

    /// How many replicas there are.
    pub fn len(&self) -> u32
        ensures { result ≡ length self.now.vertices }
    {
        self.vertices.len()
    }

    /// Whether there is none.
    pub fn is_empty(&self) -> bool
        ensures { IsTrue result ↔ (length self.now.vertices ≡ 0) }
    {
        self.vertices.len() == 0
    }

    /// The place of the replica of a vertex.
    pub fn replica(&self, v: u32) -> Option<u32>
        ensures within { IfSome result (λ i. i < length self.now.vertices) }
        ensures vertex { IfSome result (λ i. slice_index self.now.vertices i ≡ v) }
        ensures found { IsSome result ↔ Contains self.now.vertices v }
    {
        self.vertices.place(v)
    }

    /// The datum of the replica at a place.
    pub fn datum(&self, place: u32) -> Datum
        requires { place < length self.now.vertices }
        ensures { result ≡ datum_at self.now.values place }
    {
        self.values[place as usize]
    }

    /// Gives the replica of a vertex a datum, if there is one.
    fn set(&mut self, v: u32, datum: Datum)
        ensures { Pushes self.old self.new ((v, datum) ∷ []) }
    {
        let _ = self.vertices.len();
        match self.vertices.place(v) {
            Some(place) => self.values[place as usize] = datum,
            None => {}
        }
    }

    /// Gives the replica of each listed vertex the listed datum.
    pub fn push(&mut self, masters: &[(u32, Datum)])
        requires { AllPairs (λ a b. a.0 ≢ b.0) masters.now }
        ensures { Pushes self.old self.new masters.now }
    {
        for master in masters {
            let (v, datum) = *master;
            self.set(v, datum);
        }
    }
}
