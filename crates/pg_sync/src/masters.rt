//! What the masters keep.
ghost use Rattle.std.specs.Prelude.{◌≡◌, ◌≢◌, ◌<◌, ℕ, length, map, filter, is_some, All, AllPairs, IfOk, OnOk};
ghost use Rattle.pg_graph.specs.Multigraph.{vertices};
ghost use Rattle.pg_law.specs.Configuration.{message_in};
ghost use Rattle.pg_apply_scatter.specs.Halves.{data_of};

use pg_graph::Graph;
use pg_law::{Applied, Datum};
use std::alloc::{AllocError, Global};

/// A datum, a message and a carry for each vertex.
#[derive(Drop)]
pub struct Masters<C> {
    pub values: Vec<Datum>,
    pub messages: Vec<Option<u64>>,
    pub carries: Vec<Option<C>>,
}

/// The vertices with a message, ascending.
pub fn signalled_in(
    alloc: Global,
    graph: &Graph,
    messages: &[Option<u64>],
) -> Result<Vec<u32>, AllocError>
    requires { length messages.now ≡ length graph.now.ids }
    ensures { IfOk result (λ wanted. wanted.items ≡
        filter (λ v. is_some (message_in messages.now v)) (vertices graph.now)) }
{
    let mut wanted = Vec::new(alloc);
    for v in 0..graph.vertices() {
        if messages[v as usize].is_none() {
            continue;
        }
        wanted.push(v)?;
    }
    Ok(wanted)
}

/// The data of those that applied.
pub fn data_of_applied<C: Copy>(
    alloc: Global,
    applied: &[(u32, Applied<C>)],
) -> Result<Vec<(u32, Datum)>, AllocError>
    ensures { IfOk result (λ pairs. pairs.items ≡ data_of applied.now) }
{
    let mut pairs = Vec::with_capacity(alloc, applied.len())?;
    for i in 0..applied.len() {
        let (v, became) = applied[i];
        pairs.push((v, became.datum))?;
    }
    Ok(pairs)
}

impl<C: Copy> Masters<C> {
    ghost use Rattle.std.specs.Prelude.{◌≡◌, ◌≢◌, ◌<◌, ℕ, length, All, AllPairs, IfOk};
    ghost use Rattle.pg_law.specs.Carries.{carry_at};
    ghost use Rattle.pg_sync.specs.Masters.{IsWritten, HaveNone, WritesOne};

    /// The masters with these data and messages. No vertex has a carry.
    pub fn of(
        alloc: Global,
        values: Vec<Datum>,
        messages: Vec<Option<u64>>,
    ) -> Result<Masters<C>, AllocError>
        ensures values { IfOk result (λ masters. masters.values.items ≡ values.items) }
        ensures messages { IfOk result (λ masters. masters.messages.items ≡ messages.items) }
        ensures carries { IfOk result (λ masters.
            length masters.carries.items ≡ length values.items) }
    {
        let carries = vec![in alloc; None; values.len()]?;
        Ok(Masters {
            values,
            messages,
            carries,
        })
    }

    /// No vertex has a carry.
    fn clear(&mut self)
        ensures { HaveNone self.old self.new }
    {
        for v in 0..self.carries.len() {
            self.carries[v] = None;
        }
    }

    /// One that applied gets its datum, its message to itself and its carry.
    fn write_one(&mut self, v: u32, became: Applied<C>)
        requires datum { v < length self.old.values.items }
        requires message { v < length self.old.messages.items }
        requires carry { v < length self.old.carries.items }
        ensures { WritesOne v became self.old self.new }
    {
        self.values[v as usize] = became.datum;
        self.messages[v as usize] = became.again;
        self.carries[v as usize] = Some(became.carry);
    }

    /// Those that applied get their data, their messages to themselves and their carries.
    pub fn write(&mut self, applied: &[(u32, Applied<C>)])
        requires apart { AllPairs (λ a b. a.0 ≢ b.0) applied.now }
        requires vertices { All (λ a. a.0 < length self.old.values.items) applied.now }
        requires messages { length self.old.messages.items ≡ length self.old.values.items }
        requires carries { length self.old.carries.items ≡ length self.old.values.items }
        ensures { IsWritten applied.now self.old self.new }
    {
        self.clear();
        for i in 0..applied.len() {
            let (v, became) = applied[i];
            self.write_one(v, became);
        }
    }
}
