//! What a round writes before its end.
ghost use Rattle.std.specs.Prelude.{◌≡◌, ◌<◌, ◌++◌, ◌∷◌, [], Some, None, length, map, slice_set, cond, All, IfOk, OnOk};
ghost use Rattle.std.specs.List.{range_with_len};
ghost use Rattle.pg_law.specs.Configuration.{datum_in, message_in};
ghost use Rattle.pg_law.specs.Carries.{carry_at};
ghost use Rattle.pg_rounds.specs.Drafts.{is_among, IsDraftOf};
ghost use Rattle.pg_rounds.specs.Visits.{with_change};

use pg_graph::Graph;
use pg_law::{Applied, Change, Datum, State, VertexProgram};
use std::alloc::{AllocError, Global};

/// What a round writes before its end. The lists are kept from round to round.
///
/// `values[v]` and `messages[v]` are the datum and the message of the vertex `v` after apply, and
/// `carries[v]` is there where it executes. `frontier` has the vertices that execute, ascending, and
/// `changes` the edges whose words change, in the order of their visits.
///
/// Between rounds it is blank: the data are those of the state, and nobody has a carry or a message.
#[derive(Drop)]
pub struct Draft<C> {
    pub carries: Vec<Option<C>>,
    pub frontier: Vec<u32>,
    pub values: Vec<Datum>,
    pub messages: Vec<Option<u64>>,
    pub changes: Vec<Change>,
}

/// So many places with nothing.
fn nothings<X: Drop>(alloc: Global, count: usize) -> Result<Vec<Option<X>>, AllocError>
    ensures { IfOk result (λ list. list.items ≡ map (λ v. None) (range_with_len 0 count)) }
{
    let mut list = Vec::with_capacity(alloc, count)?;
    for at in 0..count {
        list.push(None)?;
    }
    Ok(list)
}

/// A blank draft of a state.
pub fn blank_draft<P: VertexProgram>(
    alloc: Global,
    _program: &P,
    graph: &Graph,
    state: &State,
) -> Result<Draft<P::Carry>, AllocError>
    requires { length state.now.values ≡ length graph.now.ids }
    ensures blank { IfOk result (λ draft. IsDraftOf (P.meaning _program.now) graph.now state.now []
        draft.carries.items draft.values.items draft.messages.items) }
    ensures changes { IfOk result (λ draft. draft.changes.items ≡ []) }
{
    let room = graph.vertices() as usize;
    Ok(Draft {
        carries: nothings(alloc, room)?,
        frontier: Vec::with_capacity(alloc, room)?,
        values: Vec::from_slice(alloc, state.values.as_slice())?,
        messages: nothings(alloc, room)?,
        changes: Vec::new(alloc),
    })
}

impl<C: Copy> Draft<C> {
    /// Notes what the vertex `v` becomes.
    pub fn note(&mut self, v: u32, applied: Applied<C>)
        requires carries { v < length self.old.carries.items }
        requires values { v < length self.old.values.items }
        requires messages { v < length self.old.messages.items }
        ensures carries { self.new.carries.items ≡
            slice_set self.old.carries.items v (Some applied.carry) }
        ensures values { self.new.values.items ≡ slice_set self.old.values.items v applied.datum }
        ensures messages { self.new.messages.items ≡
            slice_set self.old.messages.items v applied.again }
        ensures frontier { self.new.frontier.items ≡ self.old.frontier.items }
        ensures changes { self.new.changes.items ≡ self.old.changes.items }
    {
        self.carries[v as usize] = Some(applied.carry);
        self.values[v as usize] = applied.datum;
        self.messages[v as usize] = applied.again;
    }
}

/// Hands over the data of the frontier, and takes away its carries and messages.
pub fn hand_over<C: Copy>(
    frontier: &[u32],
    carries: &mut [Option<C>],
    drafted: &[Datum],
    values: &mut [Datum],
    messages: &mut [Option<u64>],
)
    requires carries { All (λ v. v < length carries.old) frontier.now }
    requires drafted { All (λ v. v < length drafted.now) frontier.now }
    requires values { All (λ v. v < length values.old) frontier.now }
    requires messages { All (λ v. v < length messages.old) frontier.now }
    ensures carries { (v : _) → v < length carries.old →
        carry_at carries.new v ≡ cond (is_among frontier.now v) None (carry_at carries.old v) }
    ensures values { (v : _) → v < length values.old →
        datum_in values.new v ≡
        cond (is_among frontier.now v) (datum_in drafted.now v) (datum_in values.old v) }
    ensures messages { (v : _) → v < length messages.old →
        message_in messages.new v
        ≡ cond (is_among frontier.now v) None (message_in messages.old v) }
{
    for at in 0..frontier.len() {
        let v = frontier[at] as usize;
        carries[v] = None;
        values[v] = drafted[v];
        messages[v] = None;
    }
}

/// Notes the new word of an edge, where it is not the old one.
pub fn note_change(
    changes: &mut Vec<Change>,
    edge: u32,
    old: u64,
    new: u64,
) -> Result<(), AllocError>
    ensures { OnOk result (changes.new.items ≡ with_change changes.old.items edge old new) }
{
    if old != new {
        changes.push(Change { edge, word: new })?;
    }
    Ok(())
}
