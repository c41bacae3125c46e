//! The words of the edges, put together from the stores of the workers.
ghost use Rattle.std.specs.Prelude.{◌≡◌, ◌<◌, ℕ, List, length, slice_set, All, OnOk};
ghost use Rattle.pg_cut.specs.Cut.{IsCutOf};
ghost use Rattle.pg_edge_store.specs.Store.{IsStoreOf};
ghost use Rattle.pg_sync.specs.Held.{store_at};
ghost use Rattle.pg_sync.specs.Putting.{HasWordsOf, IsPut};

use crate::worker::Scattering;
use pg_cut::Cut;
use pg_edge_store::EdgeStore;
use pg_graph::Graph;
use pg_law::{Change, EdgeWords};
use std::alloc::AllocError;

/// An edge gets a word. Where it has that word, nothing is written.
fn put_word(words: &mut EdgeWords, edge: u32, word: u64) -> Result<(), AllocError>
    requires { edge < length words.old }
    ensures { OnOk result (words.new ≡ slice_set words.old edge word) }
{
    if words.word(edge) == word {
        return Ok(());
    }
    words.write(&[Change { edge, word }])
}

/// The edges of a store get its words.
fn put_store(store: &EdgeStore, words: &mut EdgeWords) -> Result<(), AllocError>
    requires { All (λ e. e < length words.old) store.now.numbers }
    ensures count { OnOk result (length words.new ≡ length words.old) }
    ensures put { OnOk result (IsPut store.now words.old words.new) }
{
    for i in 0..store.len() {
        put_word(words, store.edge(i), store.word(i))?;
    }
    Ok(())
}

/// All edges get the words of the stores that have them. `Err` is want of memory, which only words
/// that changed take.
pub fn put_words<A: Drop>(
    _graph: &Graph,
    _cut: &Cut,
    workers: &[Scattering<A>],
    words: &mut EdgeWords,
) -> Result<(), AllocError>
    requires cut { IsCutOf _graph.now _cut.now }
    requires workers { length workers.now ≡ _cut.now.workers }
    requires stores { (w : ℕ) → w < _cut.now.workers →
        IsStoreOf _graph.now _cut.now w (store_at workers.now w) }
    requires words { length words.old ≡ length _graph.now.edges }
    ensures { OnOk result ((t : List ℕ) → length t ≡ length _graph.now.edges →
        ((w : ℕ) → w < _cut.now.workers → HasWordsOf t (store_at workers.now w)) →
        words.new ≡ t) }
{
    for w in 0..workers.len() {
        put_store(&workers[w].store, words)?;
    }
    Ok(())
}
