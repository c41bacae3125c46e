//! A word for each edge.
ghost use Rattle.std.specs.Prelude.{◌≡◌, ◌+◌, ◌-◌, ◌<◌, ◌^◌, [], ◌∷◌, ◌++◌, length, slice_index, All, IfOk, OnOk, OnErr};
ghost use Rattle.pg_law.specs.EdgeWords.{written, words_of};

use std::alloc::{AllocError, Global};
use std::marker::Model;

/// An edge, by its number, gets another word.
#[derive(Clone, Copy, Debug)]
pub struct Change {
    pub edge: u32,
    pub word: u64,
}

/// A word for each edge, in order of edge number.
///
/// While all words are equal, `all` is kept for all of them, and `each` is empty: most programs write
/// no word, and a list would take as much room as the rows of the graph. Else `each` has them.
#[derive(Drop)]
pub struct EdgeWords {
    count: usize,
    all: u64,
    each: Vec<u64>,
}

impl Model for EdgeWords {
    ghost use Rattle.std.specs.Prelude.{ℕ, List};
    ghost use Rattle.pg_law.specs.EdgeWords.{words_of, AreCounted};

    ghost Value = { List ℕ };

    ghost view = { λ w. words_of w.count w.all w.each.items };

    ghost invariant = { λ w. AreCounted w.count w.each.items };
}

impl EdgeWords {
    /// No word.
    pub fn new(alloc: Global) -> EdgeWords
        ensures { result ≡ [] }
    {
        EdgeWords {
            count: 0,
            all: 0,
            each: Vec::new(alloc),
        }
    }

    /// How many words there are.
    pub fn len(&self) -> usize
        ensures { result ≡ length self.now }
    {
        self.count
    }

    /// The word of an edge.
    pub fn word(&self, e: u32) -> u64
        requires { e < length self.now }
        ensures { result ≡ slice_index self.now e }
    {
        if self.each.is_empty() {
            self.all
        } else {
            self.each[e as usize]
        }
    }

    /// The words as a list of their own.
    pub fn to_vec(&self, alloc: Global) -> Result<Vec<u64>, AllocError>
        ensures { IfOk result (λ words. words.items ≡ self.now) }
    {
        if self.each.is_empty() {
            return Ok(vec![in alloc; self.all; self.count]?);
        }
        Vec::from_slice(alloc, self.each.as_slice())
    }

    /// Adds the word of the next edge.
    #[inline(always)]
    pub fn push(&mut self, word: u64) -> Result<(), AllocError>
        requires { length self.old < 2 ^ 64 - 1 }
        ensures ok { OnOk result (self.new ≡ self.old ++ word ∷ []) }
        ensures err { OnErr result (self.new ≡ self.old) }
    {
        if self.count == 0 {
            self.all = word;
        }
        if !self.each.is_empty() || word != self.all {
            push_apart(&mut self.each, self.count, self.all, word)?;
        }
        self.count += 1;
        Ok(())
    }

    /// Gives edges other words, in order. It takes memory where the first word is written.
    pub fn write(&mut self, changes: &[Change]) -> Result<(), AllocError>
        requires { All (λ change. change.edge < length self.old) changes.now }
        ensures ok { OnOk result (self.new ≡ written self.old changes.now) }
        ensures err { OnErr result (self.new ≡ self.old) }
    {
        if changes.is_empty() {
            return Ok(());
        }
        spread(&mut self.each, self.count, self.all)?;
        make_changes(self.each.as_mut_slice(), changes);
        Ok(())
    }
}

impl From<Vec<u64>> for EdgeWords {
    ghost use Rattle.std.specs.Prelude.{◌≡◌};

    ghost from_gives = { λ words result. result ≡ words.items };

    fn from(words: Vec<u64>) -> Self {
        EdgeWords {
            count: words.len(),
            all: 0,
            each: words,
        }
    }
}

/// Keeps each of so many words on its own, where one is kept for all.
fn spread(each: &mut Vec<u64>, count: usize, all: u64) -> Result<(), AllocError>
    ensures ok { OnOk result (each.new.items ≡ words_of count all each.old.items) }
    ensures err { OnErr result (each.new.items ≡ each.old.items) }
{
    if each.is_empty() {
        each.resize(count, all)?;
    }
    Ok(())
}

/// Adds a word, and keeps all of them on their own.
fn push_apart(each: &mut Vec<u64>, count: usize, all: u64, word: u64) -> Result<(), AllocError>
    ensures ok { OnOk result (each.new.items ≡ words_of count all each.old.items ++ word ∷ []) }
    ensures err { OnErr result
        (words_of count all each.new.items ≡ words_of count all each.old.items) }
{
    spread(each, count, all)?;
    each.push(word)?;
    Ok(())
}

/// Makes the changes, in order.
fn make_changes(words: &mut [u64], changes: &[Change])
    requires { All (λ change. change.edge < length words.old) changes.now }
    ensures { words.new ≡ written words.old changes.now }
{
    for change in changes {
        words[change.edge as usize] = change.word;
    }
}
