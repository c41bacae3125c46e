//! The words of a worker's edges.
ghost use Rattle.std.specs.Prelude.{◌≡◌, ◌<◌, ◌≤◌, [], length, map, replicate, slice_index};
ghost use Rattle.std.specs.Prelude.{slice_set, vec_capacity, All, IfOk, IfSome};

use pg_law::EdgeWords;
use std::alloc::{AllocError, Global};
use std::marker::Model;

/// A word for each edge of a worker, in order of place.
///
/// While all are equal, `all` stands for each of them, and `each` is empty, as in `EdgeWords`. But
/// `each` has room for all of them from the start, so that a change of a word takes no memory.
#[derive(Drop)]
pub struct OwnWords {
    count: usize,
    all: u64,
    each: Vec<u64>,
}

impl Model for OwnWords {
    ghost use Rattle.std.specs.Prelude.{ℕ, List};
    ghost use Rattle.pg_law.specs.EdgeWords.{words_of};
    ghost use Rattle.pg_edge_store.specs.Words.{HaveRoom};

    ghost Value = { List ℕ };

    ghost view = { λ w. words_of w.count w.all w.each.items };

    ghost invariant = { λ w. HaveRoom w.count w.each };
}

/// The word of all these edges, where they have the same. Where there is no edge, it is any.
fn common_word(numbers: &[u32], words: &EdgeWords) -> Option<u64>
    requires { All (λ e. e < length words.now) numbers.now }
    ensures { IfSome result (λ word. map (slice_index words.now) numbers.now
        ≡ replicate (length numbers.now) word) }
{
    if numbers.is_empty() {
        return Some(0);
    }
    let word = words.word(numbers[0]);
    for e in numbers {
        if words.word(*e) != word {
            return None;
        }
    }
    Some(word)
}

/// The words of these edges, each on its own.
fn words_at(alloc: Global, numbers: &[u32], words: &EdgeWords) -> Result<Vec<u64>, AllocError>
    requires { All (λ e. e < length words.now) numbers.now }
    ensures { IfOk result (λ own. own.items ≡ map (slice_index words.now) numbers.now) }
{
    let mut own = Vec::with_capacity(alloc, numbers.len())?;
    for e in numbers {
        own.push(words.word(*e))?;
    }
    Ok(own)
}

/// Keeps each of so many words on its own, where one stood for all. There is room for them.
fn spread(each: &mut Vec<u64>, count: usize, all: u64)
    requires empty { each.old.items ≡ [] }
    requires room { count ≤ vec_capacity each.old }
    ensures items { each.new.items ≡ replicate count all }
    ensures room { vec_capacity each.new ≡ vec_capacity each.old }
{
    for _place in 0..count {
        each.push_reserved(all);
    }
}

impl OwnWords {
    /// The words of these edges.
    pub fn of(alloc: Global, numbers: &[u32], words: &EdgeWords) -> Result<OwnWords, AllocError>
        requires { All (λ e. e < length words.now) numbers.now }
        ensures { IfOk result (λ own. own ≡ map (slice_index words.now) numbers.now) }
    {
        let count = numbers.len();
        match common_word(numbers, words) {
            Some(all) => Ok(OwnWords {
                count,
                all,
                each: Vec::with_capacity(alloc, count)?,
            }),
            None => Ok(OwnWords {
                count,
                all: 0,
                each: words_at(alloc, numbers, words)?,
            }),
        }
    }

    /// The word at a place.
    pub fn word(&self, i: u32) -> u64
        requires { i < length self.now }
        ensures { result ≡ slice_index self.now i }
    {
        if self.each.is_empty() {
            self.all
        } else {
            self.each[i as usize]
        }
    }

    /// Puts another word at a place.
    pub fn set(&mut self, i: u32, word: u64)
        requires { i < length self.old }
        ensures { self.new ≡ slice_set self.old i word }
    {
        if self.word(i) == word {
            return;
        }
        if self.each.is_empty() {
            spread(&mut self.each, self.count, self.all);
        }
        self.each[i as usize] = word;
    }
}
