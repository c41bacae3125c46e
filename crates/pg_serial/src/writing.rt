//! The words that an execution sends, written to its edges.
ghost use Rattle.std.specs.Prelude.{◌≡◌, ◌<◌, true, length, map, slice_index, All, IfOk, OnOk, OnErr};
ghost use Rattle.pg_serial.specs.Sending.{word_with, change_of};

use crate::scatter::Sent;
use pg_law::{Change, EdgeWords};
use std::alloc::{AllocError, Global};

/// Whether each word that was sent is the word that its edge has.
fn keeps_words(words: &EdgeWords, sents: &[Sent]) -> bool
    requires { All (λ sent. sent.edge < length words.now) sents.now }
    ensures { result ≡ true →
        All (λ sent. slice_index words.now sent.edge ≡ sent.word) sents.now }
{
    for sent in sents {
        if words.word(sent.edge) != sent.word {
            return false;
        }
    }
    true
}

/// What was sent, as changes of words, in order.
fn changes_of(alloc: Global, sents: &[Sent]) -> Result<Vec<Change>, AllocError>
    ensures { IfOk result (λ changes. changes.items ≡ map change_of sents.now) }
{
    let mut changes = Vec::with_capacity(alloc, sents.len())?;
    for sent in sents {
        changes.push(Change {
            edge: sent.edge,
            word: sent.word,
        })?;
    }
    Ok(changes)
}

/// Writes the words that were sent, all of them or none.
///
/// Where each of them is the word that its edge has, nothing is written, and no memory is taken:
/// so it is at every execution of a program that writes no words.
pub fn write_words(alloc: Global, words: &mut EdgeWords, sents: &[Sent]) -> Result<(), AllocError>
    requires { All (λ sent. sent.edge < length words.old) sents.now }
    ensures ok { OnOk result ((e : _) → e < length words.old →
        slice_index words.new e ≡ word_with e (slice_index words.old e) sents.now) }
    ensures err { OnErr result (words.new ≡ words.old) }
    ensures len { length words.new ≡ length words.old }
{
    if keeps_words(words, sents) {
        return Ok(());
    }
    let changes = changes_of(alloc, sents)?;
    words.write(changes.as_slice())?;
    Ok(())
}
