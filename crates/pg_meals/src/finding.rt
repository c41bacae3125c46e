//! What an actor finds at a fork.
ghost use Rattle.std.specs.Prelude.{◌≡◌, ◌||◌, None, Some, MatchOption};
ghost use Rattle.pg_meals.specs.Acts.{clean_at as stands_clean_at, got_of};
ghost use Rattle.pg_meals.specs.Entries.{got_in};

use pg_forks::ForkWord;
use pg_graph::Side;

/// Whether the fork stands clean at the end `me`, and nobody pinned it.
pub fn clean_at(word: ForkWord, me: Side) -> bool
    ensures { result ≡ stands_clean_at word me }
{
    match (word.side, me) {
        (Side::Source, Side::Source) => !word.dirty && !word.pinned,
        (Side::Target, Side::Target) => !word.dirty && !word.pinned,
        _ => false,
    }
}

/// What an attempt knows of signals after it found a message or not, and the fork as it stands.
pub fn shows(known: bool, found: bool, word: ForkWord, me: Side) -> bool
    ensures { result ≡ (known || found || stands_clean_at word me) }
{
    known || found || clean_at(word, me)
}

/// A fork's word once it is pinned, and whether it was taken for that.
#[derive(Clone, Copy)]
pub struct Got {
    pub word: ForkWord,
    pub taken: bool,
}

/// Pins the fork, or else takes it.
pub fn get(word: ForkWord, me: Side) -> Option<Got>
    ensures { MatchOption result
        (got_of word me ≡ None)
        (λ got. got_of word me ≡ Some (got_in got)) }
{
    match word.pin(me) {
        Some(word) => Some(Got { word, taken: false }),
        None => match word.take(me) {
            Some(word) => Some(Got { word, taken: true }),
            None => None,
        },
    }
}
