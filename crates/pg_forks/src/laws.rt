//! Laws of fork words.
ghost use Rattle.std.specs.Prelude.{◌≡◌, Some};
ghost use Rattle.pg_forks.specs.declared.fork_word.ForkWord.{ForkWord};
ghost use Rattle.pg_forks.specs.Bits.{bits_of, word_of_bits};

/// The number of a word is read as that word.
pub fn words_come_back()
    ensures { (w : ForkWord) → word_of_bits (bits_of w) ≡ Some w }
{}
