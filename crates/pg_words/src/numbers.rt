//! Numbers as words write them.
ghost use Rattle.std.specs.Prelude.{◌≡◌, ◌≤◌, IfSome};
ghost use Rattle.pg_words.specs.Options.{number_from};

use pg_base::read_number;

/// The number that a word writes, where it is `least` to `most`.
pub fn number_from(word: &str, least: u64, most: u64) -> Option<u64>
    ensures value { result ≡ number_from least most word.now }
    ensures most { IfSome result (λ number. number ≤ most) }
{
    let number = read_number(word.as_bytes(), most)?;
    if number < least { None } else { Some(number) }
}
