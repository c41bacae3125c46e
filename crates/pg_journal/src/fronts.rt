//! What stands at the front of bytes, and what is behind it.
ghost use Rattle.std.specs.Prelude.{◌≡◌, ◌≤◌, length, IfSome};
ghost use Rattle.std.specs.Option.{option_map};
ghost use Rattle.pg_journal.specs.Fronts.{behind, digits_at, plain_number, number_at};

use pg_base::read_number;

/// The bytes behind a text, where it stands at the front.
#[tactic(auto, unfolding(crate::specs::Fronts::behind))]
pub fn behind<'a>(bytes: &'a [u8], text: &[u8]) -> Option<&'a [u8]>
    ensures { option_map (λ rest. rest.now) result ≡ behind text.now bytes.now }
{
    bytes.strip_prefix(text)
}

/// How many digits stand at the front.
fn digits_at(bytes: &[u8]) -> usize
    ensures count { result ≡ digits_at bytes.now }
    ensures within { result ≤ length bytes.now }
{
    let mut count = 0;
    while count < bytes.len() && bytes[count].is_ascii_digit() {
        count += 1;
    }
    count
}

/// The number that digits write without a leading zero, at most `max`.
#[tactic(auto, unfolding(crate::specs::Fronts::plain_number))]
fn plain_number(digits: &[u8], max: u64) -> Option<u64>
    ensures value { result ≡ plain_number max digits.now }
    ensures within { IfSome result (λ n. n ≤ max) }
{
    if digits.len() > 1 && digits[0] == b'0' {
        return None;
    }
    read_number(digits, max)
}

/// The number at the front, at most `max` and without a leading zero, and the bytes behind it.
#[tactic(auto, unfolding(crate::specs::Fronts::number_at))]
pub fn number_at(bytes: &[u8], max: u64) -> Option<(u64, &[u8])>
    ensures value { option_map (λ found. (found.0, found.1.now)) result ≡ number_at max bytes.now }
    ensures within { IfSome result (λ found. found.0 ≤ max) }
{
    let (digits, rest) = bytes.split_at(digits_at(bytes));
    Some((plain_number(digits, max)?, rest))
}
