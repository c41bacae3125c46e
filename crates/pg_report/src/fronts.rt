//! Numbers at the front of bytes, and at their end.
ghost use Rattle.std.specs.Prelude.{◌≡◌, ◌≤◌, ◌-◌, ◌^◌, IfSome};
ghost use Rattle.std.specs.Option.{option_map};
ghost use Rattle.pg_journal.specs.Fronts.{number_at};
ghost use Rattle.pg_report.specs.Fronts.{last_number};

use pg_journal::number_at;

/// The number below 2^32 at the front, and the bytes behind it.
pub fn small_at(bytes: &[u8]) -> Option<(u32, &[u8])>
    ensures { option_map (λ found. (found.0, found.1.now)) result
        ≡ number_at (2 ^ 32 - 1) bytes.now }
{
    let (number, rest) = number_at(bytes, u32::MAX as u64)?;
    Some((number as u32, rest))
}

/// The number that is all that is left.
pub fn last_number(bytes: &[u8], max: u64) -> Option<u64>
    ensures value { result ≡ last_number max bytes.now }
    ensures within { IfSome result (λ n. n ≤ max) }
{
    let (number, rest) = number_at(bytes, max)?;
    if rest.is_empty() { Some(number) } else { None }
}
