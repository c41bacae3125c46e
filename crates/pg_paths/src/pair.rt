//! Pairs of words: the length of a path, and the id of the vertex before its end.
ghost use Rattle.std.specs.Prelude.{◌≡◌};
ghost use Rattle.pg_paths.specs.Pairs.{is_below as is_below_of, smaller_pair};
ghost use Rattle.pg_paths.specs.Pairs.{unreached as unreached_pair, via as via_of};

use crate::length::plus;
use pg_law::Datum;

/// No path is known.
pub(crate) fn unreached() -> Datum
    ensures { result ≡ unreached_pair }
{
    Datum::two(u64::MAX, u64::MAX)
}

/// A path of this length, and an edge of this weight from the vertex of this id.
pub(crate) fn via(length: u64, weight: u32, id: u32) -> Datum
    ensures { result ≡ via_of length weight id }
{
    let length = plus(length, weight);
    if length == u64::MAX {
        unreached()
    } else {
        Datum::two(length, id as u64)
    }
}

/// Pairs are ordered by the first word, and then by the second.
pub(crate) fn is_below(a: Datum, b: Datum) -> bool
    ensures { result ≡ is_below_of a b }
{
    a.first < b.first || a.first == b.first && a.second < b.second
}

pub(crate) fn smaller(a: Datum, b: Datum) -> Datum
    ensures { result ≡ smaller_pair a b }
{
    if is_below(b, a) { b } else { a }
}
