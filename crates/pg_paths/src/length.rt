//! Lengths of paths.
ghost use Rattle.std.specs.Prelude.{◌≡◌, ◌+◌, ◌≤◌, ◌↔◌};
ghost use Rattle.pg_paths.specs.Plus.{plus as plus_of};

/// The length of a path and one more edge. `u64::MAX` stands for every length from there on, and
/// for no path.
pub fn plus(length: u64, weight: u32) -> u64
    ensures value { result ≡ plus_of length weight }
    ensures greatest { (result ≡ u64.MAX) ↔ (u64.MAX ≤ length + weight) }
{
    length.saturating_add(weight as u64)
}
