//! The ranks of vertices.
ghost use Rattle.std.specs.Prelude.{◌≡◌};
ghost use Rattle.pg_meals.specs.Least.{lesser as lesser_of};

/// A vertex, and the number of its last entry plus one, or 0.
#[derive(Clone, Copy)]
pub struct Ranked {
    pub vertex: u32,
    pub last: usize,
}

/// The one of smaller rank, where the second has the larger number.
pub fn lesser(first: Option<Ranked>, next: Ranked) -> Ranked
    ensures { result ≡ lesser_of first next }
{
    match first {
        Some(first) if first.last <= next.last => first,
        _ => next,
    }
}
