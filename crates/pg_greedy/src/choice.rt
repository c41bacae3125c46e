//! The workers that may get an edge.
ghost use Rattle.std.specs.Prelude.{◌≡◌, ℕ, ◌<◌, ◌≤◌, nat_lt};
ghost use Rattle.pg_cut.specs.WorkerSet.{has};

/// The workers that may get an edge, a bit for each, and the case that says so.
#[derive(Clone, Copy)]
pub struct Choice {
    pub set: u64,
    pub case: u8,
}

/// The workers below a number.
pub fn all_below(workers: u8) -> u64
    requires some { 1 ≤ workers }
    requires few { workers ≤ 64 }
    ensures value { (w : ℕ) → has result w ≡ nat_lt w workers }
    ensures some { 0 < result }
{
    u64::MAX >> (64 - workers)
}
