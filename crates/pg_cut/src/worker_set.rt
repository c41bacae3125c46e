//! A set of workers, with a bit for each.
ghost use Rattle.std.specs.Prelude.{◌≡◌, ℕ, ◌<◌, ◌≤◌, ◌||◌, ◌==◌, true, false, if◌then◌else◌};
ghost use Rattle.std.specs.Prelude.{length, slice_index};
ghost use Rattle.pg_cut.specs.WorkerSet.{has, workers_in};

/// Whether a worker is in the set.
pub fn has_worker(set: u64, worker: u8) -> bool
    requires { worker < 64 }
    ensures { result ≡ has set worker }
{
    (set >> worker) & 1 == 1
}

/// The set with one more worker.
pub fn with_worker(set: u64, worker: u8) -> u64
    requires { worker < 64 }
    ensures { (w : ℕ) → has result w ≡ (has set w || (w == worker)) }
{
    set | (1u64 << worker)
}

/// The least worker of the set.
pub fn lowest(set: u64) -> u8
    requires { 0 < set }
    ensures within { result < 64 }
    ensures member { has set result ≡ true }
    ensures least { (w : ℕ) → w < result → has set w ≡ false }
{
    set.trailing_zeros() as u8
}

/// The set without one of its workers.
pub fn without(set: u64, worker: u8) -> u64
    requires { has set worker ≡ true }
    ensures value { (w : ℕ) → has result w ≡ (if w == worker then false else has set w) }
    ensures less { result < set }
{
    set ^ (1u64 << worker)
}

/// How many workers are in the set.
pub fn size(set: u64) -> u32
    ensures value { result ≡ length (workers_in set) }
    ensures few { result ≤ 64 }
{
    set.count_ones()
}

/// The worker at a place of the ascending list.
pub fn worker_at(set: u64, place: u32) -> u8
    requires { place < length (workers_in set) }
    ensures { result ≡ slice_index (workers_in set) place }
{
    let mut rest = set;
    for _passed in 0..place {
        rest = without(rest, lowest(rest));
    }
    lowest(rest)
}
