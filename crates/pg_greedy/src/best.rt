//! The best worker of a set.
ghost use Rattle.std.specs.Prelude.{◌≡◌, ℕ, ◌+◌, ◌*◌, ◌<◌, ◌≤◌, true, length, slice_index};
ghost use Rattle.pg_cut.specs.WorkerSet.{workers_in, IsWithin};
ghost use Rattle.pg_greedy.specs.Greedy.{turn_of, best_of, IsBest};

use pg_cut::{lowest, without};

/// The place of a worker in the order that begins with `first`.
fn turn(workers: u8, first: u8, worker: u8) -> u8
    requires workers { workers ≤ 64 }
    requires first { first < workers }
    requires worker { worker < workers }
    ensures value { result ≡ turn_of workers first worker }
    ensures few { result < 64 }
{
    if worker < first {
        worker + workers - first
    } else {
        worker - first
    }
}

/// Less for a worker that goes before: by its load, and then by its turn.
fn key(loads: &[u32], workers: u8, first: u8, worker: u8) -> u64
    requires workers { workers ≤ 64 }
    requires first { first < workers }
    requires worker { worker < workers }
    requires loads { length loads.now ≡ workers }
    ensures { result ≡ 64 * slice_index loads.now worker + turn_of workers first worker }
{
    64 * loads[worker as usize] as u64 + turn(workers, first, worker) as u64
}

/// The worker of least load in a set, and of these the first in the order.
pub fn best(loads: &[u32], workers: u8, first: u8, set: u64) -> u8
    requires workers { workers ≤ 64 }
    requires first { first < workers }
    requires loads { length loads.now ≡ workers }
    requires some { 0 < set }
    requires within { IsWithin workers set }
    ensures value { result ≡ best_of workers first loads.now (workers_in set) }
    ensures best { IsBest workers first loads.now (workers_in set) result }
    ensures within { result < workers }
{
    let mut best = lowest(set);
    let mut best_key = key(loads, workers, first, best);
    let mut rest = without(set, best);
    while rest != 0 {
        let worker = lowest(rest);
        let worker_key = key(loads, workers, first, worker);
        if worker_key < best_key {
            best = worker;
            best_key = worker_key;
        }
        rest = without(rest, worker);
    }
    best
}
