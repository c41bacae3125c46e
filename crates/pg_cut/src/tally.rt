//! How many edges and replicas the workers hold.
ghost use Rattle.std.specs.Prelude.{◌≡◌, ℕ, ◌+◌, ◌-◌, ◌<◌, ◌≤◌, ◌^◌, ◌==◌, if◌then◌else◌, All};
ghost use Rattle.std.specs.Prelude.{length, map, slice_index, count_by, sum_by, IfOk};
ghost use Rattle.std.specs.List.{range_with_len};
ghost use Rattle.pg_cut.specs.WorkerSet.{has, is_in, workers_in, IsWithin};

use crate::worker_set::{lowest, size, without};
use std::alloc::{AllocError, Global};

/// The edges on each worker.
pub fn loads_of(alloc: Global, workers: u8, place: &[u8]) -> Result<Vec<u32>, AllocError>
    requires few { length place.now < 2 ^ 32 }
    requires place { (e : ℕ) → e < length place.now → slice_index place.now e < workers }
    ensures { IfOk result (λ loads. loads.items ≡
        map (λ w. count_by (λ x. x == w) place.now) (range_with_len 0 workers)) }
{
    let mut loads = vec![in alloc; 0u32; workers as usize]?;
    for e in 0..place.len() {
        let worker = place[e] as usize;
        loads[worker] += 1;
    }
    Ok(loads)
}

/// Counts one more for each worker of a set.
fn count_each(counts: &mut Vec<u32>, set: u64)
    requires within { IsWithin (length counts.old.items) set }
    requires room { (w : ℕ) → w < length counts.old.items →
        slice_index counts.old.items w < 2 ^ 32 - 1 }
    ensures count { length counts.new.items ≡ length counts.old.items }
    ensures each { (w : ℕ) → w < length counts.old.items → slice_index counts.new.items w ≡
        slice_index counts.old.items w + (if has set w then 1 else 0) }
{
    let mut rest = set;
    while rest != 0 {
        let worker = lowest(rest);
        counts[worker as usize] += 1;
        rest = without(rest, worker);
    }
}

/// The replicas on each worker.
pub fn helds_of(alloc: Global, workers: u8, spans: &[u64]) -> Result<Vec<u32>, AllocError>
    requires workers { workers ≤ 64 }
    requires few { length spans.now < 2 ^ 32 }
    requires within { All (IsWithin workers) spans.now }
    ensures { IfOk result (λ held. held.items ≡
        map (λ w. count_by (is_in w) (map workers_in spans.now)) (range_with_len 0 workers)) }
{
    let mut held = vec![in alloc; 0u32; workers as usize]?;
    for v in 0..spans.len() {
        count_each(&mut held, spans[v]);
    }
    Ok(held)
}

/// All replicas.
pub fn replicas_of(spans: &[u64]) -> u64
    requires few { length spans.now < 2 ^ 32 }
    ensures { result ≡ sum_by length (map workers_in spans.now) }
{
    let mut replicas = 0u64;
    for bits in spans {
        replicas += size(*bits) as u64;
    }
    replicas
}
