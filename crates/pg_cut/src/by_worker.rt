//! Lists, one for each worker: its edges and its vertices.
//!
//! Each is filled in one pass over the edges or the vertices, into room that was counted before.
ghost use Rattle.std.specs.Prelude.{◌≡◌, ℕ, ◌+◌, ◌<◌, ◌≤◌, ◌^◌, ◌==◌, [], ◌∷◌, length, map, All};
ghost use Rattle.std.specs.Prelude.{filter, slice_index, if◌then◌else◌, IfOk, OnOk};
ghost use Rattle.std.specs.List.{range_with_len};
ghost use Rattle.pg_cut.specs.ByWorker.{lists_in, Appends};
ghost use Rattle.pg_cut.specs.Cut.{edges_on as all_edges_on};
ghost use Rattle.pg_cut.specs.WorkerSet.{has, IsWithin};

use crate::worker_set::{lowest, without};
use std::alloc::{AllocError, Global};

/// An empty list for each of these numbers, with room for so many items.
fn empty_lists(alloc: Global, rooms: &[u32]) -> Result<Vec<Vec<u32>>, AllocError>
    ensures { IfOk result (λ lists. lists_in lists.items ≡ map (λ _. []) rooms.now) }
{
    let mut lists = Vec::with_capacity(alloc, rooms.len())?;
    for room in rooms {
        lists.push(Vec::with_capacity(alloc, *room as usize)?)?;
    }
    Ok(lists)
}

/// Puts an item at the back of a worker's list.
fn push_at(lists: &mut Vec<Vec<u32>>, worker: u8, item: u32) -> Result<(), AllocError>
    requires { worker < length lists.old.items }
    ensures { OnOk result (Appends (lists_in lists.old.items) (lists_in lists.new.items)
        (λ w. if worker == w then item ∷ [] else [])) }
{
    lists[worker as usize].push(item)?;
    Ok(())
}

/// The edges of each worker, ascending. `loads` are their numbers.
pub fn edges_by_worker(
    alloc: Global,
    place: &[u8],
    loads: &[u32],
) -> Result<Vec<Vec<u32>>, AllocError>
    requires few { length place.now < 2 ^ 32 }
    requires place { (e : ℕ) → e < length place.now → slice_index place.now e < length loads.now }
    ensures { IfOk result (λ lists. lists_in lists.items ≡
        map (all_edges_on place.now) (range_with_len 0 (length loads.now))) }
{
    let mut lists = empty_lists(alloc, loads)?;
    for e in 0..place.len() {
        push_at(&mut lists, place[e], e as u32)?;
    }
    Ok(lists)
}

/// Puts an item at the back of the list of each worker of a set.
fn push_to_each(lists: &mut Vec<Vec<u32>>, set: u64, item: u32) -> Result<(), AllocError>
    requires { IsWithin (length lists.old.items) set }
    ensures { OnOk result (Appends (lists_in lists.old.items) (lists_in lists.new.items)
        (λ w. if has set w then item ∷ [] else [])) }
{
    let mut rest = set;
    while rest != 0 {
        let worker = lowest(rest);
        push_at(lists, worker, item)?;
        rest = without(rest, worker);
    }
    Ok(())
}

/// The vertices that have each worker in their spans, ascending. `held` are their numbers.
pub fn vertices_by_worker(
    alloc: Global,
    spans: &[u64],
    held: &[u32],
) -> Result<Vec<Vec<u32>>, AllocError>
    requires few { length spans.now < 2 ^ 32 }
    requires within { All (IsWithin (length held.now)) spans.now }
    ensures { IfOk result (λ lists. lists_in lists.items ≡
        map (λ w. filter (λ v. has (slice_index spans.now v) w)
        (range_with_len 0 (length spans.now)))
        (range_with_len 0 (length held.now))) }
{
    let mut lists = empty_lists(alloc, held)?;
    for v in 0..spans.len() {
        push_to_each(&mut lists, spans[v], v as u32)?;
    }
    Ok(lists)
}
