//! The results of a phase, taken from the workers.
ghost use Rattle.std.specs.Prelude.{◌≡◌, Some, Ok, length, map, IfOk};

use crate::worker::{Scattering, Seat};
use pg_apply_scatter::Sent;
use pg_law::Steps;
use std::alloc::{AllocError, Global};
use std::mem::replace;
use std::sync::ledger::Ledger;

/// What the workers summed, each list in its worker's place. The counters stay.
pub fn sums_of<A: Drop, L: Ledger>(
    alloc: Global,
    seats: &mut [Seat<A, L>],
) -> Result<Vec<Vec<(u32, A)>>, AllocError>
    ensures sums { IfOk result (λ parts. map Some parts.items ≡ map (λ seat. seat.1) seats.old) }
    ensures counters { map (λ seat. seat.0) seats.new ≡ map (λ seat. seat.0) seats.old }
{
    let mut parts = Vec::with_capacity(alloc, seats.len())?;
    for w in 0..seats.len() {
        match seats[w].1.take() {
            Some(sums) => parts.push(sums)?,
            None => return Err(AllocError),
        }
    }
    Ok(parts)
}

/// What the workers sent, each list in its worker's place. The stores stay.
pub fn sent_of<A: Drop>(
    alloc: Global,
    workers: &mut [Scattering<A>],
) -> Result<Vec<Vec<Sent<A>>>, AllocError>
    ensures sent { IfOk result (λ lists.
        map Ok lists.items ≡ map (λ worker. worker.sent) workers.old) }
    ensures stores { map (λ worker. worker.store) workers.new ≡
        map (λ worker. worker.store) workers.old }
{
    let mut lists = Vec::with_capacity(alloc, workers.len())?;
    for w in 0..workers.len() {
        let sent = replace(&mut workers[w].sent, Ok(Vec::new(alloc)))?;
        lists.push(sent)?;
    }
    Ok(lists)
}
