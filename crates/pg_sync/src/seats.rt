//! The counters, lent to the seats of the workers and given back.
ghost use Rattle.std.specs.Prelude.{◌≡◌, length, IfOk, OnErr};
ghost use Rattle.pg_sync.specs.Counting.{counters_of};

use crate::worker::Seat;
use pg_law::Steps;
use std::alloc::{AllocError, Global};
use std::sync::ledger::Ledger;

/// A seat for each counter, which is lent. For want of memory none is.
pub fn seats_of<A: Drop, L: Ledger>(
    alloc: Global,
    steps: &mut [Option<Steps<L>>],
) -> Result<Vec<Seat<A, L>>, AllocError>
    ensures lent { IfOk result (λ seats. counters_of seats.items ≡ steps.old) }
    ensures kept { OnErr result (steps.new ≡ steps.old) }
{
    let mut seats = Vec::with_capacity(alloc, steps.len())?;
    for w in 0..steps.len() {
        seats.push_reserved((steps[w].take(), None));
    }
    Ok(seats)
}

/// The counters come back.
pub fn give_back<A: Drop, L: Ledger>(seats: &mut [Seat<A, L>], steps: &mut [Option<Steps<L>>])
    requires { length seats.old ≡ length steps.old }
    ensures { steps.new ≡ counters_of seats.old }
{
    for w in 0..steps.len() {
        steps[w] = seats[w].0.take();
    }
}
