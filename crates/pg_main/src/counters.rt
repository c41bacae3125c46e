//! The workers' counters.
ghost use Rattle.std.specs.Prelude.{◌≡◌, length, IfOk};
ghost use Rattle.pg_main.specs.Counters.{ArePresent};

use pg_law::Steps;
use std::alloc::{AllocError, Global};
use std::sync::ledger::Ledger;

/// So many counters, each of which stands at 0.
pub fn counters<L: Ledger>(alloc: Global, count: usize) -> Result<Vec<Option<Steps<L>>>, AllocError>
    ensures count { IfOk result (λ counters. length counters.items ≡ count) }
    ensures present { IfOk result (λ counters. ArePresent counters.items) }
{
    let mut counters = Vec::with_capacity(alloc, count)?;
    for worker in 0..count {
        counters.push(Some(Steps::new()))?;
    }
    Ok(counters)
}
