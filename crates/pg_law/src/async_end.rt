//! How a run of executions ends.
ghost use Rattle.std.specs.Prelude.{◌≡◌};

use crate::state::State;
use crate::values::End;
use pg_base::Failed;
use std::alloc::AllocError;

/// What a run of executions leaves, and what it took.
///
/// `executions` is how many were made, which is as long as the journal, and `gathers` is how many
/// edges they gathered over.
#[derive(Drop)]
pub struct AsyncEnd {
    pub state: State,
    pub executions: u64,
    pub gathers: u64,
    pub end: End,
}

/// Why a run of executions gave no state.
#[derive(Clone, Copy, Debug, PartialEq, Eq)]
pub enum AsyncError {
    /// A call of the sink that takes the journal failed.
    WriteFault,
    /// Memory was wanting.
    Memory,
}

impl From<AllocError> for AsyncError {
    ghost use Rattle.pg_law.specs.declared.async_end.AsyncError.TheVariants.{Memory};

    ghost from_gives = { λ _ e. e ≡ Memory };

    fn from(_error: AllocError) -> AsyncError {
        AsyncError::Memory
    }
}

impl From<Failed> for AsyncError {
    ghost use Rattle.pg_law.specs.declared.async_end.AsyncError.TheVariants.{WriteFault};

    ghost from_gives = { λ _ e. e ≡ WriteFault };

    fn from(_error: Failed) -> AsyncError {
        AsyncError::WriteFault
    }
}
