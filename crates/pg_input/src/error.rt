//! Why a text is no graph.

ghost use Rattle.std.specs.Prelude.{◌≡◌};
ghost use Rattle.pg_input.specs.Errors.{error_of_cut};

use pg_base::CutError;
use pg_graph::BuildError;
use pg_readers::BadLine;
use std::alloc::AllocError;

/// A number that a text may not pass.
#[derive(Clone, Copy, Debug, PartialEq, Eq)]
pub enum Which {
    Vertices,
    Edges,
    Bytes,
}

/// Why a text is no graph, or isn't known to be one.
#[derive(Clone, Copy, Debug, PartialEq, Eq)]
pub enum InputError {
    /// The line of this number, counted from 1, is bad.
    Line { number: u64, kind: BadLine },
    /// The text passes a limit.
    Limit { which: Which, limit: u64 },
    /// The source failed.
    ReadFault,
    /// Memory ran out.
    Memory,
}

impl From<AllocError> for InputError {
    ghost use Rattle.std.specs.Prelude.{◌≡◌};
    ghost use Rattle.pg_input.specs.declared.error.InputError.TheVariants.{Memory};

    ghost from_gives = { λ _ e. e ≡ Memory };

    fn from(_: AllocError) -> Self {
        InputError::Memory
    }
}

impl From<BuildError> for InputError {
    ghost use Rattle.std.specs.Prelude.{◌≡◌};
    ghost use Rattle.pg_input.specs.Errors.{error_of_build};

    ghost from_gives = { λ refusal e. e ≡ error_of_build refusal };

    fn from(refusal: BuildError) -> Self {
        match refusal {
            BuildError::Vertices { limit } => InputError::Limit {
                which: Which::Vertices,
                limit: u64::from(limit),
            },
            BuildError::Edges { limit } => InputError::Limit {
                which: Which::Edges,
                limit: u64::from(limit),
            },
            BuildError::Memory => InputError::Memory,
        }
    }
}

/// What a cutter's refusal is, where it was asked for lines up to `limit` bytes.
pub fn from_cut(refusal: CutError, limit: u64) -> InputError
    ensures { result ≡ error_of_cut limit refusal }
{
    match refusal {
        CutError::OverLimit => InputError::Limit {
            which: Which::Bytes,
            limit,
        },
        CutError::ReadFault => InputError::ReadFault,
        CutError::Memory => InputError::Memory,
    }
}
