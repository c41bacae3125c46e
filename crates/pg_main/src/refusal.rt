//! Why a job wasn't done.

use pg_base::Failed;
use pg_input::InputError;
use pg_law::AsyncError;
use std::alloc::AllocError;

/// Why a job wasn't done.
#[derive(Clone, Copy, Debug, PartialEq, Eq)]
pub enum Refusal {
    /// The text wasn't read.
    Input(InputError),
    /// The graph has no vertex of this id, which the job names.
    NoVertex { id: u32 },
    /// The output failed.
    WriteFault,
    Memory,
}

impl From<InputError> for Refusal {
    ghost use Rattle.std.specs.Prelude.{◌≡◌};
    ghost use Rattle.pg_main.specs.declared.refusal.Refusal.TheVariants.{Input};

    ghost from_gives = { λ error e. e ≡ Input error };

    fn from(error: InputError) -> Self {
        Refusal::Input(error)
    }
}

impl From<AllocError> for Refusal {
    ghost use Rattle.std.specs.Prelude.{◌≡◌};
    ghost use Rattle.pg_main.specs.declared.refusal.Refusal.TheVariants.{Memory};

    ghost from_gives = { λ _ e. e ≡ Memory };

    fn from(_: AllocError) -> Self {
        Refusal::Memory
    }
}

impl From<Failed> for Refusal {
    ghost use Rattle.std.specs.Prelude.{◌≡◌};
    ghost use Rattle.pg_main.specs.declared.refusal.Refusal.TheVariants.{WriteFault};

    ghost from_gives = { λ _ e. e ≡ WriteFault };

    fn from(_: Failed) -> Self {
        Refusal::WriteFault
    }
}

impl From<AsyncError> for Refusal {
    ghost use Rattle.std.specs.Prelude.{◌≡◌};
    ghost use Rattle.pg_main.specs.Answers.{refusal_of};

    ghost from_gives = { λ error e. e ≡ refusal_of error };

    fn from(error: AsyncError) -> Self {
        match error {
            AsyncError::WriteFault => Refusal::WriteFault,
            AsyncError::Memory => Refusal::Memory,
        }
    }
}
