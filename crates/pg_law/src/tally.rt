//! A number that only proofs see.
ghost use Rattle.std.specs.Prelude.{◌≡◌, ℕ, ◌+◌};
ghost use Rattle.std.specs.Borrow.{ftrue};

use std::marker::{Model, PhantomData};

/// A number that only proofs see. It takes no bytes, and its calls do nothing at run time.
#[derive(Drop)]
pub(crate) struct Tally {
    of: PhantomData<()>,
    pub ghost number: { ℕ },
}

impl Model for Tally {
    ghost also_owns = { λ _. ftrue };
}

// It owns nothing.
unsafe impl Send for Tally {}

impl Tally {
    /// The number 0.
    pub fn zero() -> Tally
        ensures { result.number ≡ 0 }
    {
        Tally { of: PhantomData }
    }

    /// The next number.
    pub fn next(&self) -> Tally
        ensures { result.number ≡ self.now.number + 1 }
    {
        Tally { of: PhantomData }
    }
}
