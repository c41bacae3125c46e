//! Numbers in an order that a seed gives.
ghost use Rattle.std.specs.Prelude.{◌<◌};

use rand_core::utils::NextWord;
use rand_pcg::Pcg32;

/// The order of a run. The same seed gives the same numbers.
#[derive(Drop)]
pub struct Order {
    words: Pcg32,
}

impl Order {
    /// The order that a seed gives, from its start.
    pub fn of(seed: u64) -> Order {
        Order {
            words: Pcg32::new(seed, 0),
        }
    }

    /// The next number below a limit.
    pub fn below(&mut self, limit: u32) -> u32
        requires { 0 < limit }
        ensures { result < limit }
    {
        self.words.next_word() % limit
    }
}
