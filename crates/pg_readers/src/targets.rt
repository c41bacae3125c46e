//! The targets of a star.

use crate::tokens::next_number;
use std::marker::Model;

/// The numbers of a line's last tokens, in order. They are read from the line as they are taken.
#[derive(Drop)]
pub struct Targets<'a> {
    rest: &'a [u8],
}

impl<'a> Model for Targets<'a> {
    ghost use Rattle.std.specs.Prelude.{ℕ, List, [], IsSome, unwrap_or};
    ghost use Rattle.pg_readers.specs.Tokens.{numbers, all_numbers};

    ghost Value = { List ℕ };

    ghost view = { λ t. unwrap_or (all_numbers (numbers t.rest.now)) [] };

    ghost invariant = { λ t. IsSome (all_numbers (numbers t.rest.now)) };
}

impl<'a> Targets<'a> {
    ghost use Rattle.std.specs.Prelude.{◌≡◌, Some, IsSome};
    ghost use Rattle.pg_readers.specs.Tokens.{numbers, all_numbers};

    /// The tokens of these bytes, all of them numbers.
    pub fn new(rest: &'a [u8]) -> Targets<'a>
        requires { IsSome (all_numbers (numbers rest.now)) }
        ensures { all_numbers (numbers rest.now) ≡ Some result }
    {
        Targets { rest }
    }
}

impl<'a> Iterator for Targets<'a> {
    ghost use Rattle.std.specs.Iterator.{YieldsFirst, item_count};

    type Item = u32;

    ghost next_gives = { YieldsFirst (λ s. s) };

    ghost remaining = { item_count (λ s. s) };

    fn next(&mut self) -> Option<u32> {
        let (number, rest) = next_number(self.rest)?;
        self.rest = rest;
        number
    }
}
