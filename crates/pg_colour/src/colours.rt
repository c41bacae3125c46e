//! Sets of colours.
ghost use Rattle.std.specs.Prelude.{◌≡◌, ℕ, ◌<◌, true, false, [], ◌∷◌};
ghost use Rattle.std.specs.Prelude.{IfOk, OnOk, OnErr, IsOk};
ghost use Rattle.pg_colour.specs.Colours.{AreColours, ContainsAll, has, with_colour, union};
ghost use Rattle.pg_colour.specs.Colours.{gap_from, least_free as least_free_of};

use std::alloc::{AllocError, Global};
use std::marker::Model;
use std::slice;

/// A set of colours, as an ascending list without repeats.
///
/// A single colour stands in `only` and takes no memory, so that a neighbour that is gathered takes
/// none. Two colours or more stand in `items`.
#[derive(Drop)]
pub struct Colours {
    only: Option<u64>,
    items: Vec<u64>,
}

impl Model for Colours {
    ghost use Rattle.std.specs.Prelude.{ℕ, List};
    ghost use Rattle.pg_colour.specs.Colours.{colours_of};

    ghost Value = { List ℕ };

    ghost view = { λ c. colours_of c.only c.items.items };
}

impl Colours {
    /// No colour.
    pub fn new(alloc: Global) -> Colours
        ensures { result ≡ [] }
    {
        Colours {
            only: None,
            items: Vec::new(alloc),
        }
    }

    /// One colour. It takes no memory.
    pub fn one(alloc: Global, colour: u64) -> Colours
        ensures { result ≡ colour ∷ [] }
    {
        Colours {
            only: Some(colour),
            items: Vec::new(alloc),
        }
    }

    /// The same colours in a list of their own.
    pub fn copy(&self) -> Result<Colours, AllocError>
        ensures { IfOk result (λ colours. colours ≡ self.now) }
    {
        Ok(Colours {
            only: self.only,
            items: self.items.clone()?,
        })
    }

    /// The colours in ascending order.
    fn as_slice(&self) -> &[u64]
        ensures { result.now ≡ self.now }
    {
        match &self.only {
            Some(only) => slice::from_ref(only),
            None => self.items.as_slice(),
        }
    }

    pub fn contains(&self, colour: u64) -> bool
        requires { AreColours self.now }
        ensures { result ≡ has self.now colour }
    {
        self.as_slice().binary_search(&colour).is_ok()
    }

    /// Adds a colour. One that is there already takes no memory, and neither does the first.
    pub fn add(&mut self, colour: u64) -> Result<(), AllocError>
        requires { AreColours self.old }
        ensures ok { OnOk result (self.new ≡ with_colour self.old colour) }
        ensures err { OnErr result (self.new ≡ self.old) }
        ensures known { has self.old colour ≡ true → IsOk result }
    {
        match self.only {
            None if self.items.is_empty() => {
                self.only = Some(colour);
                Ok(())
            }
            None => insert(&mut self.items, colour),
            Some(only) if only == colour => Ok(()),
            Some(only) => {
                self.items.clear();
                self.items.reserve(2)?;
                self.items.push_reserved(only.min(colour));
                self.items.push_reserved(only.max(colour));
                self.only = None;
                Ok(())
            }
        }
    }

    /// Adds the colours of another set. Where all are there already it takes no memory; after want
    /// of memory some of them may be in.
    pub fn add_all(&mut self, other: &Colours) -> Result<(), AllocError>
        requires own { AreColours self.old }
        requires other { AreColours other.now }
        ensures ok { OnOk result (self.new ≡ union self.old other.now) }
        ensures known { ContainsAll self.old other.now → IsOk result }
    {
        for &colour in other.as_slice() {
            self.add(colour)?;
        }
        Ok(())
    }

    /// The least number that is no colour here.
    pub fn least_free(&self) -> u64
        requires { AreColours self.now }
        ensures value { result ≡ least_free_of self.now }
        ensures free { has self.now result ≡ false }
        ensures least { (colour : ℕ) → colour < result → has self.now colour ≡ true }
    {
        first_gap(self.as_slice())
    }
}

/// Inserts a colour at its place, unless it is there.
fn insert(colours: &mut Vec<u64>, colour: u64) -> Result<(), AllocError>
    requires { AreColours colours.old.items }
    ensures ok { OnOk result (colours.new.items ≡ with_colour colours.old.items colour) }
    ensures err { OnErr result (colours.new.items ≡ colours.old.items) }
    ensures known { has colours.old.items colour ≡ true → IsOk result }
{
    if let Err(at) = colours.binary_search(&colour) {
        colours.insert(at, colour)?;
    }
    Ok(())
}

/// The least number that isn't in an ascending list without repeats.
fn first_gap(colours: &[u64]) -> u64
    requires { AreColours colours.now }
    ensures { result ≡ gap_from 0 colours.now }
{
    let mut free = 0;
    for &colour in colours {
        if colour != free {
            return free;
        }
        free += 1;
    }
    free
}
