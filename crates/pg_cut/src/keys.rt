//! Ascending numbers, and the search among them.
ghost use Rattle.std.specs.Prelude.{◌≡◌, ℕ, ◌+◌, ◌-◌, ◌*◌, ◌%◌, ◌<◌, ◌≤◌, ◌^◌, ◌↔◌, length, count_ones};
ghost use Rattle.std.specs.Prelude.{slice_index, IfOk, IfSome, IsSome, Contains};
ghost use Rattle.std.specs.List.Sorted.{IsStrictlyIncreasing};
ghost use Rattle.pg_cut.specs.Keys.{IsKeys};
ghost use Rattle.pg_cut.specs.WorkerSet.{has};

use crate::directory::{BLOCK, directory_of, masks_of};
use pg_law::Steps;
use std::alloc::{AllocError, Global};
use std::marker::Model;
use std::sync::ledger::Ledger;

/// Ascending numbers, with a directory by blocks of 64 numbers.
///
/// `starts[b]` is how many keys are below the block `b`, and `starts[b + 1]` how many are below its
/// end. `masks[b]` has a bit for each number of the block `b` that is a key, the lowest for its
/// first. Both take 12 bytes for each 64 numbers up to the greatest key, whether they are keys or
/// not.
#[derive(Drop)]
pub struct Keys {
    numbers: Vec<u32>,
    starts: Vec<u32>,
    masks: Vec<u64>,
}

impl Model for Keys {
    ghost use Rattle.std.specs.Prelude.{ℕ, List};
    ghost use Rattle.pg_cut.specs.Directory.{IsIndexed};

    ghost Value = { List ℕ };

    ghost view = { λ k. k.numbers.items };

    ghost invariant = { λ k. IsIndexed k.numbers.items k.starts.items k.masks.items };
}

/// Whether a number of a block is a key, by its place in the block.
fn is_marked(mask: u64, bit: u32) -> bool
    requires { bit < 64 }
    ensures { result ≡ has mask bit }
{
    (mask >> bit) & 1 == 1
}

/// How many keys a block has below the number at a place of it.
fn rank(mask: u64, bit: u32) -> u32
    requires { bit < 64 }
    ensures value { result ≡ count_ones (mask % 2 ^ bit) }
    ensures few { result ≤ 64 }
{
    (mask % (1u64 << bit)).count_ones()
}

impl Keys {
    /// Takes numbers that ascend, and makes their directory.
    pub fn of(alloc: Global, numbers: Vec<u32>) -> Result<Keys, AllocError>
        requires ascending { IsStrictlyIncreasing numbers.items }
        requires few { length numbers.items < 2 ^ 32 }
        ensures { IfOk result (λ keys. keys ≡ numbers.items) }
    {
        let starts = directory_of(alloc, numbers.as_slice())?;
        let masks = masks_of(alloc, numbers.as_slice())?;
        Ok(Keys {
            numbers,
            starts,
            masks,
        })
    }

    /// How many there are.
    pub fn len(&self) -> u32
        ensures value { result ≡ length self.now }
        ensures keys { IsKeys self.now }
    {
        self.numbers.len() as u32
    }

    /// The key at a place. Each call takes one step.
    pub fn key<L: Ledger>(&self, i: u32, steps: &mut Steps<L>) -> u32
        requires { i < length self.now }
        ensures value { result ≡ slice_index self.now i }
        ensures counted { steps.new ≡ steps.old + 1 }
    {
        steps.tick();
        self.numbers[i as usize]
    }

    /// The place of a key that stands nowhere outside `from..to`, by halving what is left. It reads
    /// keys by `key` alone.
    fn find_between<L: Ledger>(
        &self,
        key: u32,
        from: u32,
        to: u32,
        steps: &mut Steps<L>,
    ) -> Option<u32>
        requires within { to ≤ length self.now }
        requires before { (i : ℕ) → i < from → slice_index self.now i < key }
        requires after { (i : ℕ) → to ≤ i → i < length self.now → key < slice_index self.now i }
        ensures within { IfSome result (λ i. i < length self.now) }
        ensures key { IfSome result (λ i. slice_index self.now i ≡ key) }
        ensures found { IsSome result ↔ Contains self.now key }
        ensures cost { 2 ^ (steps.new - steps.old) ≤ 2 * (to - from) + 1 }
    {
        let _ = self.len();
        let mut low = from;
        let mut high = to;
        while low < high {
            let middle = low + (high - low) / 2;
            let at = self.key(middle, steps);
            if at == key {
                return Some(middle);
            }
            if at < key {
                low = middle + 1;
            } else {
                high = middle;
            }
        }
        None
    }

    /// The place of a key, by halving all keys.
    pub fn find<L: Ledger>(&self, key: u32, steps: &mut Steps<L>) -> Option<u32>
        ensures within { IfSome result (λ i. i < length self.now) }
        ensures key { IfSome result (λ i. slice_index self.now i ≡ key) }
        ensures found { IsSome result ↔ Contains self.now key }
        ensures cost { 2 ^ (steps.new - steps.old) ≤ 2 * length self.now + 1 }
    {
        self.find_between(key, 0, self.len(), steps)
    }

    /// The place of a key: the keys below its block, and those of the block below it, which are
    /// counted by their bits. No key is read, and nothing is searched.
    pub fn place(&self, key: u32) -> Option<u32>
        ensures within { IfSome result (λ i. i < length self.now) }
        ensures key { IfSome result (λ i. slice_index self.now i ≡ key) }
        ensures found { IsSome result ↔ Contains self.now key }
    {
        let block = key as usize / BLOCK;
        if block >= self.masks.len() {
            return None;
        }
        let mask = self.masks[block];
        let bit = key % BLOCK as u32;
        if is_marked(mask, bit) {
            let start = self.starts[block];
            Some(start + rank(mask, bit))
        } else {
            None
        }
    }
}
