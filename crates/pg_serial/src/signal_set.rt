//! The signalled vertices of a run.
ghost use Rattle.std.specs.Prelude.{◌≡◌, ℕ, ◌<◌, ◌≤◌, ◌*◌, ◌^◌, ◌||◌, ◌==◌, true, false, length};
ghost use Rattle.std.specs.Prelude.{replicate, IfOk, if◌then◌else◌};
ghost use Rattle.pg_serial.specs.Bits.{has, IsLeastOf};

use crate::bits::{add, first_taken, least_in, take_out};
use std::alloc::{AllocError, Global};
use std::marker::Model;

/// A set of vertices which finds its least one in a few steps, and takes no memory once it is made.
///
/// `bits` has a bit for each vertex, in words of 64, the lowest first. `groups` has a bit for each
/// word of `bits`, and `blocks` one for each word of `groups`: it is set where that word isn't 0.
/// `blocks` has a word for each 2^18 vertices, and is gone over from its front.
#[derive(Drop)]
pub struct SignalSet {
    bits: Vec<u64>,
    groups: Vec<u64>,
    blocks: Vec<u64>,
}

impl Model for SignalSet {
    ghost use Rattle.std.specs.Prelude.{ℕ, ◌≤◌, ◌^◌, List, length};
    ghost use Rattle.pg_serial.specs.Bits.{AreSummaries};

    ghost Value = { List ℕ };

    ghost view = { λ s. s.bits.items };

    ghost invariant = { λ s. AreSummaries s.bits.items s.groups.items s.blocks.items };
}

/// So many words 0.
fn zeros(alloc: Global, count: usize) -> Result<Vec<u64>, AllocError>
    ensures { IfOk result (λ words. words.items ≡ replicate count 0) }
{
    vec![in alloc; 0; count]
}

impl SignalSet {
    /// A set with room for so many vertices, and none in it.
    pub fn new(alloc: Global, vertices: u32) -> Result<SignalSet, AllocError>
        requires { vertices ≤ 2 ^ 22 }
        ensures room { IfOk result (λ set. vertices ≤ 64 * length set) }
        ensures none { IfOk result (λ set. (v : ℕ) → has set v ≡ false) }
    {
        let count = vertices as usize / 64 + 1;
        let bits = zeros(alloc, count)?;
        let groups = zeros(alloc, count / 64 + 1)?;
        let blocks = zeros(alloc, count / 4096 + 1)?;
        Ok(SignalSet {
            bits,
            groups,
            blocks,
        })
    }

    /// Adds a vertex.
    pub fn insert(&mut self, v: u32)
        requires { v < 64 * length self.old }
        ensures has { (i : ℕ) → has self.new i ≡ (has self.old i || (i == v)) }
        ensures room { length self.new ≡ length self.old }
    {
        add(self.bits.as_mut_slice(), v);
        add(self.groups.as_mut_slice(), v / 64);
        add(self.blocks.as_mut_slice(), v / 4096);
    }

    /// Takes out a vertex that is in it.
    pub fn remove(&mut self, v: u32)
        requires { has self.old v ≡ true }
        ensures has { (i : ℕ) → has self.new i ≡ (if i == v then false else has self.old i) }
        ensures room { length self.new ≡ length self.old }
    {
        if take_out(self.bits.as_mut_slice(), v) {
            return;
        }
        if take_out(self.groups.as_mut_slice(), v / 64) {
            return;
        }
        take_out(self.blocks.as_mut_slice(), v / 4096);
    }

    /// The least vertex.
    pub fn least(&self) -> Option<u32>
        ensures { IsLeastOf (has self.now) result }
    {
        match first_taken(self.blocks.as_slice()) {
            None => None,
            Some(block) => {
                let group = least_in(self.blocks.as_slice(), block);
                let word = least_in(self.groups.as_slice(), group);
                Some(least_in(self.bits.as_slice(), word))
            }
        }
    }
}
