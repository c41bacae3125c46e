//! Where the keys of each block of numbers begin among ascending keys, and which they are.
ghost use Rattle.std.specs.Prelude.{◌≡◌, ℕ, ◌<◌, ◌≤◌, ◌^◌, ◌==◌, ◌||◌, length, IfOk};
ghost use Rattle.std.specs.List.Sorted.{IsStrictlyIncreasing};
ghost use Rattle.pg_cut.specs.Directory.{keys_below, blocks_of, directory, AreMasks};
ghost use Rattle.pg_cut.specs.WorkerSet.{has};

use std::alloc::{AllocError, Global};

/// How many numbers a block has: a bit of a `u64` for each, so that the keys of a block below one
/// of its numbers are counted at once.
pub const BLOCK: usize = 64;

/// The blocks up to that of the greatest key.
fn blocks_up_to_last(keys: &[u32]) -> usize
    ensures value { result ≡ blocks_of keys.now }
    ensures few { result ≤ 2 ^ 32 }
{
    match keys.last() {
        Some(last) => *last as usize / BLOCK + 1,
        None => 1,
    }
}

/// The place of the first key that is not below `x`, from a place on before which all are.
fn first_from(keys: &[u32], from: usize, x: usize) -> usize
    requires ascending { IsStrictlyIncreasing keys.now }
    requires before { from ≤ keys_below keys.now x }
    ensures { result ≡ keys_below keys.now x }
{
    let mut place = from;
    while place < keys.len() && (keys[place] as usize) < x {
        place += 1;
    }
    place
}

/// The directory of ascending keys, in one pass over blocks and keys together.
pub fn directory_of(alloc: Global, keys: &[u32]) -> Result<Vec<u32>, AllocError>
    requires ascending { IsStrictlyIncreasing keys.now }
    requires few { length keys.now < 2 ^ 32 }
    ensures { IfOk result (λ starts. starts.items ≡ directory keys.now) }
{
    let blocks = blocks_up_to_last(keys);
    let mut starts = Vec::with_capacity(alloc, blocks + 1)?;
    let mut place = 0;
    for block in 0..blocks + 1 {
        place = first_from(keys, place, block * BLOCK);
        starts.push(place as u32)?;
    }
    Ok(starts)
}

/// The bits of a block with one more.
fn with_bit(mask: u64, bit: u32) -> u64
    requires { bit < 64 }
    ensures { (j : ℕ) → has result j ≡ (has mask j || (j == bit)) }
{
    mask | (1u64 << bit)
}

/// Which numbers of each block are keys, in one pass over the keys.
pub fn masks_of(alloc: Global, keys: &[u32]) -> Result<Vec<u64>, AllocError>
    requires { IsStrictlyIncreasing keys.now }
    ensures { IfOk result (λ masks. AreMasks keys.now masks.items) }
{
    let mut masks = vec![in alloc; 0u64; blocks_up_to_last(keys)]?;
    for i in 0..keys.len() {
        let key = keys[i];
        let block = key as usize / BLOCK;
        let mask = masks[block];
        masks[block] = with_bit(mask, key % BLOCK as u32);
    }
    Ok(masks)
}
