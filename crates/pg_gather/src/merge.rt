//! The sums of all workers, merged.
ghost use Rattle.std.specs.Prelude.{◌≡◌, ◌≢◌, ℕ, ◌<◌, ◌≤◌, length, slice_index, slice_set, map};
ghost use Rattle.std.specs.Prelude.{All, AllPairs, IfOk, OnOk, IfSome, IsNone};
ghost use Rattle.pg_cut.specs.ByWorker.{lists_in};
ghost use Rattle.pg_gather.specs.Merging.{AreParts, sum_at, with_list, merged};

use pg_law::{VertexProgram, laws_of};
use std::alloc::{AllocError, Global};
use std::mem::replace;

/// Where a vertex stands among these from one place to another.
fn place_between(wanted: &[u32], from: usize, to: usize, v: u32) -> Option<usize>
    requires { to ≤ length wanted.now }
    ensures within { IfSome result (λ k. k < length wanted.now) }
    ensures found { IfSome result (λ k. slice_index wanted.now k ≡ v) }
    ensures none { IsNone result → (k : ℕ) → from ≤ k → k < to → slice_index wanted.now k ≢ v }
{
    for k in from..to {
        if wanted[k] == v {
            return Some(k);
        }
    }
    None
}

/// Where a vertex stands. It is looked for from a place on, and then from the first on, so that all
/// parts of a list in the order of the wanted vertices are found in one pass over these.
fn place_near(wanted: &[u32], from: usize, v: u32) -> Option<usize>
    ensures within { IfSome result (λ k. k < length wanted.now) }
    ensures found { IfSome result (λ k. slice_index wanted.now k ≡ v) }
    ensures none { IsNone result → (k : ℕ) → k < length wanted.now → slice_index wanted.now k ≢ v }
{
    let count = wanted.len();
    match place_between(wanted, from, count, v) {
        Some(k) => Some(k),
        None => place_between(wanted, 0, count.min(from), v),
    }
}

/// The sum at a place, and a part.
fn add_at<P: VertexProgram>(
    alloc: Global,
    program: &P,
    sums: &mut [(u32, P::Acc)],
    k: usize,
    part: &P::Acc,
) -> Result<(), AllocError>
    requires k { k < length sums.old }
    requires sums { AreParts (P.meaning program.now) sums.old }
    requires part { (P.meaning program.now).IsAcc part.now }
    ensures { let p = P.meaning program.now in OnOk result (let sum = sum_at p sums.old k in
        sums.new ≡ slice_set sums.old k (sum.0, p.sum sum.1 part.now)) }
{
    laws_of(program);
    let empty = program.empty(alloc)?;
    let sum = &mut sums[k];
    let old = replace(&mut sum.1, empty);
    sum.1 = program.sum(alloc, old, part)?;
    Ok(())
}

/// The sums of the wanted vertices, and their parts in one list.
fn add_list<P: VertexProgram>(
    alloc: Global,
    program: &P,
    wanted: &[u32],
    sums: &mut [(u32, P::Acc)],
    parts: &[(u32, P::Acc)],
) -> Result<(), AllocError>
    requires apart { AllPairs (λ a b. a ≢ b) wanted.now }
    requires vertices { map (λ sum. sum.0) sums.old ≡ wanted.now }
    requires sums { AreParts (P.meaning program.now) sums.old }
    requires parts { AreParts (P.meaning program.now) parts.now }
    ensures sums { let p = P.meaning program.now in
        OnOk result (sums.new ≡ with_list p sums.old parts.now) }
    ensures own { OnOk result (AreParts (P.meaning program.now) sums.new) }
{
    laws_of(program);
    let mut from = 0;
    for i in 0..parts.len() {
        let (v, part) = &parts[i];
        if let Some(k) = place_near(wanted, from, *v) {
            add_at(alloc, program, sums, k, part)?;
            from = k;
        }
    }
    Ok(())
}

/// An empty sum for each vertex.
fn empty_sums<P: VertexProgram>(
    alloc: Global,
    program: &P,
    wanted: &[u32],
) -> Result<Vec<(u32, P::Acc)>, AllocError>
    ensures { IfOk result (λ sums.
        sums.items ≡ map (λ u. (u, (P.meaning program.now).empty)) wanted.now) }
{
    let mut sums = Vec::with_capacity(alloc, wanted.len())?;
    for u in wanted {
        sums.push((*u, program.empty(alloc)?))?;
    }
    Ok(sums)
}

/// For each wanted vertex, in order, the sum of its parts in all lists. `Err` is want of memory.
///
/// `parts[w]` is what the worker `w` summed. The wanted vertices are distinct.
pub fn merge_at_masters<P: VertexProgram>(
    alloc: Global,
    program: &P,
    wanted: &[u32],
    parts: Vec<Vec<(u32, P::Acc)>>,
) -> Result<Vec<(u32, P::Acc)>, AllocError>
    requires apart { AllPairs (λ a b. a ≢ b) wanted.now }
    requires parts { All (AreParts (P.meaning program.now)) (lists_in parts.items) }
    ensures { let p = P.meaning program.now in
        IfOk result (λ sums. sums.items ≡ merged p wanted.now (lists_in parts.items)) }
{
    laws_of(program);
    let mut sums = empty_sums(alloc, program, wanted)?;
    for i in 0..parts.len() {
        let list = parts[i].as_slice();
        add_list(alloc, program, wanted, sums.as_mut_slice(), list)?;
    }
    Ok(sums)
}
