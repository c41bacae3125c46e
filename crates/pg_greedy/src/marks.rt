//! Marks at the ends of an edge: what is set for it, and what is taken back.
ghost use Rattle.std.specs.Prelude.{◌≡◌, ◌≢◌, ℕ, ◌+◌, ◌-◌, ◌<◌, ◌≤◌, ◌^◌, ◌==◌, ◌||◌, ◌&&◌};
ghost use Rattle.std.specs.Prelude.{length, slice_index, replicate, if◌then◌else◌};
ghost use Rattle.pg_graph.specs.Multigraph.{is_at};
ghost use Rattle.pg_cut.specs.WorkerSet.{has};

use pg_cut::with_worker;
use pg_graph::Edge;

/// The worker joins the sets of both ends.
pub fn join(sets: &mut Vec<u64>, edge: Edge, worker: u8)
    requires src { edge.src < length sets.old.items }
    requires dst { edge.dst < length sets.old.items }
    requires worker { worker < 64 }
    ensures len { length sets.new.items ≡ length sets.old.items }
    ensures each { (v w : ℕ) → v < length sets.old.items →
        has (slice_index sets.new.items v) w ≡
        (has (slice_index sets.old.items v) w || (is_at v edge && (w == worker))) }
{
    let src = edge.src as usize;
    sets[src] = with_worker(sets[src], worker);
    let dst = edge.dst as usize;
    sets[dst] = with_worker(sets[dst], worker);
}

/// One more edge at both ends.
pub fn count_ends(placed: &mut Vec<u32>, edge: Edge)
    requires src { edge.src < length placed.old.items }
    requires dst { edge.dst < length placed.old.items }
    requires apart { edge.src ≢ edge.dst }
    requires few { (v : ℕ) → v < length placed.old.items →
        slice_index placed.old.items v + 1 < 2 ^ 32 }
    ensures len { length placed.new.items ≡ length placed.old.items }
    ensures each { (v : ℕ) → v < length placed.old.items →
        slice_index placed.new.items v ≡
        slice_index placed.old.items v + (if is_at v edge then 1 else 0) }
{
    placed[edge.src as usize] += 1;
    placed[edge.dst as usize] += 1;
}

/// One more edge on a worker.
pub fn count_load(loads: &mut Vec<u32>, worker: u8)
    requires worker { worker < length loads.old.items }
    requires few { (w : ℕ) → w < length loads.old.items →
        slice_index loads.old.items w + 1 < 2 ^ 32 }
    ensures len { length loads.new.items ≡ length loads.old.items }
    ensures each { (w : ℕ) → w < length loads.old.items →
        slice_index loads.new.items w ≡
        slice_index loads.old.items w + (if w == worker then 1 else 0) }
{
    loads[worker as usize] += 1;
}

/// The sets of both ends are these.
pub fn set_ends(sets: &mut Vec<u64>, edge: Edge, us: u64, vs: u64)
    requires src { edge.src < length sets.old.items }
    requires dst { edge.dst < length sets.old.items }
    requires apart { edge.src ≢ edge.dst }
    ensures len { length sets.new.items ≡ length sets.old.items }
    ensures each { (v : ℕ) → v < length sets.old.items → slice_index sets.new.items v ≡
        (if edge.src == v then us
        else if edge.dst == v then vs else slice_index sets.old.items v) }
{
    sets[edge.src as usize] = us;
    sets[edge.dst as usize] = vs;
}

/// One edge less at both ends.
pub fn uncount_ends(placed: &mut Vec<u32>, edge: Edge)
    requires src { edge.src < length placed.old.items }
    requires dst { edge.dst < length placed.old.items }
    requires apart { edge.src ≢ edge.dst }
    requires at_src { 0 < slice_index placed.old.items edge.src }
    requires at_dst { 0 < slice_index placed.old.items edge.dst }
    ensures len { length placed.new.items ≡ length placed.old.items }
    ensures each { (v : ℕ) → v < length placed.old.items →
        slice_index placed.new.items v ≡
        slice_index placed.old.items v - (if is_at v edge then 1 else 0) }
{
    placed[edge.src as usize] -= 1;
    placed[edge.dst as usize] -= 1;
}

/// One edge less on a worker.
pub fn uncount_load(loads: &mut Vec<u32>, worker: u8)
    requires worker { worker < length loads.old.items }
    requires some { 0 < slice_index loads.old.items worker }
    ensures len { length loads.new.items ≡ length loads.old.items }
    ensures each { (w : ℕ) → w < length loads.old.items →
        slice_index loads.new.items w ≡
        slice_index loads.old.items w - (if w == worker then 1 else 0) }
{
    loads[worker as usize] -= 1;
}

/// No vertex has a worker.
pub fn clear_sets(sets: &mut Vec<u64>)
    ensures { sets.new.items ≡ replicate (length sets.old.items) 0 }
{
    for v in 0..sets.len() {
        sets[v] = 0;
    }
}

/// Nothing is counted.
pub fn clear_counts(counts: &mut Vec<u32>)
    ensures { counts.new.items ≡ replicate (length counts.old.items) 0 }
{
    for i in 0..counts.len() {
        counts[i] = 0;
    }
}
