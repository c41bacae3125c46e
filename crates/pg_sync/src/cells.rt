//! The kept gathers of the masters.
ghost use Rattle.std.specs.Prelude.{◌≡◌, ◌≢◌, ◌<◌, ℕ, length, map, filter, not, cond, All, AllPairs, IfOk, OnOk, IsSome};
ghost use Rattle.pg_law.specs.Configuration.{AreData, AreMessages};
ghost use Rattle.pg_delta.specs.Cell.{cleared};
ghost use Rattle.pg_apply_scatter.specs.Applying.{IsMastered, applied_by, applied_masters};
ghost use Rattle.pg_apply_scatter.specs.Delivering.{cell_in, AreCellsOf};
ghost use Rattle.pg_sync.specs.Cells.{acc_or, keeps, AreFilled, AreSettled};

use pg_delta::CacheCell;
use pg_graph::Graph;
use pg_law::{Applied, Datum, VertexProgram};
use std::alloc::{AllocError, Global};

/// How many cells there are: one for each vertex, or none where no gather is to be kept.
fn places(graph: &Graph, cache: bool) -> u32
    ensures { result ≡ cond cache (length graph.now.ids) 0 }
{
    if cache { graph.vertices() } else { 0 }
}

/// A cell of nothing for each vertex, or no cell where no gather is to be kept.
pub fn cells_of<A: Drop>(
    alloc: Global,
    graph: &Graph,
    cache: bool,
) -> Result<Vec<CacheCell<A>>, AllocError>
    ensures count { IfOk result (λ cells.
        length cells.items ≡ cond cache (length graph.now.ids) 0) }
    ensures cleared { IfOk result (λ cells. All (λ cell. cell ≡ cleared) cells.items) }
{
    let count = places(graph, cache);
    let mut cells = Vec::with_capacity(alloc, count as usize)?;
    for vertex in 0..count {
        cells.push(CacheCell::new())?;
    }
    Ok(cells)
}

/// Settles the cells of these vertices, and answers those whose cell has no gather then.
///
/// There is a cell for each vertex, and the vertices are distinct. `Err` is want of memory.
pub fn settle_all<P: VertexProgram>(
    alloc: Global,
    program: &P,
    cells: &mut [CacheCell<P::Acc>],
    listed: &[u32],
) -> Result<Vec<u32>, AllocError>
    requires apart { AllPairs (λ a b. a ≢ b) listed.now }
    requires vertices { All (λ v. v < length cells.old) listed.now }
    requires cells { AreCellsOf (P.meaning program.now) cells.old }
    ensures wanted { let p = P.meaning program.now in
        IfOk result (λ wanted. wanted.items ≡ filter (λ v. not (keeps p cells.old v)) listed.now) }
    ensures settled { OnOk result
        (AreSettled (P.meaning program.now) listed.now cells.old cells.new) }
    ensures own { OnOk result (AreCellsOf (P.meaning program.now) cells.new) }
{
    let mut wanted = Vec::new(alloc);
    for i in 0..listed.len() {
        let v = listed[i];
        if cells[v as usize].settle(alloc, program)? {
            continue;
        }
        wanted.push(v)?;
    }
    Ok(wanted)
}

/// The cells of these vertices keep their sums.
///
/// There is a cell for each vertex, and the vertices are distinct.
pub fn fill_all<A: Drop>(cells: &mut [CacheCell<A>], sums: Vec<(u32, A)>)
    requires apart { AllPairs (λ a b. a.0 ≢ b.0) sums.items }
    requires vertices { All (λ sum. sum.0 < length cells.old) sums.items }
    ensures { AreFilled sums.items cells.old cells.new }
{
    for entry in sums {
        let (v, sum) = entry;
        cells[v as usize].fill(sum);
    }
}

/// What a signalled vertex becomes by its kept gather.
fn apply_cell<P: VertexProgram>(
    program: &P,
    graph: &Graph,
    values: &[Datum],
    messages: &[Option<u64>],
    v: u32,
    cell: &CacheCell<P::Acc>,
) -> Applied<P::Carry>
    requires values { AreData (P.meaning program.now) graph.now values.now }
    requires messages { AreMessages (P.meaning program.now) graph.now messages.now }
    requires kept { IsSome cell.now.acc }
    requires sum { let p = P.meaning program.now in
        IsMastered p graph.now messages.now (v, acc_or p.empty cell.now.acc) }
    ensures { let p = P.meaning program.now in result ≡
        applied_by p graph.now values.now messages.now (v, acc_or p.empty cell.now.acc) }
{
    match (&cell.acc, messages[v as usize]) {
        (Some(sum), Some(message)) => {
            program.apply(graph.info(v), values[v as usize], sum, message)
        }
        _ => unreachable!(),
    }
}

/// For each listed vertex, in order, what it becomes by its kept gather and its message.
///
/// The cell of each listed vertex has a gather, and each is signalled. `Err` is want of memory.
pub fn apply_cells<P: VertexProgram>(
    alloc: Global,
    program: &P,
    graph: &Graph,
    values: &[Datum],
    messages: &[Option<u64>],
    cells: &[CacheCell<P::Acc>],
    listed: &[u32],
) -> Result<Vec<(u32, Applied<P::Carry>)>, AllocError>
    requires values { AreData (P.meaning program.now) graph.now values.now }
    requires messages { AreMessages (P.meaning program.now) graph.now messages.now }
    requires vertices { All (λ v. v < length cells.now) listed.now }
    requires kept { All (λ v. IsSome (cell_in cells.now v).acc) listed.now }
    requires sums { let p = P.meaning program.now in All (λ v. IsMastered p graph.now messages.now
        (v, acc_or p.empty (cell_in cells.now v).acc)) listed.now }
    ensures { let p = P.meaning program.now in IfOk result (λ applied.
        applied.items ≡ applied_masters p graph.now values.now messages.now
        (map (λ v. (v, acc_or p.empty (cell_in cells.now v).acc)) listed.now)) }
{
    let mut applied = Vec::with_capacity(alloc, listed.len())?;
    for i in 0..listed.len() {
        let v = listed[i];
        let became = apply_cell(program, graph, values, messages, v, &cells[v as usize]);
        applied.push((v, became))?;
    }
    Ok(applied)
}
