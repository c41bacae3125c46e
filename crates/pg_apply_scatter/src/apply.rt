//! What the masters apply.
ghost use Rattle.std.specs.Prelude.{◌≡◌, ◌<◌, Some, length, All, IfOk, ℕ};
ghost use Rattle.pg_law.specs.Configuration.{AreData, AreMessages, message_in};
ghost use Rattle.pg_apply_scatter.specs.Applying.{IsMastered, applied_by, applied_masters};

use pg_graph::Graph;
use pg_law::{Applied, Datum, VertexProgram};
use std::alloc::{AllocError, Global};

/// What a signalled vertex becomes by its sum.
fn apply_at<P: VertexProgram>(
    program: &P,
    graph: &Graph,
    values: &[Datum],
    messages: &[Option<u64>],
    v: u32,
    sum: &P::Acc,
) -> Applied<P::Carry>
    requires values { AreData (P.meaning program.now) graph.now values.now }
    requires messages { AreMessages (P.meaning program.now) graph.now messages.now }
    requires sum { IsMastered (P.meaning program.now) graph.now messages.now (v, sum.now) }
    ensures { result ≡
        applied_by (P.meaning program.now) graph.now values.now messages.now (v, sum.now) }
{
    match messages[v as usize] {
        Some(message) => program.apply(graph.info(v), values[v as usize], sum, message),
        None => unreachable!(),
    }
}

/// For each listed vertex, in order, what it becomes by its sum and its message.
///
/// `sums` has the gather of each listed vertex, and each is signalled. `Err` is want of memory.
pub fn apply_masters<P: VertexProgram>(
    alloc: Global,
    program: &P,
    graph: &Graph,
    values: &[Datum],
    messages: &[Option<u64>],
    sums: &[(u32, P::Acc)],
) -> Result<Vec<(u32, Applied<P::Carry>)>, AllocError>
    requires values { AreData (P.meaning program.now) graph.now values.now }
    requires messages { AreMessages (P.meaning program.now) graph.now messages.now }
    requires sums { All (IsMastered (P.meaning program.now) graph.now messages.now) sums.now }
    ensures { let p = P.meaning program.now in IfOk result (λ applied.
        applied.items ≡ applied_masters p graph.now values.now messages.now sums.now) }
{
    let mut applied = Vec::with_capacity(alloc, sums.len())?;
    for i in 0..sums.len() {
        let (v, sum) = &sums[i];
        let became = apply_at(program, graph, values, messages, *v, sum);
        applied.push((*v, became))?;
    }
    Ok(applied)
}
