//! How many gathers a last line has to tell.
ghost use Rattle.std.specs.Prelude.{◌≡◌, ℕ, true, false, [], length, slice_index_or, IfOk};
ghost use Rattle.pg_check.specs.Course.{told_gathers};
ghost use Rattle.pg_check.specs.Verdicts.{counts_once};

use pg_graph::Graph;
use pg_law::VertexProgram;
use pg_serial::noted_gathers;
use pg_words::RunJob;
use std::alloc::{AllocError, Global};

/// Whether the report of a job counts each vertex once: the job keeps gathers, of a program whose
/// scatters tell how a gather changes.
pub fn counts_once(job: &RunJob) -> bool
    ensures { result ≡ counts_once job.now }
{
    job.program.keeps_gathers() && job.cache
}

/// Marks of which none is set, one for each vertex, where each counts once.
pub fn blank_marks(alloc: Global, graph: &Graph, kept: bool) -> Result<Vec<bool>, AllocError>
    ensures blank { IfOk result (λ noted. (v : ℕ) → slice_index_or noted.items v false ≡ false) }
    ensures len { IfOk result (λ noted. kept ≡ true
        → length noted.items ≡ length graph.now.ids) }
{
    if kept {
        vec![in alloc; false; graph.vertices() as usize]
    } else {
        Ok(Vec::new(alloc))
    }
}

/// How many gathers a last line tells: those that were made, or where gathers are kept those of the
/// noted vertices.
pub fn told<P: VertexProgram>(
    program: &P,
    graph: &Graph,
    kept: bool,
    noted: &[bool],
    gathers: u64,
) -> u64
    requires { kept ≡ true → length noted.now ≡ length graph.now.ids }
    ensures { result
        ≡ told_gathers (P.meaning program.now) graph.now kept noted.now gathers [] }
{
    if kept {
        noted_gathers(graph, program.gather_edges(), noted)
    } else {
        gathers
    }
}
