//! The text of a cut, written.
ghost use Rattle.std.specs.Prelude.{◌≡◌, ◌<◌};
ghost use Rattle.pg_base.specs.Writing.{Writes};
ghost use Rattle.pg_cut.specs.Cut.{IsCutOf};
ghost use Rattle.pg_main.specs.CutTexts.{cut_head, worker_line, workers_text, cases_text, replicas_line, cut_text};
ghost use Rattle.pg_main.specs.CutTexts.{kind_word as word_of};

use crate::cut::Divided;
use crate::tell::write_parts;
use itoa::Buffer;
use pg_base::{Failed, Sink};
use pg_cut::Cut;
use pg_graph::Graph;
use pg_report::write_counts;
use pg_words::CutKind;

/// Writes what a cut costs, or a front of that where the sink fails.
pub fn write_cut<K: Sink>(
    out: &mut K,
    kind: CutKind,
    graph: &Graph,
    made: &Divided,
) -> Result<(), Failed>
    requires { IsCutOf graph.now made.now.cut }
    ensures { Writes (K.written out.old) (K.written out.new) (K.faults out.old) (K.faults out.new)
        (cut_text kind graph.now made.now.cut made.now.cases) result }
{
    write_cut_head(out, kind, made.cut.workers())?;
    write_counts(out, graph)?;
    write_workers(out, &made.cut)?;
    write_cases(out, made.cases)?;
    write_replicas(out, &made.cut)
}

/// Writes the header.
fn write_cut_head<K: Sink>(out: &mut K, kind: CutKind, workers: u8) -> Result<(), Failed>
    ensures { Writes (K.written out.old) (K.written out.new) (K.faults out.old) (K.faults out.new)
        (cut_head kind workers) result }
{
    write_parts(
        out,
        &[
            b"# pgcut 1 ",
            kind_word(kind),
            b" workers ",
            Buffer::new().format(workers).as_bytes(),
            b"\n",
        ],
    )
}

/// The word of a kind of cut.
fn kind_word(kind: CutKind) -> &'static [u8]
    ensures { result.now ≡ word_of kind }
{
    match kind {
        CutKind::Random { .. } => b"random",
        CutKind::Oblivious => b"oblivious",
        CutKind::Coordinated => b"coordinated",
    }
}

/// Writes a line for each worker.
fn write_workers<K: Sink>(out: &mut K, cut: &Cut) -> Result<(), Failed>
    ensures { Writes (K.written out.old) (K.written out.new) (K.faults out.old) (K.faults out.new)
        (workers_text cut.now) result }
{
    for worker in 0..cut.workers() {
        write_worker(out, cut, worker)?;
    }
    Ok(())
}

/// Writes the edges and the replicas of a worker.
fn write_worker<K: Sink>(out: &mut K, cut: &Cut, worker: u8) -> Result<(), Failed>
    requires { worker < cut.now.workers }
    ensures { Writes (K.written out.old) (K.written out.new) (K.faults out.old) (K.faults out.new)
        (worker_line cut.now worker) result }
{
    write_parts(
        out,
        &[
            b"worker ",
            Buffer::new().format(worker).as_bytes(),
            b" edges ",
            Buffer::new().format(cut.load(worker)).as_bytes(),
            b" replicas ",
            Buffer::new().format(cut.held(worker)).as_bytes(),
            b"\n",
        ],
    )
}

/// Writes how many edges went by each case of a greedy cut, and of another cut nothing.
fn write_cases<K: Sink>(out: &mut K, cases: Option<[u64; 4]>) -> Result<(), Failed>
    ensures { Writes (K.written out.old) (K.written out.new) (K.faults out.old) (K.faults out.new)
        (cases_text cases) result }
{
    match cases {
        None => write_parts(out, &[]),
        Some(counts) => write_parts(
            out,
            &[
                b"cases ",
                Buffer::new().format(counts[0]).as_bytes(),
                b" ",
                Buffer::new().format(counts[1]).as_bytes(),
                b" ",
                Buffer::new().format(counts[2]).as_bytes(),
                b" ",
                Buffer::new().format(counts[3]).as_bytes(),
                b"\n",
            ],
        ),
    }
}

/// Writes how many replicas all workers have.
fn write_replicas<K: Sink>(out: &mut K, cut: &Cut) -> Result<(), Failed>
    ensures { Writes (K.written out.old) (K.written out.new) (K.faults out.old) (K.faults out.new)
        (replicas_line cut.now) result }
{
    write_parts(
        out,
        &[
            b"replicas ",
            Buffer::new().format(cut.replicas()).as_bytes(),
            b"\n",
        ],
    )
}
