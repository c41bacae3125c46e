//! A line as the entry of an execution.
ghost use Rattle.std.specs.Prelude.{◌≡◌, ◌<◌, ◌≤◌, ℕ, Bool, Some, length, slice_index, IfSome, IfOk};
ghost use Rattle.pg_base.specs.Shown.{shown};
ghost use Rattle.pg_law.specs.Configuration.{IsFit};
ghost use Rattle.pg_law.specs.declared.values.JournalEntry.{JournalEntry as Execution};
ghost use Rattle.pg_report.specs.Lines.{line_text};
ghost use Rattle.pg_check.specs.Course.{IsFound};
ghost use Rattle.pg_check.specs.Reports.{entry_row};

use crate::compare::is_line;
use pg_base::RawLine;
use pg_graph::Graph;
use pg_journal::{behind, number_at};
use pg_law::{Datum, State, Steps, VertexProgram};
use pg_report::ReportLine;
use pg_serial::{Sent, execute_signalled};
use pg_words::ProgramName;
use std::alloc::{AllocError, Global};
use std::sync::ledger::Ledger;

/// What a line is in a journal.
#[derive(Clone, Copy, Debug, PartialEq, Eq)]
pub enum Found {
    /// The entry of an execution of this vertex, which gathered so often.
    Entry { vertex: u32, gathers: u64 },
    /// An entry of a signalled vertex, but not that of its execution.
    WrongEntry,
    /// No entry of a signalled vertex.
    Other,
}

/// The vertex whose id stands behind the mark of an entry.
fn vertex_named(graph: &Graph, line: &[u8]) -> Option<u32>
    ensures within { IfSome result (λ u. u < length graph.now.ids) }
    ensures only { (wide : Bool) (entry : Execution) → entry.vertex < length graph.now.ids →
        line.now ≡ line_text (entry_row wide graph.now entry) → result ≡ Some entry.vertex }
{
    let _ = graph.vertices();
    let (id, _) = number_at(behind(line, b"@")?, u32::MAX as u64)?;
    graph.number_of(id as u32)
}

/// The line of an entry.
fn entry_line(wide: bool, graph: &Graph, vertex: u32, datum: Datum) -> ReportLine
    requires { vertex < length graph.now.ids }
    ensures { result ≡ entry_row wide graph.now (record { vertex = vertex; datum = datum }) }
{
    let second = if wide { Some(datum.second()) } else { None };
    ReportLine::Entry {
        id: graph.info(vertex).id,
        value: datum.first(),
        second,
    }
}

/// Executes the vertex of an entry, where it is signalled, and says whether the line is its entry.
///
/// The state is as before where the line is no entry of a signalled vertex.
fn execute_line<P: VertexProgram, L: Ledger>(
    alloc: Global,
    program: &P,
    name: ProgramName,
    graph: &Graph,
    state: &mut State,
    line: RawLine<'_>,
    left: u32,
    sents: &mut Vec<Sent>,
    steps: &mut Steps<L>,
) -> Result<Found, AllocError>
    requires fit { IsFit (P.meaning program.now) graph.now state.old }
    requires left { 0 < left }
    ensures found { IfOk result (IsFound (P.meaning program.now) name graph.now
        state.old state.new steps.old steps.new left (shown (Some line.entry))) }
    ensures fit { IsFit (P.meaning program.now) graph.now state.new }
{
    let Some(u) = vertex_named(graph, line.bytes) else {
        return Ok(Found::Other);
    };
    let Some(message) = state.messages[u as usize] else {
        return Ok(Found::Other);
    };
    let gathers = execute_signalled(alloc, program, graph, state, u, message, sents, steps)?;
    let datum = state.values[u as usize];
    if is_line(line, entry_line(name.wide(), graph, u, datum)) {
        Ok(Found::Entry { vertex: u, gathers })
    } else {
        Ok(Found::WrongEntry)
    }
}

/// The same of a line that may be missing, and with so much fuel left.
pub fn find_entry<P: VertexProgram, L: Ledger>(
    alloc: Global,
    program: &P,
    name: ProgramName,
    graph: &Graph,
    state: &mut State,
    line: Option<RawLine<'_>>,
    left: u32,
    sents: &mut Vec<Sent>,
    steps: &mut Steps<L>,
) -> Result<Found, AllocError>
    requires fit { IsFit (P.meaning program.now) graph.now state.old }
    ensures found { IfOk result (IsFound (P.meaning program.now) name graph.now
        state.old state.new steps.old steps.new left (shown line.entry)) }
    ensures fit { IsFit (P.meaning program.now) graph.now state.new }
{
    match line {
        Some(line) if left > 0 => {
            execute_line(alloc, program, name, graph, state, line, left, sents, steps)
        }
        _ => Ok(Found::Other),
    }
}
