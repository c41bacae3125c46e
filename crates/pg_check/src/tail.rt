//! The lines behind the journal: values, signals, and how the run ended.
ghost use Rattle.std.specs.Prelude.{◌≡◌, ◌+◌, ◌<◌, ◌≤◌, ◌++◌, ◌∷◌, [], length, IfSome, IfNone};
ghost use Rattle.pg_report.specs.declared.line.LastLine.{LastLine as Ending};
ghost use Rattle.pg_words.specs.declared.job.ProgramName.{ProgramName as Name};
ghost use Rattle.pg_report.specs.Report.{value_line};
ghost use Rattle.pg_words.specs.Programs.{is_wide};
ghost use Rattle.pg_check.specs.Course.{lines_from, values_from, signals_from, IsTailPlace};

use pg_graph::Graph;
use pg_law::{Datum, State};
use pg_report::{LastLine, ReportLine};
use pg_words::ProgramName;

/// Which line behind the journal is expected next.
#[derive(Clone, Copy, Debug, PartialEq, Eq)]
pub enum TailPlace {
    /// The value of this vertex.
    Value { vertex: u32 },
    /// The message of this vertex, which is signalled.
    Signal { vertex: u32, message: u64 },
    /// How the run ended.
    Last,
    /// None: the report is over.
    End,
}

/// A line and the place behind it.
#[derive(Clone, Copy)]
pub struct Expected {
    pub line: ReportLine,
    pub next: TailPlace,
}

/// The first signal from a vertex on, or the last line.
fn signal_from(graph: &Graph, state: &State, vertex: u32) -> TailPlace
    requires messages { length state.now.messages ≡ length graph.now.ids }
    requires vertex { vertex ≤ length graph.now.ids }
    ensures lines { (name : Name) (last : Ending) →
        lines_from name graph.now state.now last result
        ≡ signals_from graph.now state.now last vertex }
    ensures place { IsTailPlace graph.now result }
{
    for v in vertex..graph.vertices() {
        if let Some(message) = state.messages[v as usize] {
            return TailPlace::Signal { vertex: v, message };
        }
    }
    TailPlace::Last
}

/// The value of a vertex, or the first line behind the values.
pub fn value_from(graph: &Graph, state: &State, vertex: u32) -> TailPlace
    requires values { length state.now.values ≡ length graph.now.ids }
    requires messages { length state.now.messages ≡ length graph.now.ids }
    requires vertex { vertex ≤ length graph.now.ids }
    ensures lines { (name : Name) (last : Ending) →
        lines_from name graph.now state.now last result
        ≡ values_from name graph.now state.now last vertex }
    ensures place { IsTailPlace graph.now result }
{
    if vertex < graph.vertices() {
        TailPlace::Value { vertex }
    } else {
        signal_from(graph, state, 0)
    }
}

/// The line of a value.
fn value_line(wide: bool, id: u32, datum: Datum) -> ReportLine
    ensures { result ≡ value_line wide id datum }
{
    let second = if wide { Some(datum.second()) } else { None };
    let value = datum.first();
    ReportLine::Value { id, value, second }
}

/// The line at a place and the place behind it; None at the end.
pub fn line_at(
    at: TailPlace,
    name: ProgramName,
    graph: &Graph,
    state: &State,
    last: LastLine,
) -> Option<Expected>
    requires values { length state.now.values ≡ length graph.now.ids }
    requires messages { length state.now.messages ≡ length graph.now.ids }
    requires place { IsTailPlace graph.now at }
    ensures lines { IfSome result (λ expected. lines_from name graph.now state.now last at
        ≡ expected.line ∷ lines_from name graph.now state.now last expected.next) }
    ensures place { IfSome result (λ expected. IsTailPlace graph.now expected.next) }
    ensures end { IfNone result (lines_from name graph.now state.now last at ≡ []) }
{
    let _ = graph.vertices();
    match at {
        TailPlace::Value { vertex } => {
            let id = graph.info(vertex).id;
            Some(Expected {
                line: value_line(name.wide(), id, state.values[vertex as usize]),
                next: value_from(graph, state, vertex + 1),
            })
        }
        TailPlace::Signal { vertex, message } => {
            let id = graph.info(vertex).id;
            Some(Expected {
                line: ReportLine::Signal { id, message },
                next: signal_from(graph, state, vertex + 1),
            })
        }
        TailPlace::Last => Some(Expected {
            line: ReportLine::Last { last },
            next: TailPlace::End,
        }),
        TailPlace::End => None,
    }
}
