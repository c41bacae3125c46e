//! The report of a run, written.
ghost use Rattle.std.specs.Prelude.{◌≡◌, length};
ghost use Rattle.pg_base.specs.Writing.{Writes};
ghost use Rattle.pg_report.specs.Report.{ended, counts_line, head_text, value_line, values_text};
ghost use Rattle.pg_report.specs.Report.{message_text, signals_text, tail_text};

use crate::line::{LastLine, ReportLine};
use crate::put::put_ended;
use pg_base::{Failed, Sink, write_whole};
use pg_graph::Graph;
use pg_law::{Datum, State};
use pg_words::{EngineName, ProgramName};

/// Writes the header and the counts of the graph, or a front of them where the sink fails. The
/// journal of an `async` run follows, and then the tail.
pub fn write_head<K: Sink>(
    sink: &mut K,
    engine: EngineName,
    program: ProgramName,
    graph: &Graph,
) -> Result<(), Failed>
    ensures { Writes (K.written sink.old) (K.written sink.new) (K.faults sink.old)
        (K.faults sink.new) (head_text engine program graph.now) result }
{
    write_line(sink, ReportLine::Head { engine, program })?;
    write_counts(sink, graph)
}

/// Writes the values, the signals and the last line, or a front of them where the sink fails.
pub fn write_tail<K: Sink>(
    sink: &mut K,
    program: ProgramName,
    graph: &Graph,
    state: &State,
    last: LastLine,
) -> Result<(), Failed>
    requires values { length state.now.values ≡ length graph.now.ids }
    requires messages { length state.now.messages ≡ length graph.now.ids }
    ensures { Writes (K.written sink.old) (K.written sink.new) (K.faults sink.old)
        (K.faults sink.new) (tail_text program graph.now state.now last) result }
{
    write_values(sink, program.wide(), graph, state)?;
    write_signals(sink, graph, state)?;
    write_line(sink, ReportLine::Last { last })
}

/// Writes the counts of the graph, or a front of them where the sink fails.
pub fn write_counts<K: Sink>(sink: &mut K, graph: &Graph) -> Result<(), Failed>
    ensures { Writes (K.written sink.old) (K.written sink.new) (K.faults sink.old)
        (K.faults sink.new) (ended (counts_line graph.now)) result }
{
    write_line(
        sink,
        ReportLine::Counts {
            vertices: graph.vertices(),
            edges: graph.edges().len() as u32,
            loops: graph.loops(),
        },
    )
}

/// Writes a line for each vertex.
fn write_values<K: Sink>(
    sink: &mut K,
    wide: bool,
    graph: &Graph,
    state: &State,
) -> Result<(), Failed>
    requires { length state.now.values ≡ length graph.now.ids }
    ensures { Writes (K.written sink.old) (K.written sink.new) (K.faults sink.old)
        (K.faults sink.new) (values_text wide graph.now state.now) result }
{
    for v in 0..graph.vertices() {
        write_value(sink, wide, graph.info(v).id, state.values[v as usize])?;
    }
    Ok(())
}

fn write_value<K: Sink>(sink: &mut K, wide: bool, id: u32, datum: Datum) -> Result<(), Failed>
    ensures { Writes (K.written sink.old) (K.written sink.new) (K.faults sink.old)
        (K.faults sink.new) (ended (value_line wide id datum)) result }
{
    let second = if wide { Some(datum.second()) } else { None };
    let value = datum.first();
    write_line(sink, ReportLine::Value { id, value, second })
}

/// Writes a line for each vertex that is signalled.
fn write_signals<K: Sink>(sink: &mut K, graph: &Graph, state: &State) -> Result<(), Failed>
    requires { length state.now.messages ≡ length graph.now.ids }
    ensures { Writes (K.written sink.old) (K.written sink.new) (K.faults sink.old)
        (K.faults sink.new) (signals_text graph.now state.now) result }
{
    for v in 0..graph.vertices() {
        write_message(sink, graph.info(v).id, state.messages[v as usize])?;
    }
    Ok(())
}

fn write_message<K: Sink>(sink: &mut K, id: u32, message: Option<u64>) -> Result<(), Failed>
    ensures { Writes (K.written sink.old) (K.written sink.new) (K.faults sink.old)
        (K.faults sink.new) (message_text id message) result }
{
    match message {
        Some(message) => write_line(sink, ReportLine::Signal { id, message }),
        None => Ok(()),
    }
}

/// Writes a line and its line feed.
fn write_line<K: Sink>(sink: &mut K, line: ReportLine) -> Result<(), Failed>
    ensures { Writes (K.written sink.old) (K.written sink.new) (K.faults sink.old)
        (K.faults sink.new) (ended line) result }
{
    let mut buf = [0; 128];
    let length = put_ended(&mut buf, line);
    write_whole(sink, &buf[..length])
}
