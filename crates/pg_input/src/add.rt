//! What a line adds to a graph.

ghost use Rattle.std.specs.Prelude.{◌≡◌, ◌+◌, ◌-◌, ◌^◌, ◌<◌, ◌≤◌, None, length, IsErrOf, IfErr, OnOk};
ghost use Rattle.pg_readers.specs.Lines.{line_says};
ghost use Rattle.pg_input.specs.Events.{IsEventOf, star_edges, with_elements, event_of_elements, with_said, event_of_said};

use crate::error::InputError;
use pg_graph::GraphBuilder;
use pg_readers::{Format, Line, Targets, parse_line};

/// Adds the edges from a vertex to these targets.
fn add_star(builder: &mut GraphBuilder, id: u32, targets: Targets<'_>) -> Result<(), InputError>
    requires { builder.old.loops + length targets < 2 ^ 64 - 1 }
    ensures ok { OnOk result (event_of_elements builder.old (star_edges id targets.entry) ≡ None) }
    ensures built { OnOk result
        (builder.new ≡ with_elements builder.old (star_edges id targets.entry)) }
    ensures event { IfErr result
        (IsEventOf (event_of_elements builder.old (star_edges id targets.entry))) }
    ensures no_fault { IsErrOf result InputError.ReadFault → ⊥ }
    ensures loops { OnOk result (builder.new.loops ≤ builder.old.loops + length targets.entry) }
{
    for target in targets {
        builder.edge(id, target, 1)?;
    }
    Ok(())
}

/// Adds what the line of this number says.
pub fn add_line(
    builder: &mut GraphBuilder,
    format: Format,
    number: u64,
    line: &[u8],
) -> Result<(), InputError>
    requires { builder.old.loops + length line.now < 2 ^ 64 - 1 }
    ensures ok { OnOk result (event_of_said builder.old number (line_says format line.now) ≡ None) }
    ensures built { OnOk result (builder.new ≡ with_said builder.old (line_says format line.now)) }
    ensures event { IfErr result
        (IsEventOf (event_of_said builder.old number (line_says format line.now))) }
    ensures no_fault { IsErrOf result InputError.ReadFault → ⊥ }
    ensures loops { OnOk result (builder.new.loops ≤ builder.old.loops + length line.now) }
{
    match parse_line(format, line) {
        Ok(Line::Nothing) => Ok(()),
        Ok(Line::Edge { src, dst, weight }) => Ok(builder.edge(src, dst, weight)?),
        Ok(Line::Star { id, targets }) => {
            builder.vertex(id)?;
            add_star(builder, id, targets)
        }
        Err(kind) => Err(InputError::Line { number, kind }),
    }
}
