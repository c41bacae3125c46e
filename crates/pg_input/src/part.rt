//! The graph of a text up to a stop line.

ghost use Rattle.std.specs.Prelude.{◌≡◌, ◌+◌, ◌≤◌, Some, None, length, IsErrOf, IfSome, IfOk, IfErr, OnOk};
ghost use Rattle.std.specs.Option.{option_map};
ghost use Rattle.pg_base.specs.Cutting.{ahead};
ghost use Rattle.pg_base.specs.Faults.{HasRisen};
ghost use Rattle.pg_base.specs.Limits.{IsWithinStandard};
ghost use Rattle.pg_graph.specs.Building.{IsGraphOf};
ghost use Rattle.pg_input.specs.Events.{IsEventOf};
ghost use Rattle.pg_input.specs.Reading.{built_until, event_until, stop_of, bytes_of_stop, is_stop_ended, behind_stop};

use crate::error::InputError;
use crate::lines::read_lines;
use pg_base::{Limits, LineCutter, Source};
use pg_graph::Graph;
use pg_readers::Format;
use std::alloc::Global;

/// What was read up to a stop line, or to the end of the input.
#[derive(Drop)]
pub struct Part {
    /// The graph of the lines before the stop line.
    pub graph: Graph,
    /// The stop line, without its line feed; None where no line was one.
    pub stop: Option<Vec<u8>>,
    /// Whether a line feed ended the stop line.
    pub stop_ended: bool,
}

/// Reads a text up to the first line that begins with `stop`, or to its end.
///
/// Lines are counted from the first that is read here, bytes from the first that the cutter read.
/// After a refusal nothing is promised of what is left unread.
pub fn read_part<S: Source>(
    alloc: Global,
    format: Format,
    limits: Limits,
    cutter: &mut LineCutter,
    source: &mut S,
    stop: &[u8],
) -> Result<Part, InputError>
    requires limits { IsWithinStandard limits }
    requires fresh { cutter.old.refusal ≡ None }
    // An accepted text gives the graph of the lines before the stop line, and that line.
    ensures graph { IfOk result (λ part. IfSome (ahead cutter.old (S.left source.old))
        (λ text. IsGraphOf (built_until format (Some stop.now) limits text) part.graph)) }
    ensures accepted { OnOk result (IfSome (ahead cutter.old (S.left source.old))
        (λ text. event_until format (Some stop.now) limits cutter.old.given text ≡ None)) }
    ensures stop { IfOk result (λ part. IfSome (ahead cutter.old (S.left source.old))
        (λ text. option_map (λ v. v.items) part.stop
        ≡ bytes_of_stop (stop_of (Some stop.now) text))) }
    ensures stop_ended { IfOk result (λ part. IfSome (ahead cutter.old (S.left source.old))
        (λ text. part.stop_ended ≡ is_stop_ended (stop_of (Some stop.now) text))) }
    // What is still to come is the text behind that line.
    ensures behind { OnOk result (IfSome (ahead cutter.old (S.left source.old))
        (λ text. ahead cutter.new (S.left source.new)
        ≡ Some (behind_stop (stop_of (Some stop.now) text)))) }
    ensures given { OnOk result (IfSome (ahead cutter.old (S.left source.old))
        (λ text. cutter.new.given + length (behind_stop (stop_of (Some stop.now) text))
        ≡ cutter.old.given + length text)) }
    ensures refusal { OnOk result (cutter.new.refusal ≡ None) }
    // A line or a limit is told exactly where it is the first event up to the stop line.
    ensures event { IfErr result (λ e. IfSome (ahead cutter.old (S.left source.old))
        (λ text. IsEventOf (event_until format (Some stop.now) limits cutter.old.given text) e)) }
    ensures fault { IsErrOf result InputError.ReadFault
        → HasRisen (S.faults source.old) (S.faults source.new) }
    ensures counted { S.faults source.old ≤ S.faults source.new }
{
    let read = read_lines(alloc, format, limits, cutter, source, Some(stop))?;
    Ok(Part {
        graph: read.builder.finish()?,
        stop: read.stop,
        stop_ended: read.stop_ended,
    })
}
