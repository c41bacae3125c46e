//! The graph of a whole text.

ghost use Rattle.std.specs.Prelude.{◌≡◌, ◌≤◌, [], Some, None, IsErrOf, IfSome, IfOk, IfErr, OnOk};
ghost use Rattle.pg_base.specs.Faults.{HasRisen};
ghost use Rattle.pg_base.specs.Limits.{IsWithinStandard};
ghost use Rattle.pg_input.specs.Events.{IsEventOf};
ghost use Rattle.pg_input.specs.Reading.{IsGraphOfText, first_event};

use crate::error::InputError;
use crate::lines::read_lines;
use pg_base::{Limits, LineCutter, Source};
use pg_graph::Graph;
use pg_readers::Format;
use std::alloc::Global;

/// Reads a text to its end, in whatever pieces the source gives it.
///
/// After a refusal nothing is promised of what is left unread.
pub fn read_graph<S: Source>(
    alloc: Global,
    format: Format,
    limits: Limits,
    source: &mut S,
) -> Result<Graph, InputError>
    requires { IsWithinStandard limits }
    // An accepted text gives its graph, and was read to its end.
    ensures graph { IfOk result (λ graph. IfSome (S.left source.old)
        (λ text. IsGraphOfText format limits text graph)) }
    ensures accepted { OnOk result (IfSome (S.left source.old)
        (λ text. first_event format limits text ≡ None)) }
    ensures end { OnOk result (IfSome (S.left source.old) (λ _. S.left source.new ≡ Some [])) }
    // A line or a limit is told exactly where it is the first event of the text.
    ensures event { IfErr result (λ e. IfSome (S.left source.old)
        (λ text. IsEventOf (first_event format limits text) e)) }
    ensures fault { IsErrOf result InputError.ReadFault
        → HasRisen (S.faults source.old) (S.faults source.new) }
    ensures counted { S.faults source.old ≤ S.faults source.new }
{
    let mut cutter = LineCutter::new(alloc)?;
    let read = read_lines(alloc, format, limits, &mut cutter, source, None)?;
    Ok(read.builder.finish()?)
}
