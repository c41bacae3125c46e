//! The lines of a text, added one after another.

ghost use Rattle.std.specs.Prelude.{◌≡◌, ◌+◌, ◌≤◌, ◌^◌, [], Some, None, List, ℕ, Option, length, IsErrOf, IfSome, IfOk, IfErr, OnOk};
ghost use Rattle.std.specs.Option.{option_map};
ghost use Rattle.pg_base.specs.Cutting.{ahead};
ghost use Rattle.pg_base.specs.Faults.{HasRisen};
ghost use Rattle.pg_base.specs.Limits.{IsWithinStandard};
ghost use Rattle.pg_input.specs.Events.{IsEventOf};
ghost use Rattle.pg_input.specs.Reading.{is_stop_line, stop_bytes, built_until, event_until, stop_of, bytes_of_stop, is_stop_ended, behind_stop};

use crate::add::add_line;
use crate::error::{InputError, from_cut};
use pg_base::{Limits, LineCutter, Source};
use pg_graph::GraphBuilder;
use pg_readers::Format;
use std::alloc::Global;

/// What was read up to a stop line, or to the end of the input.
#[derive(Drop)]
pub struct Reading {
    pub builder: GraphBuilder,
    pub stop: Option<Vec<u8>>,
    pub stop_ended: bool,
}

fn is_stop(line: &[u8], stop: Option<&[u8]>) -> bool
    ensures { result ≡ is_stop_line (stop_bytes stop.entry) line.now }
{
    match stop {
        Some(stop) => line.starts_with(stop),
        None => false,
    }
}

/// Reads the lines before the first that begins with `stop`, and that line.
pub fn read_lines<S: Source>(
    alloc: Global,
    format: Format,
    limits: Limits,
    cutter: &mut LineCutter,
    source: &mut S,
    stop: Option<&[u8]>,
) -> Result<Reading, InputError>
    requires limits { IsWithinStandard limits }
    requires fresh { cutter.old.refusal ≡ None }
    ensures built { IfOk result (λ read. IfSome (ahead cutter.old (S.left source.old))
        (λ text. read.builder ≡ built_until format (stop_bytes stop.entry) limits text)) }
    ensures accepted { OnOk result (IfSome (ahead cutter.old (S.left source.old))
        (λ text. event_until format (stop_bytes stop.entry) limits cutter.old.given text ≡ None)) }
    ensures stop { IfOk result (λ read. IfSome (ahead cutter.old (S.left source.old))
        (λ text. option_map (λ v. v.items) read.stop
        ≡ bytes_of_stop (stop_of (stop_bytes stop.entry) text))) }
    ensures stop_ended { IfOk result (λ read. IfSome (ahead cutter.old (S.left source.old))
        (λ text. read.stop_ended ≡ is_stop_ended (stop_of (stop_bytes stop.entry) text))) }
    ensures behind { OnOk result (IfSome (ahead cutter.old (S.left source.old))
        (λ text. ahead cutter.new (S.left source.new)
        ≡ Some (behind_stop (stop_of (stop_bytes stop.entry) text)))) }
    ensures given { OnOk result (IfSome (ahead cutter.old (S.left source.old))
        (λ text. cutter.new.given + length (behind_stop (stop_of (stop_bytes stop.entry) text))
        ≡ cutter.old.given + length text)) }
    ensures refusal { OnOk result (cutter.new.refusal ≡ None) }
    ensures event { IfErr result (λ e. IfSome (ahead cutter.old (S.left source.old))
        (λ text. IsEventOf
        (event_until format (stop_bytes stop.entry) limits cutter.old.given text) e)) }
    ensures fault { IsErrOf result InputError.ReadFault
        → HasRisen (S.faults source.old) (S.faults source.new) }
    ensures counted { S.faults source.old ≤ S.faults source.new }
{
    let mut builder = GraphBuilder::new(alloc, limits)?;
    let mut number = 0;
    loop {
        let line = match cutter.line(source, limits.bytes) {
            Ok(Some(line)) => line,
            Ok(None) => {
                return Ok(Reading {
                    builder,
                    stop: None,
                    stop_ended: false,
                });
            }
            Err(refusal) => return Err(from_cut(refusal, limits.bytes)),
        };
        if is_stop(line.bytes, stop) {
            return Ok(Reading {
                builder,
                stop: Some(Vec::from_slice(alloc, line.bytes)?),
                stop_ended: line.ended,
            });
        }
        number += 1;
        add_line(&mut builder, format, number, line.bytes)?;
    }
}
