//! The line that tells a refusal.
ghost use Rattle.std.specs.Prelude.{◌≡◌, ◌++◌, decimal};
ghost use Rattle.std.specs.List.{flat_map};
ghost use Rattle.pg_base.specs.Writing.{Writes};
ghost use Rattle.pg_main.specs.Statuses.{error_line, kind_text, limit_text};

use crate::status::Status;
use itoa::Buffer;
use pg_base::{Failed, Sink, write_whole};
use pg_input::Which;
use pg_readers::BadLine;

/// Writes texts one after another.
pub fn write_parts<K: Sink>(sink: &mut K, parts: &[&[u8]]) -> Result<(), Failed>
    ensures { Writes (K.written sink.old) (K.written sink.new) (K.faults sink.old)
        (K.faults sink.new) (flat_map (λ part. part.now) parts.now) result }
{
    for part in parts {
        write_whole(sink, part)?;
    }
    Ok(())
}

/// Writes a number between two texts.
fn write_number<E: Sink>(
    err: &mut E,
    before: &[u8],
    number: u64,
    after: &[u8],
) -> Result<(), Failed>
    ensures { Writes (E.written err.old) (E.written err.new) (E.faults err.old) (E.faults err.new)
        (before.now ++ decimal number ++ after.now) result }
{
    write_parts(
        err,
        &[before, Buffer::new().format(number).as_bytes(), after],
    )
}

/// Tells a refusal: writes its line, or nothing where the answer has none.
pub fn tell<E: Sink>(err: &mut E, status: Status) -> Result<(), Failed>
    ensures { Writes (E.written err.old) (E.written err.new) (E.faults err.old) (E.faults err.new)
        (error_line status) result }
{
    match status {
        Status::Quiescent | Status::Spent | Status::Confirmed | Status::Reported => {
            write_whole(err, b"")
        }
        Status::Usage { place } => write_number(err, b"usage: word ", u64::from(place), b"\n"),
        Status::Text { line, kind } => write_number(err, b"line ", line, text_of_kind(kind)),
        Status::Limit { which, limit } => write_number(err, text_of_limit(which), limit, b"\n"),
        Status::NoVertex { id } => write_number(err, b"no vertex ", u64::from(id), b"\n"),
        Status::Rejected { line } => write_number(err, b"rejected at line ", line, b"\n"),
        Status::ReadFault => write_whole(err, b"read fault\n"),
        Status::WriteFault => write_whole(err, b"write fault\n"),
        Status::Memory => write_whole(err, b"no memory\n"),
    }
}

/// What is wrong with a line, behind its number.
fn text_of_kind(kind: BadLine) -> &'static [u8]
    ensures { result.now ≡ kind_text kind }
{
    match kind {
        BadLine::TooFew => b": too few\n",
        BadLine::BadNumber => b": bad number\n",
        BadLine::BadCount => b": bad count\n",
        BadLine::TooMany => b": too many\n",
    }
}

/// Which limit was passed, before its number.
fn text_of_limit(which: Which) -> &'static [u8]
    ensures { result.now ≡ limit_text which }
{
    match which {
        Which::Vertices => b"limit: vertices ",
        Which::Edges => b"limit: edges ",
        Which::Bytes => b"limit: bytes ",
    }
}
