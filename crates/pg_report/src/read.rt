//! Lines of a report, read.
ghost use Rattle.std.specs.Prelude.{◌≡◌, ◌-◌, ◌^◌, IfSome, Some};
ghost use Rattle.std.specs.Option.{option_map};
ghost use Rattle.pg_report.specs.Fronts.{at_end, last_number};
ghost use Rattle.pg_report.specs.Lines.{line_text, IsLine};
ghost use Rattle.pg_report.specs.Reading.{second_of, row_of, signal_of, name_of, head_of, counts_of};
ghost use Rattle.pg_report.specs.Reading.{rounds_of, taken_of, last_of, comment_of, marked_of, line_of};

use crate::fronts::{last_number, small_at};
use crate::line::{LastLine, ReportLine};
use pg_journal::{behind, number_at};
use pg_law::End;
use pg_words::{EngineName, ProgramName};

/// An id and its values.
#[derive(Clone, Copy)]
struct Row {
    id: u32,
    value: u64,
    second: Option<u64>,
}

/// What a line of a report says, without its line feed; None where it is no such line. A number has
/// no leading zeros, and its field can hold it.
pub fn read_report_line(line: &[u8]) -> Option<ReportLine>
    // What is read has this text.
    ensures found { IfSome result (λ said. IsLine said × (line.now ≡ line_text said)) }
    // The text of a line is read as that line.
    ensures only { (said : ReportLine) → IsLine said → line.now ≡ line_text said
        → result ≡ Some said }
{
    read_line(line)
}

fn read_line(line: &[u8]) -> Option<ReportLine>
    ensures { result ≡ line_of line.now }
{
    match read_row(line) {
        Some(row) => Some(ReportLine::Value {
            id: row.id,
            value: row.value,
            second: row.second,
        }),
        None => read_marked(line),
    }
}

fn read_marked(line: &[u8]) -> Option<ReportLine>
    ensures { result ≡ marked_of line.now }
{
    if let Some(rest) = behind(line, b"@") {
        let row = read_row(rest)?;
        return Some(ReportLine::Entry {
            id: row.id,
            value: row.value,
            second: row.second,
        });
    }
    if let Some(rest) = behind(line, b"?") {
        return read_signal(rest);
    }
    read_comment(line)
}

fn read_comment(line: &[u8]) -> Option<ReportLine>
    ensures { result ≡ comment_of line.now }
{
    if let Some(rest) = behind(line, b"# pgreport 1 ") {
        return read_head(rest);
    }
    if let Some(rest) = behind(line, b"# vertices ") {
        return read_counts(rest);
    }
    if let Some(rest) = behind(line, b"# quiescent") {
        return read_last(End::Quiescent, rest);
    }
    if let Some(rest) = behind(line, b"# spent") {
        return read_last(End::Spent, rest);
    }
    None
}

fn read_row(bytes: &[u8]) -> Option<Row>
    ensures { result ≡ row_of bytes.now }
{
    let (id, rest) = small_at(bytes)?;
    let (value, rest) = number_at(behind(rest, b"\t")?, u64::MAX)?;
    let second = read_second(rest)?;
    Some(Row { id, value, second })
}

/// A second value, or none where nothing is left.
fn read_second(bytes: &[u8]) -> Option<Option<u64>>
    ensures { result ≡ second_of bytes.now }
{
    if bytes.is_empty() {
        return Some(None);
    }
    Some(Some(last_number(behind(bytes, b"\t")?, u64::MAX)?))
}

fn read_signal(bytes: &[u8]) -> Option<ReportLine>
    ensures { result ≡ signal_of bytes.now }
{
    let row = read_row(bytes)?;
    match row.second {
        None => Some(ReportLine::Signal {
            id: row.id,
            message: row.value,
        }),
        Some(_) => None,
    }
}

fn read_head(bytes: &[u8]) -> Option<ReportLine>
    ensures { result ≡ head_of bytes.now }
{
    if let Some(rest) = behind(bytes, b"sync ") {
        return Some(ReportLine::Head {
            engine: EngineName::Sync,
            program: read_name(rest)?,
        });
    }
    if let Some(rest) = behind(bytes, b"async ") {
        return Some(ReportLine::Head {
            engine: EngineName::Async,
            program: read_name(rest)?,
        });
    }
    None
}

/// The program's name, with its number where it has one, and nothing behind it.
fn read_name(bytes: &[u8]) -> Option<ProgramName>
    ensures { result ≡ name_of bytes.now }
{
    if let Some(rest) = behind(bytes, b"components") {
        return at_end(ProgramName::Components, rest);
    }
    if let Some(rest) = behind(bytes, b"colour") {
        return at_end(ProgramName::Colour, rest);
    }
    if let Some(rest) = behind(bytes, b"sssp ") {
        return Some(ProgramName::Sssp {
            source: last_small(rest)?,
        });
    }
    if let Some(rest) = behind(bytes, b"rank ") {
        return Some(ProgramName::Rank {
            tolerance: last_number(rest, u64::MAX)?,
        });
    }
    if let Some(rest) = behind(bytes, b"tree ") {
        return Some(ProgramName::Tree {
            source: last_small(rest)?,
        });
    }
    None
}

fn at_end(program: ProgramName, bytes: &[u8]) -> Option<ProgramName>
    ensures { result ≡ at_end program bytes.now }
{
    if bytes.is_empty() {
        Some(program)
    } else {
        None
    }
}

/// A number below 2^32 that is all that is left.
fn last_small(bytes: &[u8]) -> Option<u32>
    ensures { result ≡ last_number (2 ^ 32 - 1) bytes.now }
{
    Some(last_number(bytes, u32::MAX as u64)? as u32)
}

fn read_counts(bytes: &[u8]) -> Option<ReportLine>
    ensures { result ≡ counts_of bytes.now }
{
    let (vertices, rest) = small_at(bytes)?;
    let (edges, rest) = small_at(behind(rest, b" edges ")?)?;
    let loops = last_number(behind(rest, b" loops ")?, u64::MAX)?;
    Some(ReportLine::Counts {
        vertices,
        edges,
        loops,
    })
}

/// The rounds, where they are told, and the bytes behind them.
fn read_rounds(bytes: &[u8]) -> Option<(Option<u32>, &[u8])>
    ensures { option_map (λ found. (found.0, found.1.now)) result ≡ rounds_of bytes.now }
{
    match behind(bytes, b" rounds ") {
        Some(rest) => {
            let (rounds, rest) = small_at(rest)?;
            Some((Some(rounds), rest))
        }
        None => Some((None, bytes)),
    }
}

/// The executions and the gathers.
fn read_taken(bytes: &[u8]) -> Option<(u64, u64)>
    ensures { result ≡ taken_of bytes.now }
{
    let (executions, rest) = number_at(behind(bytes, b" executions ")?, u64::MAX)?;
    let gathers = last_number(behind(rest, b" gathers ")?, u64::MAX)?;
    Some((executions, gathers))
}

fn read_last(end: End, bytes: &[u8]) -> Option<ReportLine>
    ensures { result ≡ last_of end bytes.now }
{
    let (rounds, rest) = read_rounds(bytes)?;
    let (executions, gathers) = read_taken(rest)?;
    Some(ReportLine::Last {
        last: LastLine {
            end,
            rounds,
            executions,
            gathers,
        },
    })
}
