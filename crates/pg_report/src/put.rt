//! Lines put into a buffer.
ghost use Rattle.std.specs.Prelude.{◌≡◌, ◌+◌, ◌≤◌, ◌++◌, length, take, decimal};
ghost use Rattle.pg_report.specs.Lines.{head_line_text, engine_text, name_text, second_text, row_text, counts_text};
ghost use Rattle.pg_report.specs.Lines.{end_text, rounds_text, taken_text, line_text};
ghost use Rattle.pg_report.specs.Report.{ended};

use crate::line::{LastLine, ReportLine};
use itoa::Buffer;
use pg_law::End;
use pg_words::{EngineName, ProgramName};

/// Puts a line and its line feed at the front, and answers where it ends.
pub fn put_ended(buf: &mut [u8; 128], line: ReportLine) -> usize
    ensures room { result ≤ 128 }
    ensures text { take result buf.new ≡ ended line }
{
    let end = put_line(buf, line);
    put_text(buf, end, b"\n")
}

/// Puts a line at the front, without its line feed, and answers where it ends.
pub fn put_line(buf: &mut [u8; 128], line: ReportLine) -> usize
    ensures room { result ≤ 127 }
    ensures text { take result buf.new ≡ line_text line }
{
    match line {
        ReportLine::Head { engine, program } => put_head(buf, engine, program),
        ReportLine::Counts {
            vertices,
            edges,
            loops,
        } => put_counts(buf, vertices, edges, loops),
        ReportLine::Entry { id, value, second } => put_marked(buf, b"@", id, value, second),
        ReportLine::Value { id, value, second } => put_row(buf, 0, id, value, second),
        ReportLine::Signal { id, message } => put_marked(buf, b"?", id, message, None),
        ReportLine::Last { last } => put_last(buf, last),
    }
}

fn put_head(buf: &mut [u8; 128], engine: EngineName, program: ProgramName) -> usize
    ensures room { result ≤ 44 }
    ensures text { take result buf.new ≡ head_line_text engine program }
{
    let end = put_text(buf, 0, b"# pgreport 1 ");
    let end = put_engine(buf, end, engine);
    put_name(buf, end, program)
}

fn put_engine(buf: &mut [u8], at: usize, engine: EngineName) -> usize
    requires { at + 6 ≤ length buf.old }
    ensures room { result ≤ at + 6 }
    ensures len { length buf.new ≡ length buf.old }
    ensures text { take result buf.new ≡ take at buf.old ++ engine_text engine }
{
    match engine {
        EngineName::Sync => put_text(buf, at, b"sync "),
        EngineName::Async => put_text(buf, at, b"async "),
    }
}

fn put_name(buf: &mut [u8], at: usize, program: ProgramName) -> usize
    requires { at + 25 ≤ length buf.old }
    ensures room { result ≤ at + 25 }
    ensures text { take result buf.new ≡ take at buf.old ++ name_text program }
{
    match program {
        ProgramName::Components => put_text(buf, at, b"components"),
        ProgramName::Colour => put_text(buf, at, b"colour"),
        ProgramName::Sssp { source } => put_behind(buf, at, b"sssp ", source as u64),
        ProgramName::Rank { tolerance } => put_behind(buf, at, b"rank ", tolerance),
        ProgramName::Tree { source } => put_behind(buf, at, b"tree ", source as u64),
    }
}

fn put_counts(buf: &mut [u8; 128], vertices: u32, edges: u32, loops: u64) -> usize
    ensures room { result ≤ 85 }
    ensures text { take result buf.new ≡ counts_text vertices edges loops }
{
    let end = put_behind(buf, 0, b"# vertices ", vertices as u64);
    let end = put_behind(buf, end, b" edges ", edges as u64);
    put_behind(buf, end, b" loops ", loops)
}

/// Puts a mark of one byte and a row behind it.
fn put_marked(buf: &mut [u8; 128], mark: &[u8], id: u32, value: u64, second: Option<u64>) -> usize
    requires { length mark.now ≡ 1 }
    ensures room { result ≤ 63 }
    ensures text { take result buf.new ≡ mark.now ++ row_text id value second }
{
    let end = put_text(buf, 0, mark);
    put_row(buf, end, id, value, second)
}

fn put_row(buf: &mut [u8], at: usize, id: u32, value: u64, second: Option<u64>) -> usize
    requires { at + 62 ≤ length buf.old }
    ensures room { result ≤ at + 62 }
    ensures text { take result buf.new ≡ take at buf.old ++ row_text id value second }
{
    let end = put_number(buf, at, id as u64);
    let end = put_behind(buf, end, b"\t", value);
    put_second(buf, end, second)
}

fn put_second(buf: &mut [u8], at: usize, second: Option<u64>) -> usize
    requires { at + 21 ≤ length buf.old }
    ensures room { result ≤ at + 21 }
    ensures text { take result buf.new ≡ take at buf.old ++ second_text second }
{
    match second {
        None => at,
        Some(second) => put_behind(buf, at, b"\t", second),
    }
}

fn put_last(buf: &mut [u8; 128], last: LastLine) -> usize
    ensures room { result ≤ 100 }
    ensures text { take result buf.new ≡
        end_text last.end ++ (rounds_text last.rounds ++ taken_text last.executions last.gathers) }
{
    let end = put_end(buf, last.end);
    let end = put_rounds(buf, end, last.rounds);
    put_taken(buf, end, last.executions, last.gathers)
}

fn put_end(buf: &mut [u8], end: End) -> usize
    requires { 11 ≤ length buf.old }
    ensures room { result ≤ 11 }
    ensures len { length buf.new ≡ length buf.old }
    ensures text { take result buf.new ≡ end_text end }
{
    match end {
        End::Quiescent => put_text(buf, 0, b"# quiescent"),
        End::Spent => put_text(buf, 0, b"# spent"),
    }
}

fn put_rounds(buf: &mut [u8], at: usize, rounds: Option<u32>) -> usize
    requires { at + 28 ≤ length buf.old }
    ensures room { result ≤ at + 28 }
    ensures len { length buf.new ≡ length buf.old }
    ensures text { take result buf.new ≡ take at buf.old ++ rounds_text rounds }
{
    match rounds {
        None => at,
        Some(rounds) => put_behind(buf, at, b" rounds ", rounds as u64),
    }
}

fn put_taken(buf: &mut [u8], at: usize, executions: u64, gathers: u64) -> usize
    requires { at + 61 ≤ length buf.old }
    ensures room { result ≤ at + 61 }
    ensures text { take result buf.new ≡ take at buf.old ++ taken_text executions gathers }
{
    let end = put_behind(buf, at, b" executions ", executions);
    put_behind(buf, end, b" gathers ", gathers)
}

/// Puts a text and a number behind it at `at`, and answers where they end.
fn put_behind(buf: &mut [u8], at: usize, text: &[u8], number: u64) -> usize
    requires { at + length text.now + 20 ≤ length buf.old }
    ensures room { result ≤ at + length text.now + 20 }
    ensures len { length buf.new ≡ length buf.old }
    ensures text { take result buf.new ≡ take at buf.old ++ (text.now ++ decimal number) }
{
    let end = put_text(buf, at, text);
    put_number(buf, end, number)
}

/// Puts the text at `at`, and answers where it ends.
fn put_text(buf: &mut [u8], at: usize, text: &[u8]) -> usize
    requires { at + length text.now ≤ length buf.old }
    ensures end { result ≡ at + length text.now }
    ensures len { length buf.new ≡ length buf.old }
    ensures text { take result buf.new ≡ take at buf.old ++ text.now }
{
    let end = at + text.len();
    buf[at..end].copy_from_slice(text);
    end
}

/// Puts the number at `at`, and answers where it ends.
fn put_number(buf: &mut [u8], at: usize, number: u64) -> usize
    requires { at + 20 ≤ length buf.old }
    ensures room { result ≤ at + 20 }
    ensures len { length buf.new ≡ length buf.old }
    ensures text { take result buf.new ≡ take at buf.old ++ decimal number }
{
    let mut digits = Buffer::new();
    let text = digits.format(number).as_bytes();
    let end = at + text.len();
    buf[at..end].copy_from_slice(text);
    end
}
