//! The line of an entry: `@`, the id of its vertex, and its datum.
ghost use Rattle.std.specs.Prelude.{◌≡◌, ◌+◌, ◌<◌, ◌≤◌, ◌++◌, Some, length, take, decimal, IfSome};
ghost use Rattle.std.specs.Option.{option_map};
ghost use Rattle.pg_law.specs.declared.values.JournalEntry.{JournalEntry as Entry};
ghost use Rattle.pg_journal.specs.Entry.{entry_text_of, entry_line, IsEntry, datum_at, entry_at};

use crate::fronts::{behind, number_at};
use itoa::Buffer;
use pg_graph::Graph;
use pg_law::{Datum, JournalEntry};

/// Puts a text at `at`, and answers where it ends.
fn put_text(buf: &mut [u8], at: usize, text: &[u8]) -> usize
    requires { at + length text.now ≤ length buf.old }
    ensures end { result ≡ at + length text.now }
    ensures text { take result buf.new ≡ take at buf.old ++ text.now }
{
    let end = at + text.len();
    buf[at..end].copy_from_slice(text);
    end
}

/// Puts the decimal text of a number at `at`, and answers where it ends.
fn put_number(buf: &mut [u8], at: usize, number: u64) -> usize
    requires { at + 20 ≤ length buf.old }
    ensures end { result ≡ at + length (decimal number) }
    ensures room { result ≤ at + 20 }
    ensures text { take result buf.new ≡ take at buf.old ++ decimal number }
{
    let mut digits = Buffer::new();
    let text = digits.format(number).as_bytes();
    let end = at + text.len();
    buf[at..end].copy_from_slice(text);
    end
}

/// Puts the line of an entry at the front of `buf`, with its line feed, and answers its length.
///
/// `wide` says whether the line shows both words of the datum, or the first alone.
pub fn put_entry(buf: &mut [u8; 64], graph: &Graph, wide: bool, entry: JournalEntry) -> usize
    requires { entry.vertex < length graph.now.ids }
    ensures within { result ≤ 64 }
    ensures length { result ≡ length (entry_line graph.now wide entry) }
    ensures line { take result buf.new ≡ entry_line graph.now wide entry }
{
    let end = put_text(buf, 0, b"@");
    let end = put_number(buf, end, graph.info(entry.vertex).id as u64);
    let end = put_text(buf, end, b"\t");
    let end = put_number(buf, end, entry.datum.first);
    if !wide {
        return put_text(buf, end, b"\n");
    }
    let end = put_text(buf, end, b"\t");
    let end = put_number(buf, end, entry.datum.second);
    put_text(buf, end, b"\n")
}

/// The datum at the front, and the bytes behind it.
#[tactic(auto, unfolding(crate::specs::Entry::datum_at))]
fn datum_at(wide: bool, bytes: &[u8]) -> Option<(Datum, &[u8])>
    ensures { option_map (λ found. (found.0, found.1.now)) result ≡ datum_at wide bytes.now }
{
    let (first, rest) = number_at(bytes, u64::MAX)?;
    if !wide {
        return Some((Datum { first, second: 0 }, rest));
    }
    let (second, rest) = number_at(behind(rest, b"\t")?, u64::MAX)?;
    Some((Datum { first, second }, rest))
}

/// The id and the datum of an entry line.
#[tactic(auto, unfolding(crate::specs::Entry::entry_at))]
fn entry_at(wide: bool, line: &[u8]) -> Option<(u32, Datum)>
    ensures { result ≡ entry_at wide line.now }
{
    let (id, rest) = number_at(behind(line, b"@")?, u32::MAX as u64)?;
    let (datum, rest) = datum_at(wide, behind(rest, b"\t")?)?;
    if rest.is_empty() {
        Some((id as u32, datum))
    } else {
        None
    }
}

/// The entry whose line this is, without its line feed. None where it is the line of no entry: it has
/// another form, a number past its type or with a leading zero, or an id that isn't in the graph.
pub fn read_entry(graph: &Graph, wide: bool, line: &[u8]) -> Option<JournalEntry>
    // What is read has this line.
    ensures entry { IfSome result (IsEntry graph.now wide) }
    ensures text { IfSome result (λ entry. line.now ≡ entry_text_of graph.now wide entry) }
    // The line of each entry is read as that entry.
    ensures only { (entry : Entry) → IsEntry graph.now wide entry →
        line.now ≡ entry_text_of graph.now wide entry → result ≡ Some entry }
{
    let _ = graph.vertices();
    let (id, datum) = entry_at(wide, line)?;
    let vertex = graph.number_of(id)?;
    Some(JournalEntry { vertex, datum })
}
