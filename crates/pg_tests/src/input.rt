//! Texts in pieces, each with its graph or its first event.

ghost use Rattle.std.specs.Prelude.{◌<◌};
ghost use Rattle.pg_base.specs.Limits.{IsWithinStandard};

use pg_base::{Limits, LineCutter, MemSource, SureSource};
use pg_graph::{Edge, Graph};
use pg_input::{InputError, Part, Which, read_graph, read_part};
use pg_readers::Format;
use std::alloc::{AllocError, Global};
use std::process::Abort;
use std::test::Fail;

/// Reads a text that comes in pieces of so many bytes.
fn read(
    alloc: Global,
    format: Format,
    limits: Limits,
    text: &str,
    piece: usize,
) -> Result<Result<Graph, InputError>, AllocError>
    requires limits { IsWithinStandard limits }
    requires piece { 0 < piece }
{
    let bytes = Vec::from_slice(alloc, text.as_bytes())?;
    Ok(read_graph(alloc, format, limits, &mut SureSource::new(bytes, piece)))
}

/// The ids of a graph, each of its edges as `source>target*weight`, and its loops.
fn told(alloc: Global, graph: &Graph) -> Result<String, AllocError> {
    let mut told = String::new(alloc);
    for v in 0..graph.vertices() {
        let id = graph.info(v).id;
        told.push_str(format!(in alloc; "{id} ")?.as_str())?;
    }
    told.push('|')?;
    for edge in graph.edges() {
        let Edge { src, dst, weight } = edge;
        told.push_str(format!(in alloc; " {src}>{dst}*{weight}")?.as_str())?;
    }
    let loops = graph.loops();
    told.push_str(format!(in alloc; " | {loops}")?.as_str())?;
    Ok(told)
}

fn format_of(name: &str) -> Format {
    match name {
        "tsv" => Format::Tsv,
        "adj" => Format::Adj,
        _ => Format::Snap,
    }
}

/// A format, a text with a `/` for each line feed, and its graph.
const GRAPHS: &str = "\
snap: => | | 0
snap:# Directed graph: five.txt/# Five edges/# Nodes: 4 Edges: 5/# FromNodeId\tToNodeId/10\t20\r/10\t30\r/20\t30\r/30\t10\r/40\t10\r/ => 10 20 30 40 | 0>1*1 0>2*1 1>2*1 2>0*1 3>0*1 | 0
snap:# Directed graph: comments.txt/# FromNodeId\tToNodeId/30\t10\r/10\t20\r/10\t20\r/40\t40\r/ => 10 20 30 40 | 2>0*1 0>1*1 0>1*1 | 1
tsv:/\t007  8\t5\r => 7 8 | 0>1*5 | 0
adj:1 2 2 3/2 0/3 1 1/9 0 => 1 2 3 9 | 0>1*1 0>2*1 2>0*1 | 0";

/// A text in pieces of so many bytes has this graph.
fn has_graph(
    rt: &impl Abort,
    alloc: Global,
    format: Format,
    text: &str,
    piece: usize,
    want: &str,
) -> Result<(), Fail>
    requires piece { 0 < piece }
{
    match read(alloc, format, Limits::standard(), text, piece)? {
        Ok(graph) => {
            let told = told(alloc, &graph)?;
            assert_eq!(rt; told.as_str(), want, "{text}");
        }
        Err(error) => assert!(rt; false, "{text}: {error:?}"),
    }
    Ok(())
}

#[test]
fn a_text_gives_its_graph_in_whatever_pieces_it_comes(rt: HostRuntime) -> Result<(), Fail> {
    let alloc = rt.alloc();
    for row in GRAPHS.split('\n') {
        if let Some((format, rest)) = row.split_once(':')
            && let Some((text, want)) = rest.split_once(" => ")
        {
            let format = format_of(format);
            let text = text.replace(alloc, '/', "\n")?;
            has_graph(&rt, alloc, format, text.as_str(), 1, want)?;
            has_graph(&rt, alloc, format, text.as_str(), 2, want)?;
            has_graph(&rt, alloc, format, text.as_str(), 3, want)?;
        } else {
            assert!(rt; false, "{row}");
        }
    }
    Ok(())
}

/// A format, limits of vertices, edges and bytes, a text with a `/` for each line feed, and its first event.
const EVENTS: &str = "\
snap 9 9 99:1 2/3 4/7/ => Line { number: 3, kind: TooFew }
snap 9 9 99:/# 1/4294967296 1/ => Line { number: 3, kind: BadNumber }
adj 9 9 99:1 3 2 3 => Line { number: 1, kind: BadCount }
adj 9 9 99:1 3 2 3 4 5 => Line { number: 1, kind: TooMany }
adj 9 9 99:1 2 2 x => Line { number: 1, kind: BadNumber }
tsv 9 9 99:1 2 3 4 => Line { number: 1, kind: TooMany }
snap 2 9 99:1 2/3 4/7/ => Limit { which: Vertices, limit: 2 }
snap 9 9 4:1 2/3 => Limit { which: Bytes, limit: 4 }
snap 9 9 1:x/ => Limit { which: Bytes, limit: 1 }
snap 9 9 2:x/1 2/ => Line { number: 1, kind: TooFew }
snap 9 1 99:1 2/5 5/2 1/ => Limit { which: Edges, limit: 1 }
adj 2 1 99:1 3 2 2 3/ => Limit { which: Edges, limit: 1 }
adj 0 9 99:1 0/ => Limit { which: Vertices, limit: 0 }";

/// A number of at most two digits.
fn number(rt: &impl Abort, digits: Option<&str>) -> u32
    ensures { result < 100 }
{
    match digits.and_then(|digits| digits.parse::<u32>().ok()) {
        Some(number) if number < 100 => number,
        _ => panic!(rt; "{digits:?}"),
    }
}

/// A text is refused by this event. The first columns are its format and limits.
fn is_refused(
    rt: &impl Abort,
    alloc: Global,
    columns: &str,
    text: &str,
    event: &str,
) -> Result<(), Fail> {
    let mut columns = columns.split(' ');
    let format = format_of(columns.next().unwrap_or("snap"));
    let limits = Limits {
        vertices: number(rt, columns.next()),
        edges: number(rt, columns.next()),
        bytes: number(rt, columns.next()) as u64,
    };
    match read(alloc, format, limits, text, 3)? {
        Ok(_) => assert!(rt; false, "{text}"),
        Err(error) => {
            let told = format!(in alloc; "{error:?}")?;
            assert_eq!(rt; told.as_str(), event, "{text}");
        }
    }
    Ok(())
}

#[test]
fn a_text_is_refused_by_its_first_event(rt: HostRuntime) -> Result<(), Fail> {
    let alloc = rt.alloc();
    for row in EVENTS.split('\n') {
        if let Some((columns, rest)) = row.split_once(':')
            && let Some((text, event)) = rest.split_once(" => ")
        {
            let text = text.replace(alloc, '/', "\n")?;
            is_refused(&rt, alloc, columns, text.as_str(), event)?;
        } else {
            assert!(rt; false, "{row}");
        }
    }
    Ok(())
}

#[test]
fn a_failed_read_is_told(rt: HostRuntime) -> Result<(), Fail> {
    let bytes = Vec::from_slice(rt.alloc(), b"1 2\nx")?;
    let fails = Vec::from_slice(rt.alloc(), &[2])?;
    let mut source = MemSource::new(bytes, 3, fails);
    match read_graph(rt.alloc(), Format::Snap, Limits::standard(), &mut source) {
        Ok(_) => assert!(rt; false),
        Err(error) => assert_eq!(rt; error, InputError::ReadFault),
    }
    Ok(())
}

/// Reads a part up to a line that begins with `#!`, and the line behind it.
fn read_to_stop(
    alloc: Global,
    limits: Limits,
    text: &str,
) -> Result<(Result<Part, InputError>, Vec<u8>), AllocError>
    requires { IsWithinStandard limits }
{
    let bytes = Vec::from_slice(alloc, text.as_bytes())?;
    let mut source = SureSource::new(bytes, 3);
    let mut cutter = LineCutter::new(alloc)?;
    let part = read_part(alloc, Format::Snap, limits, &mut cutter, &mut source, b"#!");
    let next = match cutter.line(&mut source, 99) {
        Ok(Some(line)) => Vec::from_slice(alloc, line.bytes)?,
        _ => Vec::new(alloc),
    };
    Ok((part, next))
}

#[test]
fn a_part_ends_at_its_stop_line(rt: HostRuntime) -> Result<(), Fail> {
    let rows: [(&str, Option<&str>, bool, &str); 4] = [
        ("1 2\r\n#! stop\r\nrest", Some("#! stop\r"), true, "rest"),
        ("1 2\n#!", Some("#!"), false, ""),
        ("1 2\n #!\n# !\n", None, false, ""),
        ("#!\n#!\n", Some("#!"), true, "#!"),
    ];
    for (text, stop, ended, next) in rows {
        let (part, behind) = read_to_stop(rt.alloc(), Limits::standard(), text)?;
        match part {
            Ok(part) => {
                let found = part.stop.as_ref().map(|line| line.as_slice());
                assert!(rt; found == stop.map(|line| line.as_bytes()), "{text}");
                assert_eq!(rt; part.stop_ended, ended, "{text}");
            }
            Err(error) => assert!(rt; false, "{text}: {error:?}"),
        }
        assert_eq!(rt; behind.as_slice(), next.as_bytes(), "{text}");
    }
    Ok(())
}

#[test]
fn a_stop_line_past_the_limit_of_bytes_is_refused(rt: HostRuntime) -> Result<(), Fail> {
    let limits = Limits {
        vertices: 9,
        edges: 9,
        bytes: 5,
    };
    let limit = InputError::Limit {
        which: Which::Bytes,
        limit: 5,
    };
    match read_to_stop(rt.alloc(), limits, "1 2\n#!")?.0 {
        Ok(_) => assert!(rt; false),
        Err(error) => assert_eq!(rt; error, limit),
    }
    Ok(())
}
