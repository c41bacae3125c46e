//! Lines out of sources that give their bytes in pieces, and texts into sinks that fail.

use crate::{
    CutError, LineCutter, MemSink, MemSource, NullSink, Sink, Source, StdSink, StdSource,
    SureSource, put_number, read_number, write_whole,
};
use std::alloc::{AllocError, Global};
use std::test::Fail;

/// The lines that a source gives up to a limit of bytes, each with a bar where its line feed stood.
fn shown<S: Source>(
    alloc: Global,
    source: &mut S,
    limit: u64,
) -> Result<(Vec<u8>, Option<CutError>), AllocError> {
    let mut cutter = LineCutter::new(alloc)?;
    let mut text = Vec::new(alloc);
    for _ in 0..64 {
        match cutter.line(source, limit) {
            Ok(None) => return Ok((text, None)),
            Ok(Some(line)) => {
                text.extend_from_slice(line.bytes)?;
                text.push(if line.ended { b'|' } else { b'.' })?;
            }
            Err(refusal) => return Ok((text, Some(refusal))),
        }
    }
    Ok((text, None))
}

#[test]
fn lines_come_whole_in_whatever_pieces_the_bytes_come(rt: HostRuntime) -> Result<(), Fail> {
    let rows = [
        ("", ""),
        ("a", "a."),
        ("a\n", "a|"),
        ("\n\nab\r\n\nc", "||ab\r||c."),
        ("one line\nand another\n", "one line|and another|"),
    ];
    for (text, lines) in rows {
        for piece in 1..8 {
            let bytes = Vec::from_slice(rt.alloc(), text.as_bytes())?;
            let (given, refusal) = shown(rt.alloc(), &mut SureSource::new(bytes, piece), 100)?;
            assert_eq!(rt; given.as_slice(), lines.as_bytes(), "{text} by {piece}");
            assert_eq!(rt; refusal, None, "{text} by {piece}");
        }
    }
    Ok(())
}

#[test]
fn a_line_past_the_limit_is_refused(rt: HostRuntime) -> Result<(), Fail> {
    let rows: [(u64, &str, Option<CutError>); 4] = [
        (2, "", Some(CutError::OverLimit)),
        (3, "", Some(CutError::OverLimit)),
        (4, "1 2|", Some(CutError::OverLimit)),
        (5, "1 2|3.", None),
    ];
    for (limit, lines, refused) in rows {
        let bytes = Vec::from_slice(rt.alloc(), b"1 2\n3")?;
        let (given, refusal) = shown(rt.alloc(), &mut SureSource::new(bytes, 2), limit)?;
        assert_eq!(rt; given.as_slice(), lines.as_bytes(), "{limit}");
        assert_eq!(rt; refusal, refused, "{limit}");
    }
    Ok(())
}

#[test]
fn a_fault_is_repeated(rt: HostRuntime) -> Result<(), Fail> {
    let bytes = Vec::from_slice(rt.alloc(), b"1\n2\n")?;
    let fails = Vec::from_slice(rt.alloc(), &[2])?;
    let mut source = MemSource::new(bytes, 3, fails);
    let mut cutter = LineCutter::new(rt.alloc())?;
    assert!(rt; cutter.line(&mut source, 9).is_ok());
    for _ in 0..2 {
        assert!(rt; matches!(cutter.line(&mut source, 9), Err(CutError::ReadFault)));
    }
    Ok(())
}

#[test]
fn a_line_longer_than_the_first_buffer_is_whole(rt: HostRuntime) -> Result<(), Fail> {
    let mut bytes = vec![in rt.alloc(); b'7'; 200_000]?;
    bytes.extend_from_slice(b"\n8")?;
    let mut source = SureSource::new(bytes, 50_000);
    let mut cutter = LineCutter::new(rt.alloc())?;
    for (length, ends) in [(200_000, true), (1, false)] {
        match cutter.line(&mut source, 1_000_000) {
            Ok(Some(line)) => assert_eq!(rt; (line.bytes.len(), line.ended), (length, ends)),
            _ => assert!(rt; false),
        }
    }
    Ok(())
}

#[test]
fn a_sink_takes_a_front_where_a_call_fails(rt: HostRuntime) -> Result<(), Fail> {
    let rows: [(usize, &[u64], &str, bool); 4] = [
        (8, &[], "a text", true),
        (8, &[2], "a t", false),
        (5, &[], "a t", false),
        (8, &[1], "", false),
    ];
    for (room, fails, taken, whole) in rows {
        let fails = Vec::from_slice(rt.alloc(), fails)?;
        let mut sink = MemSink::new(rt.alloc(), room, 3, fails)?;
        assert_eq!(rt; write_whole(&mut sink, b"a text").is_ok(), whole, "{taken}");
        assert_eq!(rt; sink.bytes(), taken.as_bytes(), "{taken}");
        assert!(rt; !sink.is_finished(), "{taken}");
    }
    Ok(())
}

#[test]
fn numbers_are_read_and_put(rt: HostRuntime) -> Result<(), Fail> {
    let rows: [(&str, u64, Option<u64>); 8] = [
        ("", 9, None),
        ("0", 9, Some(0)),
        ("007", 9, Some(7)),
        ("10", 9, None),
        ("-1", 9, None),
        ("1 ", 9, None),
        ("18446744073709551615", u64::MAX, Some(u64::MAX)),
        ("18446744073709551616", u64::MAX, None),
    ];
    for (text, max, number) in rows {
        assert_eq!(rt; read_number(text.as_bytes(), max), number, "{text}");
    }
    let mut buf = [0; 40];
    let length = put_number(&mut buf, u128::MAX);
    assert_eq!(rt;
        &buf[..length],
        b"340282366920938463463374607431768211455".as_slice()
    );
    Ok(())
}

#[test]
fn std_readers_and_writers_are_sources_and_sinks(rt: HostRuntime) -> Result<(), Fail> {
    let text: &[u8] = b"1 2\n3 4";
    let (given, refusal) = shown(rt.alloc(), &mut StdSource::new(text), 100)?;
    assert_eq!(rt; given.as_slice(), b"1 2|3 4.".as_slice());
    assert_eq!(rt; refusal, None);
    let mut sink = StdSink::new(Vec::new(rt.alloc()));
    assert_eq!(rt; write_whole(&mut sink, text), Ok(()));
    assert_eq!(rt; sink.finish(), Ok(()));
    assert_eq!(rt; write_whole(&mut NullSink::new(), text), Ok(()));
    Ok(())
}
