//! Lines, each with what it says.

use crate::line::{BadLine, Format, Line};
use crate::parse_line;
use std::test::Fail;

#[test]
fn a_bad_line_has_the_first_kind_that_applies(rt: HostRuntime) -> Result<(), Fail> {
    let rows: [(Format, &[u8], BadLine); 13] = [
        (Format::Snap, b"7", BadLine::TooFew),
        (Format::Snap, b"x", BadLine::TooFew),
        (Format::Snap, b"x #", BadLine::BadNumber),
        (Format::Snap, b"4294967296 1", BadLine::BadNumber),
        (Format::Snap, b"1\r2 3", BadLine::BadNumber),
        (Format::Snap, b"1 2\r\r", BadLine::BadNumber),
        (Format::Tsv, b"1 2 3 4", BadLine::TooMany),
        (Format::Tsv, b"x 2 3 4", BadLine::TooMany),
        (Format::Tsv, b"1 2 -3", BadLine::BadNumber),
        (Format::Adj, b"1 3 2 3", BadLine::BadCount),
        (Format::Adj, b"1 3 2 3 4 5", BadLine::TooMany),
        (Format::Adj, b"1 2 2 x", BadLine::BadNumber),
        (Format::Adj, b"1 4294967295 x", BadLine::BadCount),
    ];
    for (format, line, bad) in rows {
        match parse_line(format, line) {
            Err(kind) => assert_eq!(rt; kind, bad),
            Ok(_) => assert!(rt; false),
        }
    }
    Ok(())
}

#[test]
fn a_line_of_two_or_three_numbers_says_an_edge(rt: HostRuntime) -> Result<(), Fail> {
    let rows: [(Format, &[u8], (u32, u32, u32)); 4] = [
        (Format::Snap, b"10\t20\r", (10, 20, 1)),
        (
            Format::Snap,
            b" 4294967295 0000000000000 and more",
            (4294967295, 0, 1),
        ),
        (Format::Tsv, b"\t007  8\t5\r", (7, 8, 5)),
        (Format::Tsv, b"5 5", (5, 5, 1)),
    ];
    for (format, line, edge) in rows {
        match parse_line(format, line) {
            Ok(Line::Edge { src, dst, weight }) => assert_eq!(rt; (src, dst, weight), edge),
            _ => assert!(rt; false),
        }
    }
    Ok(())
}

#[test]
fn a_star_gives_its_targets_in_order(rt: HostRuntime) -> Result<(), Fail> {
    match parse_line(Format::Adj, b"9 2 4 05\r") {
        Ok(Line::Star { id, mut targets }) => {
            assert_eq!(rt; id, 9);
            assert_eq!(rt; targets.next(), Some(4));
            assert_eq!(rt; targets.next(), Some(5));
            assert_eq!(rt; targets.next(), None);
        }
        _ => assert!(rt; false),
    }
    Ok(())
}

#[test]
fn a_blank_line_or_a_comment_says_nothing(rt: HostRuntime) -> Result<(), Fail> {
    for line in [b"# 1 2".as_slice(), b" \t#x", b" \t\r", b"\r", b"", b"#"] {
        match parse_line(Format::Adj, line) {
            Ok(Line::Nothing) => {}
            _ => assert!(rt; false),
        }
    }
    Ok(())
}
