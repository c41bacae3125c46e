//! Lines of entries, and lines of none.
ghost use Rattle.std.specs.Prelude.{◌≡◌};

use pg_base::Limits;
use pg_graph::{Graph, GraphBuilder};
use pg_journal::{JournalText, put_entry, read_entry};
use pg_law::{Datum, EntryText, JournalEntry};
use std::alloc::Global;
use std::process::Abort;
use std::test::Fail;

/// Vertices with the ids 3, 40 and 4294967295.
fn three_vertices(alloc: Global) -> Result<Graph, Fail> {
    let mut builder = GraphBuilder::new(alloc, Limits::standard())?;
    builder.vertex(40)?;
    builder.vertex(4_294_967_295)?;
    builder.vertex(3)?;
    Ok(builder.finish()?)
}

#[test]
fn an_entry_is_put_as_its_line_and_read_again(rt: HostRuntime) -> Result<(), Fail> {
    let graph = three_vertices(rt.alloc())?;
    let rows: [(bool, u32, Datum, &str); 5] = [
        (false, 0, Datum::one(7), "@3\t7"),
        (false, 1, Datum::one(0), "@40\t0"),
        (
            false,
            2,
            Datum::one(u64::MAX),
            "@4294967295\t18446744073709551615",
        ),
        (true, 1, Datum::two(0, 9), "@40\t0\t9"),
        (
            true,
            2,
            Datum::two(u64::MAX, u64::MAX),
            "@4294967295\t18446744073709551615\t18446744073709551615",
        ),
    ];
    for (wide, vertex, datum, line) in rows {
        assert!(rt; vertex < graph.vertices(), "{line}");
        let entry = JournalEntry { vertex, datum };
        let whole = format!(in rt.alloc(); "{line}\n")?;
        let mut buf = [b'x'; 64];
        let len = put_entry(&mut buf, &graph, wide, entry);
        assert_eq!(rt; &buf[..len], whole.as_bytes(), "{line}");
        let mut again = [b'x'; 64];
        let len = JournalText { wide }.put(&mut again, &graph, entry);
        assert_eq!(rt; &again[..len], whole.as_bytes(), "{line}");
        assert_eq!(rt;
            read_entry(&graph, wide, line.as_bytes()),
            Some(entry),
            "{line}"
        );
    }
    Ok(())
}

#[test]
fn other_lines_are_no_entries(rt: HostRuntime) -> Result<(), Fail> {
    let graph = three_vertices(rt.alloc())?;
    let rows: [(bool, &str); 19] = [
        (false, ""),
        (false, "@"),
        (false, "3\t7"),
        (false, "@3"),
        (false, "@3\t"),
        (false, "@\t7"),
        (false, "@3 7"),
        (false, "@3\t7 "),
        (false, "@3\t7\n"),
        (false, "@3\t7\t0"),
        (false, "@03\t7"),
        (false, "@3\t07"),
        (false, "@3\t-7"),
        (false, "@4\t7"),
        (false, "@4294967296\t7"),
        (false, "@3\t18446744073709551616"),
        (true, "@3\t7"),
        (true, "@3\t7\t00"),
        (true, "@3\t7\t1\t1"),
    ];
    for (wide, line) in rows {
        assert_eq!(rt; read_entry(&graph, wide, line.as_bytes()), None, "{line}");
    }
    Ok(())
}
