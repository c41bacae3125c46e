//! Each program, called through the trait on graphs whose answers are known.
ghost use Rattle.std.specs.Prelude.{◌≡◌, ◌<◌, ◌^◌};
ghost use Rattle.pg_law.specs.Laws.{IsNear};

use super::*;
use pg_graph::{EdgeInfo, Side, VertexInfo};
use pg_law::{Datum, Delta, Near, Scattered, Steps, VertexProgram, laws_of};
use std::alloc::{AllocError, Global};
use std::marker::Brand;

/// A vertex with one edge in and one out.
fn vertex(id: u32) -> VertexInfo
    ensures { result ≡ record { id = id; in_degree = 1; out_degree = 1 } }
{
    VertexInfo {
        id,
        in_degree: 1,
        out_degree: 1,
    }
}

/// An edge of this weight from one id to another, as the end at this side sees it.
fn near(side: Side, ids: (u32, u32), weight: u32, centre: Datum, other: Datum) -> Near
    ensures src { result.edge.src ≡ record { id = ids.0; in_degree = 1; out_degree = 1 } }
    ensures dst { result.edge.dst ≡ record { id = ids.1; in_degree = 1; out_degree = 1 } }
    ensures weight { result.edge.weight ≡ weight }
    ensures word { result.word ≡ 0 }
    ensures centre { result.centre ≡ centre }
    ensures other { result.other ≡ other }
{
    Near {
        side,
        edge: EdgeInfo {
            src: vertex(ids.0),
            dst: vertex(ids.1),
            weight,
        },
        word: 0,
        centre,
        other,
    }
}

/// What the target of two edges becomes, and what it scatters over a third.
fn execute<P: VertexProgram>(
    alloc: Global,
    program: &P,
    ins: (Near, Near),
    out: Near,
    message: u64,
) -> Result<(Datum, Scattered<P::Acc>), AllocError>
    requires first { IsNear (P.meaning program.now) ins.0 }
    requires second { IsNear (P.meaning program.now) ins.1 }
    requires out { IsNear (P.meaning program.now) out }
    requires message { (P.meaning program.now).IsMessage message }
{
    laws_of(program);
    let mut steps = Steps::<Brand>::new();
    let first = program.gather(alloc, ins.0, &mut steps)?;
    let second = program.gather(alloc, ins.1, &mut steps)?;
    let sum = program.sum(alloc, program.empty(alloc)?, &first)?;
    let sum = program.sum(alloc, sum, &second)?;
    let acc = program.copy(alloc, &sum)?;
    let message = program.combine(message, message);
    let applied = program.apply(out.edge.src, ins.0.centre, &acc, message);
    let out = Near {
        centre: applied.datum,
        ..out
    };
    Ok((applied.datum, program.scatter(alloc, out, applied.carry)?))
}

#[test]
fn the_greatest_word_ends_all_lengths(rt: HostRuntime) {
    for (length, weight, want) in [
        (0, 5, 5),
        (u64::MAX - 6, 5, u64::MAX - 1),
        (u64::MAX - 5, 5, u64::MAX),
        (u64::MAX, 0, u64::MAX),
    ] {
        assert_eq!(rt; plus(length, weight), want, "at {length} and {weight}");
    }
}

#[test]
fn a_path_of_two_greatest_weights(rt: HostRuntime) -> Result<(), AllocError> {
    let program = Sssp::new(1);
    let (none, zero) = (Datum::one(u64::MAX), Datum::one(0));
    let weight = u32::MAX;
    let enters = near(Side::Target, (1, 2), weight, none, zero);
    let leaves = near(Side::Source, (2, 3), weight, none, none);
    let (datum, told) = execute(rt.alloc(), &program, (enters, enters), leaves, 4294967295)?;
    assert_eq!(rt; datum, Datum::one(4294967295));
    assert_eq!(rt; told.signal, Some(8589934590));
    assert!(rt; matches!(told.delta, Delta::Add(8589934590)));
    Ok(())
}

#[test]
fn a_label_comes_along_a_path(rt: HostRuntime) -> Result<(), AllocError> {
    let (one, two, three) = (Datum::one(1), Datum::one(2), Datum::one(3));
    let before = near(Side::Target, (1, 2), 1, two, one);
    let behind = near(Side::Source, (2, 3), 1, two, three);
    let (datum, told) = execute(rt.alloc(), &Components::new(), (before, behind), behind, 2)?;
    assert_eq!(rt; datum, one);
    assert_eq!(rt; told.signal, Some(1));
    assert!(rt; matches!(told.delta, Delta::Add(1)));
    Ok(())
}

#[test]
fn of_two_paths_the_smaller_id_stands_before(rt: HostRuntime) -> Result<(), AllocError> {
    let program = Tree::new(1);
    let none = Datum::two(u64::MAX, u64::MAX);
    let left = near(Side::Target, (3, 4), 1, none, Datum::two(1, 1));
    let right = near(Side::Target, (2, 4), 1, none, Datum::two(1, 1));
    let leaves = near(Side::Source, (4, 5), 1, none, none);
    let (datum, told) = execute(rt.alloc(), &program, (left, right), leaves, 2)?;
    assert_eq!(rt; datum, Datum::two(2, 2));
    assert_eq!(rt; told.signal, Some(3));
    let back = near(Side::Target, (2, 1), 1, none, none);
    let leaves = near(Side::Source, (1, 2), 5, none, none);
    let (datum, told) = execute(rt.alloc(), &program, (back, back), leaves, 0)?;
    assert_eq!(rt; datum, Datum::two(0, 1));
    assert_eq!(rt; told.signal, Some(5));
    Ok(())
}

fn started<P: VertexProgram>(program: &P, id: u32) -> (Datum, Option<u64>) {
    let started = program.start(vertex(id));
    (started.datum, started.message)
}

#[test]
fn the_source_starts_alone(rt: HostRuntime) {
    let none = Datum::two(u64::MAX, u64::MAX);
    assert_eq!(rt; started(&Sssp::new(1), 1), (Datum::one(u64::MAX), Some(0)));
    assert_eq!(rt; started(&Sssp::new(1), 2), (Datum::one(u64::MAX), None));
    assert_eq!(rt; started(&Tree::new(1), 1), (none, Some(0)));
    assert_eq!(rt; started(&Tree::new(1), 2), (none, None));
    assert_eq!(rt; started(&Components::new(), 7), (Datum::one(7), Some(7)));
}
