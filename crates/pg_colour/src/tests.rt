//! Two vertices with an edge between them, and sets of colours.
ghost use Rattle.std.specs.Prelude.{◌≡◌};
ghost use Rattle.pg_law.specs.Laws.{IsNear};
ghost use Rattle.pg_law.specs.Values.{one};

use super::*;
use pg_graph::{EdgeInfo, Side, VertexInfo};
use pg_law::{Applied, Datum, Delta, Near, Scattered, Started, Steps, VertexProgram, laws_of};
use std::alloc::{AllocError, Global};
use std::marker::Brand;

const VERTEX: VertexInfo = VertexInfo {
    id: 1,
    in_degree: 1,
    out_degree: 1,
};

fn near(side: Side, centre: u64, other: u64) -> Near
    ensures edge { result.edge ≡ record { src = VERTEX; dst = VERTEX; weight = 1 } }
    ensures word { result.word ≡ 0 }
    ensures centre { result.centre ≡ one centre }
    ensures other { result.other ≡ one other }
{
    Near {
        side,
        edge: EdgeInfo {
            src: VERTEX,
            dst: VERTEX,
            weight: 1,
        },
        word: 0,
        centre: Datum::one(centre),
        other: Datum::one(other),
    }
}

/// What a vertex becomes that has two neighbours.
fn applied<P: VertexProgram>(
    alloc: Global,
    program: &P,
    first: Near,
    second: Near,
) -> Result<Applied<P::Carry>, AllocError>
    requires first { IsNear (P.meaning program.now) first }
    requires second { IsNear (P.meaning program.now) second }
    requires message { (P.meaning program.now).IsMessage 0 }
{
    laws_of(program);
    let mut steps = Steps::<Brand>::new();
    let a = program.gather(alloc, first, &mut steps)?;
    let b = program.gather(alloc, second, &mut steps)?;
    let sum = program.sum(alloc, program.empty(alloc)?, &a)?;
    let sum = program.sum(alloc, sum, &b)?;
    let acc = program.copy(alloc, &sum)?;
    let message = program.combine(0, 0);
    Ok(program.apply(VERTEX, first.centre, &acc, message))
}

fn scattered<P: VertexProgram>(
    alloc: Global,
    program: &P,
    near: Near,
    carry: P::Carry,
) -> Result<Scattered<P::Acc>, AllocError>
    requires near { IsNear (P.meaning program.now) near }
    requires carry { (P.meaning program.now).IsCarry carry }
{
    program.scatter(alloc, near, carry)
}

fn started<P: VertexProgram>(program: &P) -> Started {
    program.start(VERTEX)
}

#[test]
fn a_vertex_leaves_its_neighbours_colours(rt: HostRuntime) -> Result<(), AllocError> {
    let program = Colour::new();
    let start = started(&program);
    assert_eq!(rt; start.datum, Datum::one(0));
    assert_eq!(rt; start.message, Some(0));
    for (own, left, right, want) in [(0, 0, 0, 1), (0, 1, 0, 2), (7, 0, 1, 7), (1, 1, 2, 0)] {
        let first = near(Side::Source, own, left);
        let second = near(Side::Target, own, right);
        let now = applied(rt.alloc(), &program, first, second)?;
        assert_eq!(rt;
            now.datum,
            Datum::one(want),
            "{own} between {left} and {right}"
        );
    }
    Ok(())
}

#[test]
fn a_neighbour_of_the_same_colour_is_woken(rt: HostRuntime) -> Result<(), AllocError> {
    let same = scattered(rt.alloc(), &Colour::new(), near(Side::Source, 1, 1), ())?;
    assert_eq!(rt; same.signal, Some(0));
    assert!(rt; matches!(same.delta, Delta::Clear));
    let other = scattered(rt.alloc(), &Colour::new(), near(Side::Target, 1, 0), ())?;
    assert_eq!(rt; other.signal, None);
    Ok(())
}
