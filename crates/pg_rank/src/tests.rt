//! The ranks of three vertices: 1 leads to 2 and 3, and 2 leads to 3.
ghost use Rattle.std.specs.Prelude.{◌≡◌};
ghost use Rattle.pg_law.specs.Laws.{IsNear};
ghost use Rattle.pg_law.specs.Values.{one};

use super::*;
use pg_graph::{EdgeInfo, Side, VertexInfo};
use pg_law::{Applied, Datum, Delta, Near, Scattered, Started, Steps, VertexProgram, laws_of};
use std::alloc::{AllocError, Global};
use std::marker::Brand;

const ONE: VertexInfo = VertexInfo {
    id: 1,
    in_degree: 0,
    out_degree: 2,
};

const TWO: VertexInfo = VertexInfo {
    id: 2,
    in_degree: 1,
    out_degree: 1,
};

const THREE: VertexInfo = VertexInfo {
    id: 3,
    in_degree: 2,
    out_degree: 0,
};

fn near(side: Side, src: VertexInfo, dst: VertexInfo, centre: u64, other: u64) -> Near
    ensures edge { result.edge ≡ record { src = src; dst = dst; weight = 1 } }
    ensures word { result.word ≡ 0 }
    ensures centre { result.centre ≡ one centre }
    ensures other { result.other ≡ one other }
{
    Near {
        side,
        edge: EdgeInfo {
            src,
            dst,
            weight: 1,
        },
        word: 0,
        centre: Datum::one(centre),
        other: Datum::one(other),
    }
}

/// What the target of two edges becomes.
fn applied<P: VertexProgram>(
    alloc: Global,
    program: &P,
    ins: (Near, Near),
) -> Result<Applied<P::Carry>, AllocError>
    requires first { IsNear (P.meaning program.now) ins.0 }
    requires second { IsNear (P.meaning program.now) ins.1 }
    requires message { (P.meaning program.now).IsMessage 0 }
{
    laws_of(program);
    let mut steps = Steps::<Brand>::new();
    let first = program.gather(alloc, ins.0, &mut steps)?;
    let second = program.gather(alloc, ins.1, &mut steps)?;
    let sum = program.sum(alloc, program.empty(alloc)?, &first)?;
    let sum = program.sum(alloc, sum, &second)?;
    let acc = program.copy(alloc, &sum)?;
    let message = program.combine(0, 0);
    Ok(program.apply(ins.0.edge.dst, ins.0.centre, &acc, message))
}

fn scattered<P: VertexProgram>(
    alloc: Global,
    program: &P,
    near: Near,
    carry: P::Carry,
) -> Result<Scattered<P::Acc>, AllocError>
    requires near { IsNear (P.meaning program.now) near }
    requires carry { (P.meaning program.now).IsCarry carry }
{
    program.scatter(alloc, near, carry)
}

fn started<P: VertexProgram>(program: &P) -> Started {
    program.start(ONE)
}

#[test]
fn ranks_move_along_edges(rt: HostRuntime) -> Result<(), AllocError> {
    let exact = PageRank::new(0);
    let start = started(&exact);
    assert_eq!(rt; start.datum, Datum::one(UNIT));
    assert_eq!(rt; start.message, Some(0));
    let from_one = near(Side::Target, ONE, THREE, UNIT, UNIT);
    let from_two = near(Side::Target, TWO, THREE, UNIT, UNIT);
    let three = applied(rt.alloc(), &exact, (from_one, from_two))?;
    assert_eq!(rt; three.datum, Datum::one(1425000000));
    assert_eq!(rt; three.carry.share, 0);
    assert!(rt; three.carry.above);
    let rough = PageRank::new(1000000000000);
    assert!(rt;
        !applied(rt.alloc(), &rough, (from_one, from_two))?
            .carry
            .above
    );
    Ok(())
}

#[test]
fn a_loss_is_handed_on_modulo_a_word(rt: HostRuntime) -> Result<(), AllocError> {
    let program = PageRank::new(0);
    let from_one = near(Side::Target, ONE, TWO, UNIT, UNIT);
    let nothing = near(Side::Target, ONE, TWO, UNIT, 0);
    let two = applied(rt.alloc(), &program, (from_one, nothing))?;
    assert_eq!(rt; two.datum, Datum::one(575000000));
    let leaves = near(Side::Source, TWO, THREE, 575000000, UNIT);
    let told = scattered(rt.alloc(), &program, leaves, two.carry)?;
    assert_eq!(rt; told.signal, Some(0));
    assert!(rt; matches!(told.delta, Delta::Add(18446744073284551616)));
    Ok(())
}
