//! Laws of the core, over the definitions alone. Each function is its contract, and does nothing.
ghost use Rattle.pg_meals.specs.Keeping.{ActsKeep, PreparingKeeps, RunsStand};
ghost use Rattle.pg_meals.specs.Stuck.{NeverStuck};
ghost use Rattle.pg_meals.specs.Passes.{AtMostOnePass};
ghost use Rattle.pg_meals.specs.Signals.{SignalsStay, EntriesRankLast};
ghost use Rattle.pg_meals.specs.Sparing.{GathersSpared, CostsStay};
ghost use Rattle.pg_meals.specs.Carrying.{KeptCanAct, ActsCarry, HalvesCarry, StartIsKept};

use pg_law::{VertexProgram, laws_of};

/// An act whose guard is met keeps what the core promises.
pub fn acts_keep<P: VertexProgram>(program: &P)
    ensures { ActsKeep (P.meaning program.now) }
{
    laws_of(program);
}

/// Preparing keeps it as well.
pub fn preparing_keeps<P: VertexProgram>(program: &P)
    ensures { PreparingKeeps (P.meaning program.now) }
{
    laws_of(program);
}

/// After every list of deeds by any actors, the journal is legal and the core stands for the state
/// after its replay.
pub fn runs_stand<P: VertexProgram>(program: &P)
    ensures { RunsStand (P.meaning program.now) }
{
    laws_of(program);
}

/// A vertex that is signalled stays so until its own entry.
pub fn signals_stay<P: VertexProgram>(program: &P)
    ensures { SignalsStay (P.meaning program.now) }
{
    laws_of(program);
}

/// An entry gives its vertex the largest rank.
pub fn entries_rank_last<P: VertexProgram>(program: &P)
    ensures { EntriesRankLast (P.meaning program.now) }
{
    laws_of(program);
}

/// While no vertex is in hand, the signalled vertex of least rank gets all its forks by one act
/// each.
pub fn never_stuck<P: VertexProgram>(program: &P)
    ensures { NeverStuck (P.meaning program.now) }
{
    laws_of(program);
}

/// Once a fork is asked for, the other end commits at most once before who asked does, unless it
/// took the fork for nothing and gives it back.
pub fn at_most_one_pass<P: VertexProgram>(program: &P)
    ensures { AtMostOnePass (P.meaning program.now) }
{
    laws_of(program);
}

/// With kept gathers, and a program that never answers Clear, each vertex is gathered in full at
/// most once.
pub fn gathers_spared<P: VertexProgram>(program: &P)
    ensures { GathersSpared (P.meaning program.now) }
{
    laws_of(program);
}

/// From the preparing of a vertex to its entry, no deed changes what it takes in calls of gather.
pub fn costs_stay<P: VertexProgram>(program: &P)
    ensures { CostsStay (P.meaning program.now) }
{
    laws_of(program);
}

/// A board whose core keeps its promise can act.
pub fn kept_can_act<P: VertexProgram>(program: &P)
    ensures { KeptCanAct (P.meaning program.now) }
{
    laws_of(program);
}

/// After each of its acts its core keeps the promise.
pub fn acts_carry<P: VertexProgram>(program: &P)
    ensures acts { ActsCarry (P.meaning program.now) }
    ensures halves { HalvesCarry (P.meaning program.now) }
{
    laws_of(program);
}

/// A board at the start keeps it, whose state fits the graph and whose cells are true.
pub fn start_is_kept<P: VertexProgram>(program: &P)
    ensures { StartIsKept (P.meaning program.now) }
{
    laws_of(program);
}
