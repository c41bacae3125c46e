//! Laws of the definitions: a check confirms the right texts, and no others.
ghost use Rattle.pg_check.specs.Right.{ConfirmsRight, ConfirmedIsRight};

use pg_law::VertexProgram;

/// Every report of what a run may leave is confirmed: that of the rounds, and that of each legal
/// journal that fits the fuel, in whatever order it executed.
pub fn right_texts_are_confirmed<P: VertexProgram>(_program: &P)
    ensures { ConfirmsRight (P.meaning _program.now) }
{}

/// A report that is confirmed is of what a run may leave: that of the rounds, or that of a legal
/// journal that fits the fuel, with exactly what its replay gives.
pub fn confirmed_texts_are_right<P: VertexProgram>(_program: &P)
    ensures { ConfirmedIsRight (P.meaning _program.now) }
{}
