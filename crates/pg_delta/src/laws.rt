//! Laws of kept gathers.
ghost use Rattle.pg_delta.specs.Truth.{CellsStayTrue};
ghost use Rattle.pg_delta.specs.Leading.{DeltasLead};

use pg_law::{VertexProgram, laws_of};

/// A cell that is true of the gather of its vertex stays so under each call.
pub fn cells_stay_true<P: VertexProgram>(program: &P)
    ensures { CellsStayTrue (P.meaning program.now) }
{
    laws_of(program);
}

/// What leads from the old to the new gather over each edge leads so over all of them.
pub fn deltas_lead<P: VertexProgram>(program: &P)
    ensures { DeltasLead (P.meaning program.now) }
{
    laws_of(program);
}
