//! Laws of the shares of a cut.
ghost use Rattle.pg_gather.specs.Shares.{SharesAreReadable, PartsAreFresh};

use pg_law::{VertexProgram, laws_of};

/// The store and the replicas of one worker of a cut can be read by that worker alone.
pub fn shares_are_readable<P: VertexProgram>(program: &P)
    ensures { SharesAreReadable (P.meaning program.now) }
{}

/// The partial sums of all workers of a cut, merged, are the fresh gathers of the wanted vertices.
pub fn parts_are_fresh<P: VertexProgram>(program: &P)
    ensures { PartsAreFresh (P.meaning program.now) }
{
    laws_of(program);
}
