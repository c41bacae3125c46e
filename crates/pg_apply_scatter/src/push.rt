//! What the masters tell the replicas.
ghost use Rattle.std.specs.Prelude.{◌≢◌, AllPairs};
ghost use Rattle.pg_apply_scatter.specs.Pushing.{ArePushed};

use pg_law::Datum;
use pg_mirrors::MirrorTable;

/// Gives each replica of each listed vertex the listed datum, on every worker.
///
/// `mirrors[w]` has the replicas of the worker `w`. The listed vertices are distinct.
pub fn push_mirrors(applied: &[(u32, Datum)], mirrors: &mut [MirrorTable])
    requires { AllPairs (λ a b. a.0 ≢ b.0) applied.now }
    ensures { ArePushed mirrors.old mirrors.new applied.now }
{
    for w in 0..mirrors.len() {
        mirrors[w].push(applied);
    }
}
