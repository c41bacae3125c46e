//! Laws of replicas.
ghost use Rattle.pg_mirrors.specs.Mirrors.{ReplicasAreInSpans};

/// A vertex has a replica exactly where its span has the worker.
pub fn replicas_are_in_spans()
    ensures { ReplicasAreInSpans }
{}
