//! The vertex at which paths begin.
ghost use Rattle.std.specs.Prelude.{◌≡◌, None, Some, IfErr, IsErrOf, OnOk};
ghost use Rattle.pg_main.specs.Jobs.{source_of, absent_in};

use crate::refusal::Refusal;
use pg_graph::Graph;
use pg_words::ProgramName;

/// Refuses the source of a program that the graph lacks.
pub fn find_source(program: ProgramName, graph: &Graph) -> Result<(), Refusal>
    ensures there { OnOk result (absent_in graph.now (source_of program) ≡ None) }
    ensures absent { IfErr result (λ refusal. (id : _)
        × (refusal ≡ Refusal.NoVertex id) × (absent_in graph.now (source_of program) ≡ Some id)) }
{
    match program {
        ProgramName::Components | ProgramName::Colour | ProgramName::Rank { .. } => Ok(()),
        ProgramName::Sssp { source } | ProgramName::Tree { source } => find(source, graph),
    }
}

/// Refuses an id that the graph lacks.
fn find(source: u32, graph: &Graph) -> Result<(), Refusal>
    ensures there { OnOk result (absent_in graph.now (Some source) ≡ None) }
    ensures absent { IfErr result (λ refusal. (id : _)
        × (refusal ≡ Refusal.NoVertex id) × (absent_in graph.now (Some source) ≡ Some id)) }
{
    match graph.number_of(source) {
        Some(_) => Ok(()),
        None => Err(Refusal::NoVertex { id: source }),
    }
}
