//! What quiescence means, and the definitions computed on small texts.
ghost use Rattle.std.specs.Prelude.{◌≡◌, List, [], None};
ghost use Rattle.pg_base.specs.Limits.{standard_limits};
ghost use Rattle.pg_graph.specs.Multigraph.{multigraph};
ghost use Rattle.pg_readers.specs.declared.line.Format.TheVariants.{Snap};
ghost use Rattle.pg_input.specs.Reading.{IsGraphOfText, first_event};
ghost use Rattle.pg_law.specs.declared.values.JournalEntry.{JournalEntry};
ghost use Rattle.pg_law.specs.declared.values.End.TheVariants.{Quiescent};
ghost use Rattle.pg_graph.specs.Multigraph.{Multigraph, IsMultigraph};
ghost use Rattle.pg_words.specs.declared.job.RunJob.{RunJob};
ghost use Rattle.pg_main.specs.Jobs.{job_outcome, job_text};
ghost use Rattle.pg_main.specs.Meanings.{Means};
ghost use Rattle.pg_main.specs.Rows.{plain_job, path_text, path_graph, path_report, empty_report};

use pg_colour::laws::colourings_are_proper;
use pg_paths::laws::{
    components_find_least_ids, shortest_paths_find_least_weights, trees_grow_along_tight_edges,
    trees_lead_to_their_source,
};
use pg_rank::laws::ranks_meet_their_equations;

/// The path of four vertices.
pub fn the_path_of_four()
    ensures accepted { first_event Snap standard_limits path_text ≡ None }
    ensures graph { IsGraphOfText Snap standard_limits path_text path_graph }
    ensures report { job_text plain_job path_graph [] ≡ path_report }
{}

/// No text has a graph without vertices.
pub fn the_empty_text()
    ensures accepted { first_event Snap standard_limits [] ≡ None }
    ensures graph { IsGraphOfText Snap standard_limits [] (multigraph [] [] 0) }
    ensures report { job_text plain_job (multigraph [] [] 0) [] ≡ empty_report }
{}

/// Where a job leaves nothing signalled, its values mean what the program is for.
pub fn what_quiescence_means()
    ensures { (job : RunJob) (g : Multigraph) (journal : List JournalEntry) → IsMultigraph g
        → (job_outcome job g journal).last.end ≡ Quiescent
        → Means job.program g (job_outcome job g journal).state.values }
{
    components_find_least_ids();
    colourings_are_proper();
    shortest_paths_find_least_weights();
    ranks_meet_their_equations();
    trees_grow_along_tight_edges();
    trees_lead_to_their_source();
}
