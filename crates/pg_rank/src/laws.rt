//! What a state without signals means that a program reached from its start.
ghost use Rattle.std.specs.Prelude.{◌≡◌, ℕ, List, true};
ghost use Rattle.pg_graph.specs.Multigraph.{Multigraph, IsMultigraph};
ghost use Rattle.pg_law.specs.declared.values.JournalEntry.{JournalEntry};
ghost use Rattle.pg_law.specs.Configuration.{is_quiet};
ghost use Rattle.pg_steps.specs.Reached.{after_rounds, after_journal};
ghost use Rattle.pg_rank.specs.PageRank.{page_rank};
ghost use Rattle.pg_rank.specs.RankEquation.{MeetEquations};

/// Where rounds of `PageRank` with the tolerance 0 leave nothing signalled, and where single
/// executions in any order do, each rank meets its equation. That they ever do isn't said.
pub fn ranks_meet_their_equations()
    ensures rounds { (g : Multigraph) (limit : ℕ) → IsMultigraph g
        → is_quiet g (after_rounds (page_rank 0) g limit) ≡ true
        → MeetEquations g (after_rounds (page_rank 0) g limit).values }
    ensures executions { (g : Multigraph) (journal : List JournalEntry) → IsMultigraph g
        → is_quiet g (after_journal (page_rank 0) g journal) ≡ true
        → MeetEquations g (after_journal (page_rank 0) g journal).values }
{}
