//! What a state without signals means that a colouring reached from its start.
ghost use Rattle.std.specs.Prelude.{◌≡◌, ℕ, List, true};
ghost use Rattle.pg_graph.specs.Multigraph.{Multigraph, IsMultigraph};
ghost use Rattle.pg_law.specs.declared.values.JournalEntry.{JournalEntry};
ghost use Rattle.pg_law.specs.Configuration.{is_quiet};
ghost use Rattle.pg_steps.specs.Reached.{after_rounds, after_journal};
ghost use Rattle.pg_colour.specs.Colouring.{colouring};
ghost use Rattle.pg_colour.specs.Proper.{IsProper};

/// Where rounds of `Colour` leave nothing signalled, and where single executions in any order do,
/// the ends of every edge have two colours. That rounds ever do isn't said.
pub fn colourings_are_proper()
    ensures rounds { (g : Multigraph) (limit : ℕ) → IsMultigraph g
        → is_quiet g (after_rounds colouring g limit) ≡ true
        → IsProper g (after_rounds colouring g limit).values }
    ensures executions { (g : Multigraph) (journal : List JournalEntry) → IsMultigraph g
        → is_quiet g (after_journal colouring g journal) ≡ true
        → IsProper g (after_journal colouring g journal).values }
{}
