//! What a state without signals means that a program reached from its start.
ghost use Rattle.std.specs.Prelude.{◌≡◌, ◌<◌, ℕ, List, length, true};
ghost use Rattle.pg_graph.specs.Multigraph.{Multigraph, IsMultigraph};
ghost use Rattle.pg_law.specs.declared.values.Datum.{Datum};
ghost use Rattle.pg_law.specs.declared.values.JournalEntry.{JournalEntry};
ghost use Rattle.pg_law.specs.Configuration.{datum_in, is_quiet};
ghost use Rattle.pg_steps.specs.Reached.{after_rounds, after_journal, after_both};
ghost use Rattle.pg_paths.specs.Components.{components};
ghost use Rattle.pg_paths.specs.ShortestPaths.{shortest_paths};
ghost use Rattle.pg_paths.specs.Tight.{HasTree, HasNoZeroWeight, AllLeadBack};
ghost use Rattle.pg_paths.specs.Trees.{tree};
ghost use Rattle.pg_paths.specs.Walks.{HasLeastWeights};
ghost use Rattle.pg_paths.specs.Weak.{HasLeastIds};

/// Where rounds of `Components` leave nothing signalled, and where single executions in any order
/// do, each value is the least id of its vertex's weak component.
pub fn components_find_least_ids()
    ensures rounds { (g : Multigraph) (limit : ℕ) → IsMultigraph g
        → is_quiet g (after_rounds components g limit) ≡ true
        → HasLeastIds g (after_rounds components g limit).values }
    ensures executions { (g : Multigraph) (journal : List JournalEntry) → IsMultigraph g
        → is_quiet g (after_journal components g journal) ≡ true
        → HasLeastIds g (after_journal components g journal).values }
{}

/// After any executions of `Components`, as many rounds as there are vertices leave nothing
/// signalled, and then each value is the least id of its vertex's weak component.
pub fn components_settle()
    ensures quiet { (g : Multigraph) (journal : List JournalEntry) → IsMultigraph g
        → is_quiet g (after_both components g journal (length g.ids)) ≡ true }
    ensures least { (g : Multigraph) (journal : List JournalEntry) → IsMultigraph g
        → HasLeastIds g (after_both components g journal (length g.ids)).values }
{}

/// Where rounds of `Sssp` leave nothing signalled, and where single executions in any order do,
/// each value is the least weight of a walk from the source, and 2^64 - 1 where there is none.
pub fn shortest_paths_find_least_weights()
    ensures rounds { (g : Multigraph) (source limit : ℕ) → IsMultigraph g
        → is_quiet g (after_rounds (shortest_paths source) g limit) ≡ true
        → HasLeastWeights g source (after_rounds (shortest_paths source) g limit).values }
    ensures executions { (g : Multigraph) (source : ℕ) (journal : List JournalEntry)
        → IsMultigraph g → is_quiet g (after_journal (shortest_paths source) g journal) ≡ true
        → HasLeastWeights g source (after_journal (shortest_paths source) g journal).values }
{}

/// Where rounds of `Tree` leave nothing signalled, and where single executions in any order do,
/// each first word is the least weight of a walk from the source. The second word is the least id
/// of a vertex with a tight edge; the source has its own, and a vertex out of reach has 2^64 - 1
/// twice.
pub fn trees_grow_along_tight_edges()
    ensures rounds { (g : Multigraph) (source limit : ℕ) → IsMultigraph g
        → is_quiet g (after_rounds (tree source) g limit) ≡ true
        → HasTree g source (after_rounds (tree source) g limit).values }
    ensures executions { (g : Multigraph) (source : ℕ) (journal : List JournalEntry)
        → IsMultigraph g → is_quiet g (after_journal (tree source) g journal) ≡ true
        → HasTree g source (after_journal (tree source) g journal).values }
{}

/// Where no weight is 0, following second words leads from every vertex in reach to the source.
pub fn trees_lead_to_their_source()
    ensures back { (g : Multigraph) (source : ℕ) (values : List Datum) → IsMultigraph g
        → HasNoZeroWeight g → HasTree g source values → AllLeadBack g source values }
{}

/// The graph alone determines these values: two runs that came to rest agree, in whatever order
/// they executed.
pub fn values_at_rest_agree()
    ensures ids { (g : Multigraph) (a b : List Datum) → HasLeastIds g a → HasLeastIds g b
        → (v : ℕ) → v < length g.ids → (datum_in a v).first ≡ (datum_in b v).first }
    ensures weights { (g : Multigraph) (source : ℕ) (a b : List Datum)
        → HasLeastWeights g source a → HasLeastWeights g source b
        → (v : ℕ) → v < length g.ids → (datum_in a v).first ≡ (datum_in b v).first }
    ensures trees { (g : Multigraph) (source : ℕ) (a b : List Datum)
        → HasTree g source a → HasTree g source b
        → (v : ℕ) → v < length g.ids → datum_in a v ≡ datum_in b v }
{}
