//! Words that are names: a row each.
ghost use Rattle.std.specs.Prelude.{◌≡◌};
ghost use Rattle.pg_words.specs.Names.{named, engines, engine_word, first_words, first_word, programs, program_word, formats, format_word, cuts, cut_word, options, option_word, has_rounds, has_fuel, has_source, has_tolerance, has_cache};

use pg_readers::Format;

/// An engine by its word.
#[derive(Clone, Copy, Debug, PartialEq, Eq)]
pub enum EngineName {
    /// All signalled vertices at once, round after round.
    Sync,
    /// One signalled vertex after another, as a journal tells.
    Async,
}

impl EngineName {
    /// The engine of a word.
    pub fn named(word: &str) -> Option<EngineName>
        ensures { result ≡ named engine_word engines word.now }
    {
        if word == "sync" {
            Some(EngineName::Sync)
        } else if word == "async" {
            Some(EngineName::Async)
        } else {
            None
        }
    }

    /// Whether it works in rounds.
    pub fn has_rounds(self) -> bool
        ensures { result ≡ has_rounds self }
    {
        matches!(self, EngineName::Sync)
    }

    /// Whether it executes vertex by vertex.
    pub fn has_fuel(self) -> bool
        ensures { result ≡ has_fuel self }
    {
        matches!(self, EngineName::Async)
    }
}

/// The first word of a job.
#[derive(Clone, Copy)]
pub enum FirstWord {
    /// That of an engine, which runs.
    Engine(EngineName),
    /// `check`, and the words of a run follow.
    Check,
    /// `cut`, and options follow.
    Cut,
}

impl FirstWord {
    /// The first word that this is.
    pub fn named(word: &str) -> Option<FirstWord>
        ensures { result ≡ named first_word first_words word.now }
    {
        if word == "sync" {
            Some(FirstWord::Engine(EngineName::Sync))
        } else if word == "async" {
            Some(FirstWord::Engine(EngineName::Async))
        } else if word == "check" {
            Some(FirstWord::Check)
        } else if word == "cut" {
            Some(FirstWord::Cut)
        } else {
            None
        }
    }
}

/// A program by its word.
#[derive(Clone, Copy)]
pub enum ProgramWord {
    Components,
    Colour,
    Sssp,
    Rank,
    Tree,
}

impl ProgramWord {
    /// The program of a word.
    pub fn named(word: &str) -> Option<ProgramWord>
        ensures { result ≡ named program_word programs word.now }
    {
        if word == "components" {
            Some(ProgramWord::Components)
        } else if word == "colour" {
            Some(ProgramWord::Colour)
        } else if word == "sssp" {
            Some(ProgramWord::Sssp)
        } else if word == "rank" {
            Some(ProgramWord::Rank)
        } else if word == "tree" {
            Some(ProgramWord::Tree)
        } else {
            None
        }
    }

    /// Whether its paths begin at a source.
    pub fn has_source(self) -> bool
        ensures { result ≡ has_source self }
    {
        matches!(self, ProgramWord::Sssp | ProgramWord::Tree)
    }

    /// Whether changes up to a tolerance are not told.
    pub fn has_tolerance(self) -> bool
        ensures { result ≡ has_tolerance self }
    {
        matches!(self, ProgramWord::Rank)
    }

    /// Whether its gathers can be kept: what is scattered says how a gather changes.
    pub fn has_cache(self) -> bool
        ensures { result ≡ has_cache self }
    {
        !matches!(self, ProgramWord::Colour)
    }
}

/// A cut by its word.
#[derive(Clone, Copy)]
pub enum CutWord {
    Random,
    Oblivious,
    Coordinated,
}

impl CutWord {
    /// The cut of a word.
    pub fn named(word: &str) -> Option<CutWord>
        ensures { result ≡ named cut_word cuts word.now }
    {
        if word == "random" {
            Some(CutWord::Random)
        } else if word == "oblivious" {
            Some(CutWord::Oblivious)
        } else if word == "coordinated" {
            Some(CutWord::Coordinated)
        } else {
            None
        }
    }
}

/// An option by its word.
#[derive(Clone, Copy)]
pub enum OptionName {
    Format,
    Workers,
    Cut,
    Seed,
    Rounds,
    Fuel,
    Serial,
    Virtual,
    Source,
    Tolerance,
    Cache,
}

impl OptionName {
    /// The option of a word.
    pub fn named(word: &str) -> Option<OptionName>
        ensures { result ≡ named option_word options word.now }
    {
        if word == "--format" {
            Some(OptionName::Format)
        } else if word == "--workers" {
            Some(OptionName::Workers)
        } else if word == "--cut" {
            Some(OptionName::Cut)
        } else if word == "--seed" {
            Some(OptionName::Seed)
        } else if word == "--rounds" {
            Some(OptionName::Rounds)
        } else if word == "--fuel" {
            Some(OptionName::Fuel)
        } else if word == "--serial" {
            Some(OptionName::Serial)
        } else if word == "--virtual" {
            Some(OptionName::Virtual)
        } else if word == "--source" {
            Some(OptionName::Source)
        } else if word == "--tolerance" {
            Some(OptionName::Tolerance)
        } else if word == "--cache" {
            Some(OptionName::Cache)
        } else {
            None
        }
    }
}

/// The format of a word.
pub fn format_named(word: &str) -> Option<Format>
    ensures { result ≡ named format_word formats word.now }
{
    if word == "snap" {
        Some(Format::Snap)
    } else if word == "tsv" {
        Some(Format::Tsv)
    } else if word == "adj" {
        Some(Format::Adj)
    } else {
        None
    }
}
