//! The first words, as long as words before the options are missing.
ghost use Rattle.std.specs.Prelude.{◌≡◌};

use crate::head::Head;
use crate::names::{EngineName, FirstWord, ProgramWord};

/// What stands before the options, where words are missing there.
#[derive(Clone, Copy)]
pub enum Lead {
    /// No word.
    Start,
    /// `check`.
    Check,
    /// An engine.
    Run(EngineName),
    /// `check` and an engine.
    CheckBy(EngineName),
}

/// What a word more leads to.
#[derive(Clone, Copy)]
pub enum Led {
    /// More words are missing.
    Lead(Lead),
    /// Options may follow.
    Head(Head),
}

impl FirstWord {
    ghost use Rattle.pg_words.specs.Reading.{led_first};

    /// What the first word leads to.
    fn leads(self) -> Led
        ensures { result ≡ led_first self }
    {
        match self {
            FirstWord::Engine(engine) => Led::Lead(Lead::Run(engine)),
            FirstWord::Check => Led::Lead(Lead::Check),
            FirstWord::Cut => Led::Head(Head::Cut),
        }
    }
}

impl Lead {
    ghost use Rattle.pg_words.specs.Reading.{led};

    /// What stands with a word more, unless the word may not follow.
    pub fn with(self, word: &str) -> Option<Led>
        ensures { result ≡ led self word.now }
    {
        Some(match self {
            Lead::Start => FirstWord::named(word)?.leads(),
            Lead::Check => Led::Lead(Lead::CheckBy(EngineName::named(word)?)),
            Lead::Run(engine) => Led::Head(Head::Run(engine, ProgramWord::named(word)?)),
            Lead::CheckBy(engine) => Led::Head(Head::Check(engine, ProgramWord::named(word)?)),
        })
    }
}
