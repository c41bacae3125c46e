//! The words before the options.
ghost use Rattle.std.specs.Prelude.{◌≡◌};
ghost use Rattle.pg_words.specs.Options.{takes, run_takes, cut_takes};

use crate::names::{EngineName, OptionName, ProgramWord};

/// The words before the options: a row for each kind of job.
#[derive(Clone, Copy)]
pub enum Head {
    /// A program by an engine.
    Run(EngineName, ProgramWord),
    /// `check`, and the words of the run whose report is checked.
    Check(EngineName, ProgramWord),
    /// `cut`.
    Cut,
}

impl Head {
    /// Whether an option may stand behind these words.
    pub fn takes(self, option: OptionName) -> bool
        ensures { result ≡ takes self option }
    {
        match self {
            Head::Run(engine, program) => run_takes(engine, program, option),
            Head::Check(engine, program) => run_takes(engine, program, option),
            Head::Cut => cut_takes(option),
        }
    }
}

/// Whether an option may stand behind a program by an engine, that runs or whose report is checked.
fn run_takes(engine: EngineName, program: ProgramWord, option: OptionName) -> bool
    ensures { result ≡ run_takes engine program option }
{
    match option {
        OptionName::Format => true,
        OptionName::Workers => true,
        OptionName::Cut => true,
        OptionName::Seed => true,
        OptionName::Rounds => engine.has_rounds(),
        OptionName::Fuel => engine.has_fuel(),
        OptionName::Serial => engine.has_fuel(),
        OptionName::Virtual => engine.has_fuel(),
        OptionName::Source => program.has_source(),
        OptionName::Tolerance => program.has_tolerance(),
        OptionName::Cache => program.has_cache(),
    }
}

/// Whether an option may stand behind `cut`.
fn cut_takes(option: OptionName) -> bool
    ensures { result ≡ cut_takes option }
{
    matches!(
        option,
        OptionName::Format | OptionName::Workers | OptionName::Cut | OptionName::Seed
    )
}
