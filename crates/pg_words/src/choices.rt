//! What the options chose so far.
ghost use Rattle.std.specs.Prelude.{◌≡◌, ◌^◌, ◌-◌};
ghost use Rattle.pg_base.specs.Numbers.{number_of};
ghost use Rattle.pg_words.specs.Options.{executing, number_from};

use crate::head::Head;
use crate::job::{CutJob, CutKind, Engine, Job, ProgramName, RunJob};
use crate::names::{CutWord, EngineName, OptionName, ProgramWord, format_named};
use crate::numbers::number_from;
use pg_base::read_number;
use pg_readers::Format;

/// The value of each option, where it stands, and whether each stands that has none.
#[derive(Clone, Copy)]
pub struct Choices {
    pub format: Option<Format>,
    pub workers: Option<u8>,
    pub cut: Option<CutWord>,
    pub seed: Option<u64>,
    pub rounds: Option<u32>,
    pub fuel: Option<u32>,
    pub serial: bool,
    pub virtual_seed: Option<u64>,
    pub source: Option<u32>,
    pub tolerance: Option<u64>,
    pub cache: bool,
}

impl Choices {
    ghost use Rattle.pg_words.specs.Options.{no_choices, stands, is_excluded, admits, with_flag, with_value, engine_of, cut_of, can_run, program_of, run_job, cut_job, job_from};

    /// No option stands.
    pub fn new() -> Choices
        ensures { result ≡ no_choices }
    {
        Choices {
            format: None,
            workers: None,
            cut: None,
            seed: None,
            rounds: None,
            fuel: None,
            serial: false,
            virtual_seed: None,
            source: None,
            tolerance: None,
            cache: false,
        }
    }

    /// Whether the option stands.
    pub fn has(&self, option: OptionName) -> bool
        ensures { result ≡ stands self.now option }
    {
        match option {
            OptionName::Format => self.format.is_some(),
            OptionName::Workers => self.workers.is_some(),
            OptionName::Cut => self.cut.is_some(),
            OptionName::Seed => self.seed.is_some(),
            OptionName::Rounds => self.rounds.is_some(),
            OptionName::Fuel => self.fuel.is_some(),
            OptionName::Serial => self.serial,
            OptionName::Virtual => self.virtual_seed.is_some(),
            OptionName::Source => self.source.is_some(),
            OptionName::Tolerance => self.tolerance.is_some(),
            OptionName::Cache => self.cache,
        }
    }

    /// Whether one stands together with which the option never stands.
    fn excludes(&self, option: OptionName) -> bool
        ensures { result ≡ is_excluded self.now option }
    {
        match option {
            OptionName::Serial => self.virtual_seed.is_some() || self.cache,
            OptionName::Virtual | OptionName::Cache => self.serial,
            _ => false,
        }
    }

    /// Whether the option may be added: it doesn't stand yet and isn't excluded.
    pub fn admits(&self, option: OptionName) -> bool
        ensures { result ≡ admits self.now option }
    {
        !self.has(option) && !self.excludes(option)
    }

    /// These choices and an option more that stands alone, unless a value is to follow it.
    pub fn with_flag(self, option: OptionName) -> Option<Choices>
        ensures { result ≡ with_flag self option }
    {
        match option {
            OptionName::Serial => Some(Choices {
                serial: true,
                ..self
            }),
            OptionName::Cache => Some(Choices {
                cache: true,
                ..self
            }),
            _ => None,
        }
    }

    /// These choices and an option more, unless the word is no value of it.
    pub fn with_value(self, option: OptionName, word: &str) -> Option<Choices>
        ensures { result ≡ with_value self option word.now }
    {
        let mut more = self;
        match option {
            OptionName::Format => more.format = Some(format_named(word)?),
            OptionName::Workers => more.workers = Some(read_workers(word)?),
            OptionName::Cut => more.cut = Some(CutWord::named(word)?),
            OptionName::Seed => more.seed = Some(read_number(word.as_bytes(), u64::MAX)?),
            OptionName::Rounds => more.rounds = Some(read_u32(word)?),
            OptionName::Fuel => more.fuel = Some(read_u32(word)?),
            OptionName::Serial => return None,
            OptionName::Virtual => more.virtual_seed = Some(read_number(
                word.as_bytes(),
                u64::MAX,
            )?),
            OptionName::Source => more.source = Some(read_u32(word)?),
            OptionName::Tolerance => more.tolerance = Some(read_number(word.as_bytes(), u64::MAX)?),
            OptionName::Cache => return None,
        }
        Some(more)
    }

    /// The engine with its limit.
    fn engine(&self, name: EngineName) -> Engine
        ensures { result ≡ engine_of name self.now }
    {
        match name {
            EngineName::Sync => Engine::Sync {
                rounds: self.rounds.unwrap_or(1_000_000),
            },
            EngineName::Async => executing(self.fuel.unwrap_or(1_000_000_000), self.virtual_seed),
        }
    }

    /// The cut with its seed, where it has one.
    fn cut(&self) -> CutKind
        ensures { result ≡ cut_of self.now }
    {
        match self.cut.unwrap_or(CutWord::Random) {
            CutWord::Random => CutKind::Random {
                seed: self.seed.unwrap_or(0),
            },
            CutWord::Oblivious => CutKind::Oblivious,
            CutWord::Coordinated => CutKind::Coordinated,
        }
    }

    /// Whether the engine can run: `async` does by `--serial` or `--virtual`.
    fn can_run(&self, name: EngineName) -> bool
        ensures { result ≡ can_run name self.now }
    {
        match name {
            EngineName::Sync => true,
            EngineName::Async => self.serial || self.virtual_seed.is_some(),
        }
    }

    /// The program with its number, unless its source is missing.
    fn program(&self, word: ProgramWord) -> Option<ProgramName>
        ensures { result ≡ program_of word self.now }
    {
        match word {
            ProgramWord::Components => Some(ProgramName::Components),
            ProgramWord::Colour => Some(ProgramName::Colour),
            ProgramWord::Sssp => Some(ProgramName::Sssp {
                source: self.source?,
            }),
            ProgramWord::Rank => Some(ProgramName::Rank {
                tolerance: self.tolerance.unwrap_or(0),
            }),
            ProgramWord::Tree => Some(ProgramName::Tree {
                source: self.source?,
            }),
        }
    }

    /// A program by an engine, unless its source is missing.
    fn run_job(&self, engine: EngineName, program: ProgramWord) -> Option<RunJob>
        ensures { result ≡ run_job engine program self.now }
    {
        Some(RunJob {
            engine: self.engine(engine),
            program: self.program(program)?,
            format: self.format.unwrap_or(Format::Snap),
            workers: self.workers.unwrap_or(1),
            kind: self.cut(),
            cache: self.cache,
        })
    }

    /// The cut by itself.
    fn cut_job(&self) -> CutJob
        ensures { result ≡ cut_job self.now }
    {
        CutJob {
            format: self.format.unwrap_or(Format::Snap),
            workers: self.workers.unwrap_or(1),
            kind: self.cut(),
        }
    }

    /// The job that these words and choices name, unless a required option is missing.
    pub fn job(&self, head: Head) -> Option<Job>
        ensures { result ≡ job_from head self.now }
    {
        match head {
            Head::Run(engine, program) if self.can_run(engine) => {
                Some(Job::Run(self.run_job(engine, program)?))
            }
            Head::Run(_, _) => None,
            Head::Check(engine, program) => Some(Job::Check(self.run_job(engine, program)?)),
            Head::Cut => Some(Job::Cut(self.cut_job())),
        }
    }
}

/// Executions one after another: by a seed where it has one, or by the serial machine.
fn executing(fuel: u32, seed: Option<u64>) -> Engine
    ensures { result ≡ executing fuel seed }
{
    match seed {
        None => Engine::Serial { fuel },
        Some(seed) => Engine::Virtual { fuel, seed },
    }
}

/// A number of workers, 1 to 64.
fn read_workers(word: &str) -> Option<u8>
    ensures { result ≡ number_from 1 64 word.now }
{
    Some(number_from(word, 1, 64)? as u8)
}

/// A number below 2^32.
fn read_u32(word: &str) -> Option<u32>
    ensures { result ≡ number_of (2 ^ 32 - 1) word.now }
{
    Some(read_number(word.as_bytes(), u32::MAX as u64)? as u32)
}
