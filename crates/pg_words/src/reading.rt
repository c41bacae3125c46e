//! Words read from left to right.
ghost use Rattle.std.specs.Prelude.{◌≡◌, None, Some, map, IfOk, IfErr, OnErr, string_bytes};
ghost use Rattle.pg_words.specs.Jobs.{IsJob, IsPlace};
ghost use Rattle.pg_words.specs.Options.{with_flag};
ghost use Rattle.pg_words.specs.Workers.{HasWorkers};
ghost use Rattle.pg_words.specs.Reading.{standing, is_free, behind_option, next, job_at, job_of};

use crate::choices::Choices;
use crate::head::Head;
use crate::job::Job;
use crate::lead::{Lead, Led};
use crate::names::OptionName;

/// Words that name no job.
#[derive(Clone, Copy, Debug, PartialEq, Eq)]
pub struct Usage {
    /// Counted from 1: so many words begin no job, and fewer begin one. Where all of them begin
    /// one, their number and 1.
    pub place: u32,
}

/// What stands after words that begin a job.
#[derive(Clone, Copy)]
pub enum Reading {
    /// Words before the options are missing.
    Lead(Lead),
    /// Options may follow.
    Options(Head, Choices),
    /// An option waits for its value.
    Value(Head, Choices, OptionName),
}

impl Reading {
    /// What stands behind the words before the options, or the first of them.
    fn led(led: Led) -> Reading
        ensures { result ≡ standing led }
    {
        match led {
            Led::Lead(lead) => Reading::Lead(lead),
            Led::Head(head) => Reading::Options(head, Choices::new()),
        }
    }

    /// What stands behind an option: one that stands alone sets, and another waits for its value.
    fn behind(head: Head, choices: Choices, option: OptionName) -> Reading
        ensures { result ≡ behind_option head choices option (with_flag choices option) }
    {
        match choices.with_flag(option) {
            Some(more) => Reading::Options(head, more),
            None => Reading::Value(head, choices, option),
        }
    }

    /// What stands with a word more, unless the word may not follow.
    pub fn next(self, word: &str) -> Option<Reading>
        ensures { result ≡ next self word.now }
    {
        match self {
            Reading::Lead(lead) => Some(Reading::led(lead.with(word)?)),
            Reading::Options(head, choices) => {
                let option = OptionName::named(word)?;
                if is_free(head, choices, option) {
                    Some(Reading::behind(head, choices, option))
                } else {
                    None
                }
            }
            Reading::Value(head, choices, option) => Some(Reading::Options(
                head,
                choices.with_value(option, word)?,
            )),
        }
    }

    /// The job that stands, unless words are missing.
    pub fn job(self) -> Option<Job>
        ensures { result ≡ job_at self }
    {
        match self {
            Reading::Options(head, choices) => choices.job(head),
            _ => None,
        }
    }
}

/// Whether an option may follow: the head takes it, and those that stand admit it.
fn is_free(head: Head, choices: Choices, option: OptionName) -> bool
    ensures { result ≡ is_free head choices option }
{
    head.takes(option) && choices.admits(option)
}

/// The job that the words name, or the place where they go wrong.
pub fn read_words(words: &[String]) -> Result<Job, Usage>
    ensures ok { IfOk result (λ job. job_of (map string_bytes words.now) ≡ Some job) }
    ensures grammar { IfOk result (λ job. IsJob (map string_bytes words.now) job) }
    ensures workers { IfOk result HasWorkers }
    ensures err { OnErr result (job_of (map string_bytes words.now) ≡ None) }
    ensures place { IfErr result (λ usage. IsPlace (map string_bytes words.now) usage.place) }
{
    let mut standing = Reading::Lead(Lead::Start);
    let mut place = 1;
    for word in words {
        match standing.next(word.as_str()) {
            Some(more) => standing = more,
            None => return Err(Usage { place }),
        }
        place += 1;
    }
    match standing.job() {
        Some(job) => Ok(job),
        None => Err(Usage { place }),
    }
}
