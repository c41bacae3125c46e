//! What a check finds.

/// What a check finds of a report. Lines are numbered from the header, which is line 1.
#[derive(Clone, Copy, Debug, PartialEq, Eq)]
pub enum Verdict {
    /// The report is right for its job.
    Confirmed,
    /// The first wrong line: another line was expected, or one is missing or surplus there.
    Rejected { line: u64 },
}
