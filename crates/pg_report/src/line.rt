//! What a line of a report says.

use pg_law::End;
use pg_words::{EngineName, ProgramName};

/// How a run ended, and what it took.
#[derive(Clone, Copy, Debug, PartialEq, Eq)]
pub struct LastLine {
    pub end: End,
    /// None for a run that has no rounds.
    pub rounds: Option<u32>,
    pub executions: u64,
    pub gathers: u64,
}

/// What a line of a report says. `second` is there exactly where the line has a second value, as
/// those of a wide program have.
#[derive(Clone, Copy, Debug, PartialEq, Eq)]
pub enum ReportLine {
    Head {
        engine: EngineName,
        program: ProgramName,
    },
    Counts {
        vertices: u32,
        edges: u32,
        loops: u64,
    },
    /// One execution: the vertex of this id got this value.
    Entry {
        id: u32,
        value: u64,
        second: Option<u64>,
    },
    Value {
        id: u32,
        value: u64,
        second: Option<u64>,
    },
    Signal {
        id: u32,
        message: u64,
    },
    Last {
        last: LastLine,
    },
}
