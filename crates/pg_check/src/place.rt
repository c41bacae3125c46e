//! Where a check stands in a report.
ghost use Rattle.std.specs.Prelude.{◌≡◌, ◌<◌, ◌≤◌, ◌^◌};
ghost use Rattle.pg_check.specs.Course.{IsTally, full, with_entry};

use crate::tail::TailPlace;

/// What the entries of a journal took so far, and how many more may follow.
#[derive(Clone, Copy, Debug, PartialEq, Eq)]
pub struct Tally {
    pub left: u32,
    pub executions: u64,
    pub gathers: u64,
}

impl Tally {
    /// No entry yet.
    pub fn full(fuel: u32) -> Tally
        ensures value { result ≡ full fuel }
        ensures tally { IsTally result }
    {
        Tally {
            left: fuel,
            executions: 0,
            gathers: 0,
        }
    }

    /// One entry more, which gathered so often.
    pub fn with(self, gathers: u64) -> Tally
        requires tally { IsTally self }
        requires some { 0 < self.left }
        requires few { gathers ≤ 2 ^ 24 }
        ensures value { result ≡ with_entry self gathers }
        ensures tally { IsTally result }
    {
        Tally {
            left: self.left - 1,
            executions: self.executions + 1,
            gathers: self.gathers + gathers,
        }
    }
}

/// Which line is expected next.
#[derive(Clone, Copy, Debug, PartialEq, Eq)]
pub enum Place {
    /// The counts of the graph.
    Counts,
    /// One more entry, or the first line behind the journal.
    Journal { tally: Tally },
    /// A line behind the journal.
    Tail { at: TailPlace },
}
