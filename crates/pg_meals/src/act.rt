//! The acts of an actor, and what they tell it.
use pg_law::Datum;

/// One step of an actor. Reading or writing a replica is a step for each of its halves.
#[derive(Clone, Copy, Debug, PartialEq, Eq)]
pub enum Act {
    Claim { vertex: u32 },
    Drop,
    Look { edge: u32 },
    Pin { edge: u32 },
    Ask { edge: u32 },
    Back { edge: u32 },
    ReadMirror { edge: u32 },
    Turn,
    Commit,
    Give,
    WriteMirror { worker: u8 },
}

/// What an act tells the actor.
#[derive(Clone, Copy, Debug, PartialEq, Eq)]
pub enum Outcome {
    Moved,
    Saw { bits: u64 },
    Read { datum: Datum },
    Entered { number: u64 },
}
