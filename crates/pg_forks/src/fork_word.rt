//! The fork of an edge, and what its ends may do to it.
ghost use Rattle.std.specs.Prelude.{◌≡◌, ◌<◌, ◌≤◌, ◌↔◌, IsNone};
ghost use Rattle.pg_forks.specs.Bits.{bits_of, word_of_bits};
ghost use Rattle.pg_forks.specs.Transitions.{same_side, sent_to, pin_of, take_of, ask_of, hand_over_of, back_of, back_committed, back_failed};

use pg_graph::Side;

/// The fork of an edge: the right to read and write what the edge carries.
///
/// `side` is the end at which it stands. It is clean while that end has yet to use it, and dirty
/// once it was used there. `asked` is the wish of the other end. A pinned fork is in use.
#[derive(Clone, Copy, Debug, PartialEq, Eq)]
pub struct ForkWord {
    pub side: Side,
    pub dirty: bool,
    pub asked: bool,
    pub pinned: bool,
}

/// What an attempt at a vertex knows when it gives a fork back.
///
/// `committed`: its entry was made. `taken`: it got this fork by `take`. `evidence`: it found its
/// vertex signalled.
#[derive(Clone, Copy, Debug, PartialEq, Eq)]
pub struct Why {
    pub committed: bool,
    pub taken: bool,
    pub evidence: bool,
}

/// Whether the fork stands at the end `me`.
fn is_at(side: Side, me: Side) -> bool
    ensures { result ≡ same_side side me }
{
    match (side, me) {
        (Side::Source, Side::Source) => true,
        (Side::Target, Side::Target) => true,
        _ => false,
    }
}

/// A fork that goes to this end, unasked and unpinned.
fn sent(side: Side, dirty: bool) -> ForkWord
    ensures { result ≡ sent_to side dirty }
{
    ForkWord {
        side,
        dirty,
        asked: false,
        pinned: false,
    }
}

impl ForkWord {
    /// The word as a number: the side is bit 0, 1 for the target; dirty, asked and pinned are the
    /// bits 1, 2 and 3.
    pub fn bits(self) -> u64
        ensures value { result ≡ bits_of self }
        ensures few { result ≤ 15 }
    {
        let mut bits = match self.side {
            Side::Source => 0,
            Side::Target => 1,
        };
        if self.dirty {
            bits += 2;
        }
        if self.asked {
            bits += 4;
        }
        if self.pinned {
            bits += 8;
        }
        bits
    }

    /// The word of a number.
    pub fn of_bits(bits: u64) -> Option<ForkWord>
        ensures word { result ≡ word_of_bits bits }
        ensures none { IsNone result ↔ 15 < bits }
    {
        if bits > 15 {
            return None;
        }
        let side = if bits % 2 == 0 {
            Side::Source
        } else {
            Side::Target
        };
        Some(ForkWord {
            side,
            dirty: bits / 2 % 2 == 1,
            asked: bits / 4 % 2 == 1,
            pinned: bits / 8 % 2 == 1,
        })
    }

    /// The end `me` pins the fork that stands there.
    pub fn pin(self, me: Side) -> Option<ForkWord>
        ensures { result ≡ pin_of self me }
    {
        if !is_at(self.side, me) || self.pinned || (self.dirty && self.asked) {
            return None;
        }
        Some(ForkWord {
            pinned: true,
            ..self
        })
    }

    /// The end `me` takes a dirty fork from the other end, and pins it.
    pub fn take(self, me: Side) -> Option<ForkWord>
        ensures { result ≡ take_of self me }
    {
        if is_at(self.side, me) || !self.dirty || self.pinned {
            return None;
        }
        Some(ForkWord {
            side: me,
            dirty: false,
            asked: false,
            pinned: true,
        })
    }

    /// The end `me` asks for a fork that stands at the other end and can't be taken.
    pub fn ask(self, me: Side) -> Option<ForkWord>
        ensures { result ≡ ask_of self me }
    {
        if is_at(self.side, me) || self.asked || (self.dirty && !self.pinned) {
            return None;
        }
        Some(ForkWord {
            asked: true,
            ..self
        })
    }

    /// The end `me` sends a dirty fork that it pinned to the other end, which asked for it.
    pub fn hand_over(self, me: Side) -> Option<ForkWord>
        ensures { result ≡ hand_over_of self me }
    {
        if !is_at(self.side, me) || !self.pinned || !self.dirty || !self.asked {
            return None;
        }
        Some(sent(me.opposite(), false))
    }

    /// The end `me` gives back a fork that it pinned.
    pub fn back(self, me: Side, why: Why) -> Option<ForkWord>
        ensures { result ≡ back_of self me why }
    {
        if !is_at(self.side, me) || !self.pinned {
            return None;
        }
        if why.committed {
            self.back_after_entry(me)
        } else {
            self.back_unused(me, why)
        }
    }

    /// Back after a commit, which makes the fork dirty.
    fn back_after_entry(self, me: Side) -> Option<ForkWord>
        ensures { result ≡ back_committed self me }
    {
        let used = ForkWord {
            dirty: true,
            ..self
        };
        if used.asked {
            return used.hand_over(me);
        }
        Some(ForkWord {
            pinned: false,
            ..used
        })
    }

    /// Back after an attempt that failed.
    fn back_unused(self, me: Side, why: Why) -> Option<ForkWord>
        ensures { result ≡ back_failed self me why }
    {
        if self.dirty && self.asked {
            return self.hand_over(me);
        }
        if why.taken && !why.evidence {
            return Some(sent(me.opposite(), true));
        }
        Some(ForkWord {
            pinned: false,
            ..self
        })
    }
}
