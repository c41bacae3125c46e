//! Where an actor stands in its attempt.
ghost use Rattle.std.specs.Prelude.{◌<◌, length, IfSome};
ghost use Rattle.pg_virtual.specs.Deeds.{IsFor};

use pg_graph::Graph;
use pg_meals::act::Act;

/// A line of an attempt: what the actor does next.
#[derive(Clone, Copy, Debug, PartialEq, Eq)]
pub enum Line {
    Rest,
    Claim,
    Pin,
    Ask,
    Read,
    Prepare,
    Turn,
    Commit,
    Give,
    Write,
    Back,
    Drop,
}

/// An act, or preparing.
#[derive(Clone, Copy, Debug, PartialEq, Eq)]
pub enum Deed {
    Acts { act: Act },
    Prepares,
}

/// An actor's vertex, and the line of its attempt.
///
/// At `Pin`, `Ask` and `Read` the place is that of the edge among those of the vertex, at `Back` it is
/// how many forks are yet to go back, and at `Write` it is a worker. `entered` says that the entry was
/// made, and `again` that the vertex is worth another attempt.
#[derive(Clone, Copy, Debug)]
pub struct Hand {
    pub vertex: u32,
    pub line: Line,
    pub place: u32,
    pub entered: bool,
    pub again: bool,
}

/// The edge at a place among those of a vertex.
fn edge_at(graph: &Graph, vertex: u32, place: u32) -> Option<u32>
    ensures { IfSome result (λ e. e < length graph.now.edges) }
{
    if vertex >= graph.vertices() {
        return None;
    }
    let edges = graph.edges_of(vertex);
    if place as usize >= edges.len() {
        return None;
    }
    Some(edges[place as usize])
}

/// How many edges a vertex has.
pub fn degree(graph: &Graph, vertex: u32) -> u32 {
    if vertex >= graph.vertices() {
        return 0;
    }
    let count = graph.edges_of(vertex).len();
    if count > u32::MAX as usize {
        return 0;
    }
    count as u32
}

impl Hand {
    /// A hand with nothing in it.
    pub fn rest() -> Hand {
        Hand {
            vertex: 0,
            line: Line::Rest,
            place: 0,
            entered: false,
            again: false,
        }
    }

    /// A hand that is to take a vertex.
    pub fn at(vertex: u32) -> Hand {
        Hand {
            vertex,
            line: Line::Claim,
            again: true,
            ..Hand::rest()
        }
    }

    /// What the actor does next, if anything.
    pub fn deed(self, graph: &Graph) -> Option<Deed>
        ensures { IfSome result (IsFor graph.now) }
    {
        let act = match self.line {
            Line::Rest => return None,
            Line::Prepare => return Some(Deed::Prepares),
            Line::Claim => {
                if self.vertex >= graph.vertices() {
                    return None;
                }
                Act::Claim {
                    vertex: self.vertex,
                }
            }
            Line::Turn => Act::Turn,
            Line::Commit => Act::Commit,
            Line::Give => Act::Give,
            Line::Write => Act::WriteMirror {
                worker: (self.place % 64) as u8,
            },
            Line::Drop => Act::Drop,
            Line::Pin | Line::Ask | Line::Read | Line::Back => return self.over_edge(graph),
        };
        Some(Deed::Acts { act })
    }

    /// What it does over an edge. Forks go back last first.
    fn over_edge(self, graph: &Graph) -> Option<Deed>
        ensures { IfSome result (IsFor graph.now) }
    {
        let place = match self.line {
            Line::Back => self.place.saturating_sub(1),
            _ => self.place,
        };
        let edge = edge_at(graph, self.vertex, place)?;
        let act = match self.line {
            Line::Pin => Act::Pin { edge },
            Line::Ask => Act::Ask { edge },
            Line::Read => Act::ReadMirror { edge },
            _ => Act::Back { edge },
        };
        Some(Deed::Acts { act })
    }

    /// The hand on another line, at its first place.
    fn on(self, line: Line, place: u32) -> Hand {
        Hand {
            line,
            place,
            ..self
        }
    }

    /// Forks go back, as many as this, and then the vertex.
    fn back(self, pinned: u32) -> Hand {
        if pinned == 0 {
            self.on(Line::Drop, 0)
        } else {
            self.on(Line::Back, pinned)
        }
    }

    /// The edge at this place is next, or there is none.
    fn pin(self, place: u32, degree: u32) -> Hand {
        if place < degree {
            self.on(Line::Pin, place)
        } else {
            self.on(Line::Prepare, 0)
        }
    }

    /// The hand after its deed, which was made or refused.
    ///
    /// A fork that is refused is asked for once, and the attempt goes back. So it does where nothing
    /// could be prepared, since no message is there then. The turn alone is waited for.
    pub fn after(self, made: bool, degree: u32, workers: u32) -> Hand {
        match self.line {
            Line::Rest => self,
            Line::Claim if made => self.pin(0, degree),
            Line::Claim => self.on(Line::Rest, 0),
            Line::Pin if made => self.on(Line::Read, self.place),
            Line::Pin => self.on(Line::Ask, self.place),
            Line::Ask => self.back(self.place),
            Line::Read => self.pin(self.place.saturating_add(1), degree),
            Line::Prepare if made => self.on(Line::Turn, 0),
            Line::Prepare => Hand {
                again: false,
                ..self.back(degree)
            },
            Line::Turn if made => self.on(Line::Commit, 0),
            Line::Turn => self,
            Line::Commit => Hand {
                entered: made,
                again: !made,
                ..self.on(Line::Give, 0)
            },
            Line::Give if self.entered => self.on(Line::Write, 0),
            Line::Give => self.back(degree),
            Line::Write if self.place.saturating_add(1) < workers => {
                self.on(Line::Write, self.place.saturating_add(1))
            }
            Line::Write => self.back(degree),
            Line::Back => self.back(self.place.saturating_sub(1)),
            Line::Drop => self.on(Line::Rest, 0),
        }
    }
}
