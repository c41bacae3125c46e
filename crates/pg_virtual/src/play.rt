//! The hands of all actors, and what they may take next.
ghost use Rattle.std.specs.Prelude.{◌≡◌, ◌<◌, length, IfSome};
ghost use Rattle.pg_virtual.specs.Deeds.{IsFor};

use crate::hand::{Deed, Hand, Line, degree};
use crate::order::Order;
use crate::worklist::Worklist;
use pg_graph::Graph;
use pg_law::State;
use std::alloc::{AllocError, Global};

/// How the actors stand in a stretch. `hands` is indexed by their numbers.
#[derive(Drop)]
pub struct Play {
    hands: Vec<Hand>,
    worklist: Worklist,
    order: Order,
    workers: u32,
}

impl Play {
    /// As many actors as there are workers, all at rest.
    pub fn new(alloc: Global, graph: &Graph, workers: u32, seed: u64) -> Result<Play, AllocError> {
        Ok(Play {
            hands: vec![in alloc; Hand::rest(); workers as usize]?,
            worklist: Worklist::new(alloc, graph)?,
            order: Order::of(seed),
            workers,
        })
    }

    /// All actors at rest, and each signalled vertex worth an attempt.
    pub fn begin(&mut self, graph: &Graph, state: &State) -> Result<(), AllocError>
        requires { length state.now.messages ≡ length graph.now.ids }
    {
        self.worklist.clear();
        for hand in self.hands.iter_mut() {
            *hand = Hand::rest();
        }
        for vertex in 0..graph.vertices() {
            if state.messages[vertex as usize].is_some() {
                self.worklist.put(vertex)?;
            }
        }
        Ok(())
    }

    /// The hand of an actor.
    pub fn hand(&self, actor: u32) -> Hand {
        if (actor as usize) < self.hands.len() {
            self.hands[actor as usize]
        } else {
            Hand::rest()
        }
    }

    /// The actor's hand is this from now on.
    pub fn set(&mut self, actor: u32, hand: Hand) {
        if (actor as usize) < self.hands.len() {
            self.hands[actor as usize] = hand;
        }
    }

    /// The actor that is drawn next.
    pub fn draw(&mut self, actors: u32) -> u32
        requires { 0 < actors }
        ensures { result < actors }
    {
        self.order.below(actors)
    }

    /// How many deeds an actor does in one go: so many that an attempt is over after some dozens of
    /// goes, however many edges its vertex has.
    pub fn go(&mut self, graph: &Graph, actor: u32) -> u32 {
        let most = degree(graph, self.hand(actor).vertex) / 16 + 2;
        1 + self.order.below(most)
    }

    /// An actor at rest is to take a vertex that is worth an attempt.
    pub fn refill(&mut self, actor: u32) {
        if self.hand(actor).line != Line::Rest {
            return;
        }
        let Some(vertex) = self.worklist.take(&mut self.order) else {
            return;
        };
        self.set(actor, Hand::at(vertex));
    }

    /// What the actor does next, if anything.
    pub fn deed(&self, graph: &Graph, actor: u32) -> Option<Deed>
        ensures { IfSome result (IsFor graph.now) }
    {
        self.hand(actor).deed(graph)
    }

    /// Notes that the actor's deed was made or refused, and answers whether it made an entry.
    pub fn note(&mut self, graph: &Graph, actor: u32, made: bool) -> Result<bool, AllocError> {
        let before = self.hand(actor);
        let after = before.after(made, degree(graph, before.vertex), self.workers);
        self.set(actor, after);
        if after.line == Line::Rest && after.again {
            self.worklist.put(after.vertex)?;
        }
        Ok(before.line == Line::Commit && made)
    }

    /// A vertex is worth an attempt.
    pub fn put(&mut self, vertex: u32) -> Result<(), AllocError> {
        self.worklist.put(vertex)
    }

    /// Whether no vertex is worth an attempt, and no actor has one.
    pub fn is_over(&self) -> bool {
        self.worklist.is_empty() && self.hands.iter().all(|hand| hand.line == Line::Rest)
    }

    /// All attempts are given up. The vertices without an entry are worth another.
    pub fn give_up(&mut self) -> Result<(), AllocError> {
        for place in 0..self.hands.len() {
            let hand = self.hands[place];
            self.hands[place] = Hand::rest();
            if hand.line != Line::Rest && !hand.entered {
                self.worklist.put(hand.vertex)?;
            }
        }
        Ok(())
    }
}
