//! The places around a vertex, one after another.
ghost use Rattle.std.specs.Iterator.{YieldsFirst, item_count};

use pg_graph::{Dir, Edge};
use std::marker::Model;

/// Places of edges in a store, ascending, seen as the list of those that are left.
///
/// It walks along the row of a replica, and leaves out the edges that the direction doesn't take
/// in. `edges` are the store's, by place.
#[derive(Drop)]
pub struct Around<'a> {
    pub(crate) places: &'a [u32],
    pub(crate) edges: &'a [Edge],
    pub(crate) replica: u32,
    pub(crate) dir: Dir,
}

impl<'a> Model for Around<'a> {
    ghost use Rattle.std.specs.Prelude.{ℕ, ◌<◌, List, length, All};
    ghost use Rattle.pg_edge_store.specs.Store.{places_taken};

    ghost Value = { List ℕ };

    ghost view = { λ a. places_taken a.edges.now a.replica a.dir a.places.now };

    ghost invariant = { λ a. All (λ i. i < length a.edges.now) a.places.now };
}

impl<'a> Iterator for Around<'a> {
    type Item = u32;

    ghost next_gives = { YieldsFirst (λ left. left) };

    ghost remaining = { item_count (λ left. left) };

    fn next(&mut self) -> Option<u32> {
        while let Some((place, others)) = self.places.split_first() {
            self.places = others;
            let edge = self.edges[*place as usize];
            if self.dir.takes(edge.side(self.replica)) {
                return Some(*place);
            }
        }
        None
    }
}
