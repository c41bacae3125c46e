//! What a worker sends to a master.
use pg_law::Delta;

/// What one visit of an edge tells the vertex `to` at its other end.
///
/// `signal` is a message for it, and `delta` a change to its gather.
#[derive(Drop)]
pub struct Sent<A> {
    pub to: u32,
    pub signal: Option<u64>,
    pub delta: Delta<A>,
}
