//! Where an edge went.

/// The worker that an edge got, and the case that put it there, 1 to 4.
#[derive(Clone, Copy, Debug, PartialEq, Eq)]
pub struct Placed {
    pub worker: u8,
    pub case: u8,
}
