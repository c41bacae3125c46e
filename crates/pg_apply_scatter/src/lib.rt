//! The second half of a round, in parts: apply at the masters, push, scatter by workers, deliver.
#![tactic(auto)]

mod apply;
mod delivery;
mod dense;
mod desk;
mod laws;
mod near;
mod push;
mod scatter;
mod sent;
mod visit;

pub use apply::apply_masters;
pub use delivery::deliver;
pub use laws::{
    cells_follow, equal_signals_deliver_equally, masters_become, parts_are_a_round, pushes_share,
    signals_are_enough, workers_scatter,
};
pub use push::push_mirrors;
pub use scatter::{scatter_signals, scatter_worker};
pub use sent::Sent;
