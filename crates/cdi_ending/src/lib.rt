//! How contextual instances are destroyed: what runs before, then what was made for their injection points, the youngest
//! first. What fails on the way goes no further. Nothing here counts against the limits of a run.
#![tactic(auto)]

mod asking;
mod callbacks;
mod destroying;
mod paused;
mod reserving;
mod shared;
mod stage;

pub use asking::{ending, touch};
pub use stage::Stage;
