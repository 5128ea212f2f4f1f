//! The scene of a deployment: what its runs see, made from its declarations, from what is chosen for its injection
//! points and from the book of stored bodies. What the standard says of a deployment that runs is said here, once.
#![tactic(auto)]

mod around;
mod bean;
mod class;
mod listed_beans;
mod names;
mod notifying;
mod part;
mod positions;
mod scene;
mod site;
mod stage;
mod target;

pub use listed_beans::ListedBeans;
pub use names::{BeanNames, InterceptorNames, MethodNames, Names, SiteNames, names_of};
pub use notifying::positions_of;
pub use positions::Positions;
pub use scene::scene_of;
pub use site::method_of;
pub use target::{Target, target_of};
