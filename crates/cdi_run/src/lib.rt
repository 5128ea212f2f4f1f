//! Runs of a deployment: lookups, calls and events, and the ends of contexts. Each pushes the entries of its trace while it
//! goes on, and these are those of a legal tree. How an instance is made and used is in `making`, `invoking` and
//! `notifying`, whose functions call each other as the cases of a legal tree do.
#![tactic(auto)]

mod invoking;
mod making;
mod notifying;
mod player;
mod roots;
mod words;

pub use player::Player;
pub use roots::Purpose;
