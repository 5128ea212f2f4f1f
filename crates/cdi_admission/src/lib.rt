//! Which declarations that a program makes may be put.
#![tactic(auto)]

mod check;
mod labels;
mod lists;
mod names;
mod params;
mod parts;

pub use check::check_decl;
