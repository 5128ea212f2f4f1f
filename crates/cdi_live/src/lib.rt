//! Answers that are kept until an edit touches them.
#![tactic(auto)]

mod chain_compare;
mod chain_gone;
mod chain_place;
mod chain_stage;
mod chain_suspects;
mod chains;
mod choices;
mod compare;
mod dropped;
mod event_compare;
mod event_dropped;
mod event_lists;
mod event_stage;
mod event_suspects;
mod events;
mod gone;
mod interceptor_moves;
mod interceptors;
mod live;
mod memos;
mod moved;
mod prepare;
mod sides;
mod stage;
mod suspects;
mod users;
mod view;

pub use live::Live;
