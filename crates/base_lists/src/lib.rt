//! Lemmas about lists, and lists that are put in order. It has no code.
#![tactic(auto)]
