//! Lemmas about truth values, options, results and orderings. It has no code.
#![tactic(auto)]
