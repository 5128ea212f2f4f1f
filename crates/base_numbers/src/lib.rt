//! Lemmas about numbers, and about texts as lists of numbers. It has no code.
#![tactic(auto)]
