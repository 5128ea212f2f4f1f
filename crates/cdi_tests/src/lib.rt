//! Tests of calls below the container that no script makes: verdicts on beans, the places of refused texts, ways along edges,
//! the faults of a plain view, the program's bodies by their table, and what files are read.
#![tactic(auto)]

#[cfg(test)]
mod calls;
#[cfg(test)]
mod explained;
#[cfg(test)]
mod faulty;
#[cfg(test)]
mod refused_texts;
#[cfg(test)]
mod sources;
#[cfg(test)]
mod stock;
#[cfg(test)]
mod ways;
