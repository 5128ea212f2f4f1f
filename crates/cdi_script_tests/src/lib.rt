//! Tests of what no script shows: of the devices that scripts come from and are answered to, of the program's statuses, and of
//! functions that are stored as bodies, and how often they are asked.
#![tactic(auto)]

#[cfg(test)]
mod closures;
#[cfg(test)]
mod counting;
#[cfg(test)]
mod devices;
#[cfg(test)]
mod fixtures;
#[cfg(test)]
mod proceeding;
#[cfg(test)]
mod session;
