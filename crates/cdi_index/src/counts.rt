//! How many records were computed.

/// How many closures of types and how many records of beans were computed. Each stays at the greatest `u64`.
#[derive(Clone, Copy, Debug, PartialEq, Eq)]
pub struct Counts {
    pub closures: u64,
    pub beans: u64,
}
