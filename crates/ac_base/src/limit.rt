/// The greatest length of a container (Count_Type'Last, A.18.1).
pub const GREATEST_LENGTH: u64 = 1_000_000;

/// How many elements an object may hold at most (A.18.19 to A.18.25 and A.18.32 for the bounded forms).
#[derive(Clone, Copy, PartialEq, Eq)]
pub enum Limit {
    Unbounded,
    Bounded(u64),
}
