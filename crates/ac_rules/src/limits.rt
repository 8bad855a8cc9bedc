//! Limits that the tokens of a text don't tell.

/// How many names may be in scope.
pub const MOST_NAMES: usize = 1_000;

/// How much room the objects of a text may have in all.
pub const MOST_ROOM: u64 = 1_000_000;
