/// How many bytes an input may have at most.
pub const INPUT_LIMIT: u64 = 1048576;
