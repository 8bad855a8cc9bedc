//! Why a state doesn't fill a script's outermost variables and objects.

/// Why an entry fills nothing.
#[derive(Clone, Copy)]
pub enum FillFault {
    /// No outermost variable or object has its name, its sort, its type and its limit.
    Mismatch,
    NoMemory,
}

/// Why a state isn't resumed.
#[derive(Clone, Copy)]
pub enum ResumeFault {
    /// The entry on this line is the first that matches nothing.
    Mismatch { line: u64 },
    NoMemory,
}
