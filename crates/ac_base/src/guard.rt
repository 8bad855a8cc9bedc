/// What a guard forbids while it is held: tampering with cursors, or with elements (A.18.2, and
/// the like for each other kind).
#[derive(Clone, Copy, PartialEq, Eq)]
pub enum GuardKind {
    Cursors,
    Elements,
}

/// The check that a call makes of its object before all others.
#[derive(Clone, Copy, PartialEq, Eq)]
pub enum Class {
    /// The call adds, removes or moves elements: each kind of guard forbids it.
    Cursors,
    /// The call puts another value in an element's place: a guard on elements forbids it.
    Elements,
}
